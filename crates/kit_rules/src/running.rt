ghost use Rattle.std.specs.Prelude.{◌≡◌, ◌<◌, ◌≤◌, ◌++◌, length, drop, OnOk, OnErr, All};
ghost use Rattle.kit_rules.specs.Limits.{most_time, most_vars};
ghost use Rattle.kit_rules.specs.Federation.{IsAction};
ghost use Rattle.kit_rules.specs.Running.{ComesTo};
ghost use Rattle.kit_rules.specs.Step.{after_actions, after_rule, after_rules};
ghost use Rattle.kit_rules.specs.Step.{same_trigger, CanRun, state_after};

use crate::act::{act, are_met};
use crate::{Action, ApplyEnd, FedState, Federation, Rule, Scene, Trigger};
use kit_base::Message;

/// Does the actions of a rule, in order.
fn act_all(scene: &Scene, state: &mut FedState, actions: &[Action]) -> Result<(), ApplyEnd>
    requires time { scene.now.time ≤ most_time }
    requires fits { All (IsAction 256 most_vars (Some scene.now.lookahead)) actions.now }
    requires room { state.old.next ≤ 16385 }
    ensures { ComesTo (after_actions scene.now state.old actions.now) state.old state.new result }
{
    for action in actions {
        act(scene, state, *action)?;
    }
    Ok(())
}

/// Does what a rule says, where its trigger is this one and its conditions hold.
fn apply_rule(scene: &Scene, on: Trigger, state: &mut FedState, rule: &Rule) -> Result<(), ApplyEnd>
    requires time { scene.now.time ≤ most_time }
    requires rule { CanRun scene.now.lookahead rule.now }
    requires room { state.old.next ≤ 16385 }
    ensures { ComesTo (after_rule scene.now on state.old rule.now) state.old state.new result }
{
    if is_same_trigger(rule.on, on) && are_met(scene, &state.vars(), rule.conds.as_slice()) {
        act_all(scene, state, rule.actions.as_slice())
    } else {
        Ok(())
    }
}

/// Whether two triggers are the same.
fn is_same_trigger(a: Trigger, b: Trigger) -> bool
    ensures { result ≡ same_trigger a b }
{
    match (a, b) {
        (Trigger::Start, Trigger::Start) | (Trigger::Grant, Trigger::Grant) => true,
        (Trigger::Got { group: x }, Trigger::Got { group: y }) => x == y,
        _ => false,
    }
}

/// Applies the rules of a trigger, in order.
pub(crate) fn apply_rules(
    scene: &Scene,
    on: Trigger,
    state: &mut FedState,
    rules: &[Rule],
) -> Result<(), ApplyEnd>
    requires time { scene.now.time ≤ most_time }
    requires rules { All (CanRun scene.now.lookahead) rules.now }
    requires room { state.old.next ≤ 16385 }
    ensures { ComesTo (after_rules scene.now on state.old rules.now) state.old state.new result }
{
    for rule in rules {
        apply_rule(scene, on, state, rule)?;
    }
    Ok(())
}

/// Applies the rules of a trigger to a federate's state, at its logical time `now`, and adds the
/// messages that they send to `sends`, in the order of their numbers, transported or not.
///
/// The rules go in the order of the table. A rule's conditions are read when its turn comes, and if
/// all hold its actions are done in order. `value` is that of the message that was delivered, or 0.
///
/// A federate has numbers up to 16,384, and a send or Retraction beyond them refuses the whole
/// step. Nothing else refuses one but want of memory.
pub fn apply(
    federation: &Federation,
    federate: u8,
    state: &mut FedState,
    trigger: Trigger,
    now: u64,
    value: u32,
    sends: &mut Vec<Message>,
) -> Result<(), ApplyEnd>
    requires federate { federate < length federation.now.federates }
    requires time { now ≤ federation.now.end }

    ensures comes { ComesTo (state_after federation.now federate trigger now value state.old)
        state.old state.new result }
    ensures sends { OnOk result (sends.new.items ≡
        sends.old.items ++ drop (length state.old.sends) state.new.sends) }
    ensures unchanged { OnErr result
        ((state.new ≡ state.old) × (sends.new.items ≡ sends.old.items)) }
{
    let rules = federation.federate(federate);
    let scene = Scene {
        end: federation.end(),
        sender: federate,
        lookahead: federation.effective_lookahead(federate),
        time: now,
        value,
    };
    state.run(&scene, trigger, rules.rules.as_slice(), sends)
}
