ghost use Rattle.std.specs.Prelude.{◌≡◌, ◌<◌, ◌≤◌, ◌^◌, OnOk, OnErr, All};
ghost use Rattle.kit_rules.specs.Limits.{most_time, most_vars};
ghost use Rattle.kit_rules.specs.Federation.{IsOperand, IsCond, IsAction};
ghost use Rattle.kit_rules.specs.Step.{value_of, compares, condition_holds, conditions_hold};
ghost use Rattle.kit_rules.specs.Step.{after_action};

use crate::{Action, ApplyEnd, Compare, Cond, FedState, Operand, Scene, Wish};
use kit_base::{Kind, Message};

/// The number that an operand stands for.
fn operand_value(scene: &Scene, vars: &[u32; 8], operand: Operand) -> u32
    requires operand { IsOperand most_vars operand }
    requires now { scene.now.time < 2 ^ 32 }
    ensures { result ≡ value_of scene.now vars.now operand }
{
    match operand {
        Operand::Num(n) => n,
        Operand::Var(v) => vars[v as usize],
        Operand::Now => scene.time as u32,
        Operand::Value => scene.value,
    }
}

/// Whether two numbers compare so.
fn compare(test: Compare, left: u32, right: u32) -> bool
    ensures { result ≡ compares test left right }
{
    match test {
        Compare::Lt => left < right,
        Compare::Le => left <= right,
        Compare::Eq => left == right,
        Compare::Ne => left != right,
        Compare::Ge => left >= right,
        Compare::Gt => left > right,
    }
}

/// Whether a condition holds.
fn is_met(scene: &Scene, vars: &[u32; 8], cond: Cond) -> bool
    requires cond { IsCond most_vars cond }
    requires now { scene.now.time < 2 ^ 32 }
    ensures { result ≡ condition_holds scene.now vars.now cond }
{
    compare(
        cond.test,
        operand_value(scene, vars, cond.left),
        operand_value(scene, vars, cond.right),
    )
}

/// Whether all of the conditions hold.
pub(crate) fn are_met(scene: &Scene, vars: &[u32; 8], conds: &[Cond]) -> bool
    requires conds { All (IsCond most_vars) conds.now }
    requires now { scene.now.time < 2 ^ 32 }
    ensures { result ≡ conditions_hold scene.now vars.now conds.now }
{
    for cond in conds {
        if !is_met(scene, vars, *cond) {
            return false;
        }
    }
    true
}

/// Sends an Event, and keeps its number in a variable if asked.
fn send(
    scene: &Scene,
    state: &mut FedState,
    group: u8,
    delay: u32,
    value: Operand,
    keep: Option<u8>,
) -> Result<(), ApplyEnd>
    requires time { scene.now.time ≤ most_time }
    requires fits { IsAction 256 most_vars (Some scene.now.lookahead)
        (Action.Send group delay value keep) }
    ensures ok { OnOk result (state.new
        ≡ after_action scene.now state.old (Action.Send group delay value keep)) }
    ensures err { OnErr result (state.new ≡ state.old) }
    ensures spent { result ≡ Err ApplyEnd.SendsSpent → 16384 < state.old.next }
    ensures room { OnOk result (state.old.next ≤ 16384) }
{
    let number = state.next();
    let value = operand_value(scene, &state.vars(), value);
    state.add_event(Message {
        time: scene.time + delay as u64,
        sender: scene.sender,
        number,
        kind: Kind::Event,
        group,
        value,
    })?;
    if let Some(v) = keep {
        state.set_var(v, number as u32);
    }
    Ok(())
}

/// Does an action.
pub(crate) fn act(scene: &Scene, state: &mut FedState, action: Action) -> Result<(), ApplyEnd>
    requires time { scene.now.time ≤ most_time }
    requires fits { IsAction 256 most_vars (Some scene.now.lookahead) action }
    ensures ok { OnOk result (state.new ≡ after_action scene.now state.old action) }
    ensures err { OnErr result (state.new ≡ state.old) }
    ensures spent { result ≡ Err ApplyEnd.SendsSpent
        → 16385 < (after_action scene.now state.old action).next }
    ensures room { OnOk result (state.old.next ≤ 16385 → state.new.next ≤ 16385) }
{
    match action {
        Action::Set { var, to } => {
            let value = operand_value(scene, &state.vars(), to);
            state.set_var(var, value);
            Ok(())
        }
        Action::Add { var, by } => {
            let vars = state.vars();
            let by = operand_value(scene, &vars, by);
            state.set_var(var, vars[var as usize].wrapping_add(by));
            Ok(())
        }
        Action::Sub { var, by } => {
            let vars = state.vars();
            let by = operand_value(scene, &vars, by);
            state.set_var(var, vars[var as usize].wrapping_sub(by));
            Ok(())
        }
        Action::Send {
            group,
            delay,
            value,
            keep,
        } => send(scene, state, group, delay, value, keep),
        Action::Retract { var } => state.retract(scene, var),
        Action::Tar { step } => {
            state.set_wish(Wish::Tar(step));
            Ok(())
        }
        Action::Ner { step } => {
            state.set_wish(Wish::Ner(step));
            Ok(())
        }
    }
}
