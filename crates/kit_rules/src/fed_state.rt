ghost use Rattle.std.specs.Prelude.{◌≡◌, ℕ, true, false, ◌<◌, ◌≤◌, ◌+◌, [], ◌∷◌, ◌++◌, length};
ghost use Rattle.std.specs.Prelude.{take, drop, slice_index, slice_set, OnOk, OnErr, IfOk, All};
ghost use Rattle.std.specs.List.{list_any};
ghost use Rattle.kit_rules.specs.Limits.{most_time, most_vars};
ghost use Rattle.kit_rules.specs.Own.{own_events, restored_state, IsNumberedBelow};
ghost use Rattle.kit_rules.specs.Parts.{federate_at};
ghost use Rattle.kit_rules.specs.Running.{ComesTo};
ghost use Rattle.kit_rules.specs.Step.{is_event, takes_back, after_action, after_rules, CanRun};
ghost use Rattle.kit_rules.specs.Step.{opening_state, opening_vars};

use crate::marks::target;
use crate::own::{own_events, restored_sends};
use crate::running::apply_rules;
use crate::{Action, ApplyEnd, Federation, Own, Rule, Scene, State, Trigger, Var, Wish};
use kit_base::{Items, Kind, Message};
use std::alloc::{AllocError, Global};
use std::marker::Model;

/// The state of a federate, which contracts see as a [`State`]: its variables, wish, next number
/// and sends. Send `k`, counted from 0, has number `k + 1`.
#[derive(Debug, Drop)]
pub struct FedState {
    state: State,
    /// For the number of each send, at its place, the number of the Retraction that names it. Where
    /// none does a mark may be any number, so a refused step need not be undone here.
    marks: Vec<u16>,
}

impl Model for FedState {
    ghost use Rattle.kit_rules.specs.declared.scene.State.{State};

    ghost Value = { State };

    ghost view = { λ s. s.state };

    ghost use Rattle.kit_rules.specs.Step.{IsCounted, AreMarked};

    ghost invariant = { λ s. IsCounted s.state × AreMarked s.state.sends s.marks.items };
}

impl FedState {
    /// The state before anything ran: the variables and the wish of the table, and no sends. It
    /// takes no memory.
    pub fn new(alloc: Global, federation: &Federation, federate: u8) -> FedState
        requires { federate < length federation.now.federates }
        ensures { result ≡ opening_state (federate_at federation.now federate) }
    {
        let federate = federation.federate(federate);
        FedState {
            state: State {
                vars: opening_values(federate.vars.as_slice()),
                wish: federate.advance,
                next: 1,
                sends: Items::new(alloc),
            },
            marks: Vec::new(alloc),
        }
    }

    /// The state of a federate with these values, of whose sends below `next` these Events alone are
    /// known: a Retraction can name no other. It fails only for want of memory.
    pub fn restored(
        alloc: Global,
        federate: u8,
        vars: [u32; 8],
        wish: Wish,
        next: u16,
        own: &[Own],
    ) -> Result<FedState, AllocError>
        requires low { 1 ≤ next }
        requires high { next ≤ 16385 }
        requires numbers { All (IsNumberedBelow next) own.now }
        ensures { IfOk result (λ state. state ≡ restored_state federate vars wish next own.now) }
    {
        let sends = restored_sends(alloc, federate, next, own)?;
        let mut marks = Vec::new(alloc);
        marks.resize(sends.len(), 0)?;
        let sends = Items::from_vec(sends);
        let state = State {
            vars,
            wish,
            next,
            sends,
        };
        Ok(FedState { state, marks })
    }

    /// The Events that it sent and no Retraction names, in the order of their numbers. It fails only
    /// for want of memory.
    pub fn own(&self, alloc: Global) -> Result<Items<Own>, AllocError>
        ensures { IfOk result (λ own. own ≡ own_events self.now.sends) }
    {
        own_events(alloc, self.state.sends.as_slice(), self.marks.as_slice())
    }

    /// The values of the variables, in the order of the table, and 0 in the places that are left.
    pub fn vars(&self) -> [u32; 8]
        ensures { result ≡ self.now.vars }
    {
        self.state.vars
    }

    /// How the federate asks to advance.
    pub fn wish(&self) -> Wish
        ensures { result ≡ self.now.wish }
    {
        self.state.wish
    }

    /// The number that the next message gets: one more than were sent.
    pub fn next(&self) -> u16
        ensures next { result ≡ self.now.next }
        ensures counted { self.now.next ≡ length self.now.sends + 1 }
        ensures room { self.now.next ≤ 16385 }
    {
        self.state.next
    }

    /// Does nothing: it says that the next number is one more than were sent, and no more than
    /// 16,385.
    pub fn keeps_its_count(&self)
        ensures counted { self.now.next ≡ length self.now.sends + 1 }
        ensures room { self.now.next ≤ 16385 }
    {
        // To read a field is to learn the count.
        let _next = self.state.next;
    }

    /// All that was sent, in the order of the numbers.
    pub fn sends(&self) -> &[Message]
        ensures sends { result.now ≡ self.now.sends }
        ensures few { length self.now.sends ≤ 16384 }
    {
        self.state.sends.as_slice()
    }

    /// Gives a variable a value.
    pub(crate) fn set_var(&mut self, var: u8, value: u32)
        requires { var < most_vars }
        ensures { self.new ≡ record self.old { vars = slice_set self.old.vars var value } }
    {
        self.state.vars[var as usize] = value;
    }

    /// Says how to ask for time from now on.
    pub(crate) fn set_wish(&mut self, wish: Wish)
        ensures { self.new ≡ record self.old { wish = wish } }
    {
        self.state.wish = wish;
    }

    /// Adds an Event under the next number.
    pub(crate) fn add_event(&mut self, message: Message) -> Result<(), ApplyEnd>
        requires event { is_event message.kind ≡ true }
        requires number { message.number ≡ self.old.next }
        ensures ok { OnOk result (self.new
            ≡ record self.old { next = self.old.next + 1; sends = self.old.sends ++ message ∷ [] }) }
        ensures err { OnErr result (self.new ≡ self.old) }
        ensures spent { result ≡ Err ApplyEnd.SendsSpent → 16384 < self.old.next }
        ensures room { OnOk result (self.old.next ≤ 16384) }
    {
        emit(&mut self.state, &mut self.marks, message)?;
        Ok(())
    }

    /// Adds a Retraction under the next number, and marks the number that it names.
    fn add_retraction(&mut self, message: Message) -> Result<(), ApplyEnd>
        requires number { message.number ≡ self.old.next }
        requires low { 1 ≤ message.value }
        requires high { message.value ≤ length self.old.sends }
        requires first { list_any (takes_back message.value) self.old.sends ≡ false }
        ensures ok { OnOk result (self.new
            ≡ record self.old { next = self.old.next + 1; sends = self.old.sends ++ message ∷ [] }) }
        ensures err { OnErr result (self.new ≡ self.old) }
        ensures spent { result ≡ Err ApplyEnd.SendsSpent → 16384 < self.old.next }
        ensures room { OnOk result (self.old.next ≤ 16384) }
    {
        emit(&mut self.state, &mut self.marks, message)?;
        self.marks[message.value as usize - 1] = message.number;
        Ok(())
    }

    /// Takes back the own Event whose number a variable has, where that may still be done.
    pub(crate) fn retract(&mut self, scene: &Scene, var: u8) -> Result<(), ApplyEnd>
        requires time { scene.now.time ≤ most_time }
        requires fits { var < most_vars }
        ensures ok { OnOk result (self.new ≡ after_action scene.now self.old (Action.Retract var)) }
        ensures err { OnErr result (self.new ≡ self.old) }
        ensures spent { result ≡ Err ApplyEnd.SendsSpent
            → 16385 < (after_action scene.now self.old (Action.Retract var)).next }
        ensures room { OnOk result (self.old.next ≤ 16385 → self.new.next ≤ 16385) }
    {
        let number = self.state.vars[var as usize];
        match target(
            scene,
            self.state.sends.as_slice(),
            self.marks.as_slice(),
            number,
        ) {
            None => Ok(()),
            Some(m) => self.add_retraction(Message {
                time: m.time,
                sender: scene.sender,
                number: self.state.next,
                kind: Kind::Retraction,
                group: m.group,
                value: m.number as u32,
            }),
        }
    }

    /// Runs the rules of a trigger and adds what they send to `sends`, or leaves both as they were.
    pub(crate) fn run(
        &mut self,
        scene: &Scene,
        on: Trigger,
        rules: &[Rule],
        sends: &mut Vec<Message>,
    ) -> Result<(), ApplyEnd>
        requires time { scene.now.time ≤ most_time }
        requires rules { All (CanRun scene.now.lookahead) rules.now }
        ensures comes { ComesTo (after_rules scene.now on self.old rules.now)
            self.old self.new result }
        ensures sends { OnOk result (sends.new.items ≡
            sends.old.items ++ drop (length self.old.sends) self.new.sends) }
        ensures unchanged { OnErr result
            ((self.new ≡ self.old) × (sends.new.items ≡ sends.old.items)) }
    {
        let vars = self.state.vars;
        let wish = self.state.wish;
        let next = self.state.next;
        let kept = self.state.sends.len();
        match run_rules(scene, on, self, rules, kept, sends) {
            Ok(()) => Ok(()),
            Err(end) => {
                self.state.vars = vars;
                self.state.wish = wish;
                self.state.next = next;
                self.state.sends.truncate(kept);
                Err(end)
            }
        }
    }
}

/// Adds a message if a number is left, and sees that there is a mark for its number.
fn emit(state: &mut State, marks: &mut Vec<u16>, message: Message) -> Result<(), ApplyEnd>
    requires { length state.old.sends ≤ length marks.old.items }
    ensures ok { OnOk result (state.new
        ≡ record state.old { next = state.old.next + 1; sends = state.old.sends ++ message ∷ [] }) }
    ensures err { OnErr result (state.new ≡ state.old) }
    ensures longer { length marks.old.items ≤ length marks.new.items }
    ensures marked { OnOk result (length state.new.sends ≤ length marks.new.items) }
    ensures same { (k : ℕ) → slice_index marks.new.items k ≡ slice_index marks.old.items k }
    ensures spent { result ≡ Err ApplyEnd.SendsSpent → 16384 < state.old.next }
    ensures room { OnOk result (state.old.next ≤ 16384) }
{
    if state.next > 16_384 {
        return Err(ApplyEnd::SendsSpent);
    }
    if marks.len() == state.sends.len() {
        marks.push(0)?;
    }
    state.sends.push(message)?;
    state.next += 1;
    Ok(())
}

/// Runs the rules of a trigger and adds what they send, beyond the sends that are kept, to `sends`.
fn run_rules(
    scene: &Scene,
    on: Trigger,
    state: &mut FedState,
    rules: &[Rule],
    kept: usize,
    sends: &mut Vec<Message>,
) -> Result<(), ApplyEnd>
    requires time { scene.now.time ≤ most_time }
    requires rules { All (CanRun scene.now.lookahead) rules.now }
    requires room { state.old.next ≤ 16385 }
    requires kept { kept ≡ length state.old.sends }
    ensures comes { ComesTo (after_rules scene.now on state.old rules.now)
        state.old state.new result }
    ensures sends { OnOk result (sends.new.items ≡ sends.old.items ++ drop kept state.new.sends) }
    ensures unchanged { OnErr result (sends.new.items ≡ sends.old.items) }
{
    apply_rules(scene, on, state, rules)?;
    sends.extend_from_slice(&state.sends()[kept..])?;
    Ok(())
}

/// The values of the variables before anything ran, and 0 in the places that are left.
fn opening_values(vars: &[Var]) -> [u32; 8]
    requires { length vars.now ≤ most_vars }
    ensures { result ≡ opening_vars vars.now }
{
    let mut values = [0; 8];
    for (i, var) in vars.iter().enumerate() {
        values[i] = var.value;
    }
    values
}
