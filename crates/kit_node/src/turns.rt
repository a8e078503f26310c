//! The list of a node's turns, which clauses alone see.

ghost use Rattle.std.specs.Prelude.{◌≡◌, ◌-◌, [], ◌∷◌, ◌++◌};

use kit_ground::Ground;
use kit_known::{Known, Reads};
use kit_lbts::Lbts;
use std::collections::LinkedList;
use std::marker::PhantomData;

struct NoTurns;

impl Reads<(), LinkedList<u64>> for NoTurns {
    ghost use Rattle.std.specs.Prelude.{[]};

    ghost read = { λ _. [] };
}

/// No turn yet.
pub(crate) fn no_turns() -> Known<LinkedList<u64>>
    ensures { result.value ≡ [] }
{
    Known::of::<(), NoTurns>(&())
}

struct StepsOf<G> {
    of: PhantomData<G>,
}

impl<G: Ground<Under = Lbts>> Reads<G, u64> for StepsOf<G> {
    ghost read = { λ g. (G.place g).own.steps };
}

/// How many steps the seat has made.
pub(crate) fn steps_of<G: Ground<Under = Lbts>>(ground: &G) -> Known<u64>
    ensures { result.value ≡ (G.place ground.now).own.steps }
{
    Known::of::<G, StepsOf<G>>(ground)
}

#[derive(Drop)]
struct Turned {
    turns: Known<LinkedList<u64>>,
    before: Known<u64>,
    after: Known<u64>,
}

struct OneMore;

impl Reads<Turned, LinkedList<u64>> for OneMore {
    ghost use Rattle.std.specs.Prelude.{[], ◌∷◌, ◌++◌, ◌-◌};

    ghost read = { λ t. t.turns.value ++ (t.after.value - t.before.value) ∷ [] };
}

/// The list with one turn more, with the steps between these two moments.
pub(crate) fn with_turn(
    turns: Known<LinkedList<u64>>,
    before: Known<u64>,
    after: Known<u64>,
) -> Known<LinkedList<u64>>
    ensures { result.value ≡ turns.value ++ (after.value - before.value) ∷ [] }
{
    let turned = Turned {
        turns,
        before,
        after,
    };
    Known::of::<Turned, OneMore>(&turned)
}
