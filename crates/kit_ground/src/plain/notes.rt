//! What a plain floor notes of its steps. Contracts alone see it.
ghost use Rattle.std.specs.Prelude.{◌≡◌, [], ◌∷◌, ◌++◌};
ghost use Rattle.kit_ground.specs.Floors.{map_at};
ghost use Rattle.kit_ground.specs.Rules.{places_at_first};
ghost use Rattle.kit_ground.specs.Steps.{place_after};

use crate::{Deed, Event, Place, Protocol};
use kit_known::{Known, Reads};
use std::collections::LinkedList;
use std::marker::PhantomData;

/// What the places of a new floor are read off.
#[derive(Drop)]
struct Laying<O> {
    opening: Known<O>,
    federates: u8,
    buffers: u16,
}

struct FirstPlaces<P> {
    of: PhantomData<P>,
}

impl<P: Protocol> Reads<Laying<P::Opening>, LinkedList<Place<P::View>>> for FirstPlaces<P> {
    ghost use Rattle.kit_ground.specs.Rules.{places_at_first};

    ghost read = { λ x. places_at_first (P.first x.opening.value) x.federates x.buffers };
}

/// The places of a new floor.
pub fn first_places<P: Protocol>(
    opening: &Known<P::Opening>,
    federates: u8,
    buffers: u16,
) -> Known<LinkedList<Place<P::View>>>
    ensures { result.value ≡ places_at_first (P.first opening.now.value) federates buffers }
{
    let laying = Laying {
        opening: opening.again(),
        federates,
        buffers,
    };
    Known::of::<Laying<P::Opening>, FirstPlaces<P>>(&laying)
}

struct NoSteps;

impl Reads<(), LinkedList<u64>> for NoSteps {
    ghost use Rattle.std.specs.Prelude.{[]};

    ghost read = { λ _. [] };
}

/// No step was made yet.
pub fn no_steps() -> Known<LinkedList<u64>>
    ensures { result.value ≡ [] }
{
    Known::of::<(), NoSteps>(&())
}

/// What a step is noted on.
#[derive(Drop)]
struct Noting<V> {
    places: Known<LinkedList<Place<V>>>,
    me: u8,
    deed: Deed,
}

struct Notes<E> {
    of: PhantomData<E>,
}

impl<V, E: Event<V>> Reads<Noting<V>, LinkedList<Place<V>>> for Notes<E> {
    ghost use Rattle.kit_ground.specs.Floors.{map_at};
    ghost use Rattle.kit_ground.specs.Steps.{place_after};

    ghost read = { λ x. map_at (place_after E.next x.deed) x.me x.places.value };
}

/// The places after a step of one seat.
pub fn note_step<V, E: Event<V>>(
    places: &Known<LinkedList<Place<V>>>,
    me: u8,
    deed: Deed,
) -> Known<LinkedList<Place<V>>>
    ensures { result.value ≡ map_at (place_after E.next deed) me places.now.value }
{
    let noting = Noting {
        places: places.again(),
        me,
        deed,
    };
    Known::of::<Noting<V>, Notes<E>>(&noting)
}

struct OneMore;

impl Reads<(Known<LinkedList<u64>>, u8), LinkedList<u64>> for OneMore {
    ghost use Rattle.std.specs.Prelude.{[], ◌∷◌, ◌++◌};

    ghost read = { λ x. x.0.value ++ x.1 ∷ [] };
}

/// One step more, of this seat.
pub fn count_step(steps: &Known<LinkedList<u64>>, me: u8) -> Known<LinkedList<u64>>
    ensures { result.value ≡ steps.now.value ++ me ∷ [] }
{
    let both = (steps.again(), me);
    Known::of::<(Known<LinkedList<u64>>, u8), OneMore>(&both)
}
