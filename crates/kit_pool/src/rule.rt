//! The rule of a table whose seats are those of federates and of guests, and what its steps tell.
use atomic_table::{Join, Play, Split, Table, TableRule};
use kit_ground::{Event, Place, Protocol};
use kit_known::Known;
use std::alloc::Global;
use std::collections::LinkedList;
use std::marker::{Brand, PhantomData};

/// What the table is told when it is made.
#[derive(Drop)]
pub struct Laid<O> {
    pub federates: u8,
    pub buffers: u16,
    pub guests: u8,
    pub opening: Known<O>,
}

/// The words that stand before the first word of the table, where it has not all words of a floor.
/// They never change.
pub trait Front {
    ghost use Rattle.std.specs.Prelude.{ℕ, List};

    ghost front: { ℕ → List ℕ };
}

/// The floor's own rule and the client's, and what the client asks of each guest.
pub struct SeatingRule<P, F> {
    of: PhantomData<(P, F)>,
}

impl<P: Protocol, F: Front> TableRule<(), LinkedList<Place<P::View>>, Laid<P::Opening>>
    for SeatingRule<P, F> {
    ghost use Rattle.std.specs.Prelude.{◌+◌};
    ghost use Rattle.kit_ground.specs.Rules.{places_from};
    ghost use Rattle.kit_pool.specs.Seating.{TableHolds};

    ghost holds = { λ k s. TableHolds P.rule k.federates k.buffers
        (F.front k.federates) s.words s.views };

    ghost first = { λ k. places_from (P.first k.opening.value) k.federates k.buffers 0
        (k.federates + k.guests) };
}

/// A table under both rules, whose words stand behind those in front.
pub type SeatingTable<P, F> = Table<
    (),
    LinkedList<Place<<P as Protocol>::View>>,
    Laid<<P as Protocol>::Opening>,
    SeatingRule<P, F>,
    Global,
>;

/// What a step does, by the word that it finds. Each call picks it.
pub trait Plan {
    ghost use Rattle.std.specs.Prelude.{ℕ};
    ghost use Rattle.kit_ground.specs.declared.place.Deed.{Deed};

    ghost deed: { ℕ → Deed };
}

impl Plan for Brand {
    ghost use Rattle.kit_ground.specs.declared.place.Deed.TheVariants.{Stopped};

    ghost deed = { λ _. Stopped };
}

/// A step that tells the word that it found.
pub struct Finds<P, E, D> {
    of: PhantomData<(P, E, D)>,
}

impl<P: Protocol, E: Event<P::View>, D: Plan> Play<(), LinkedList<Place<P::View>>>
    for Finds<P, E, D> {
    ghost use Rattle.kit_pool.specs.Seating.{FindingIsTold};

    ghost then = { λ s me n after. FindingIsTold P.rule E.next D.deed me n after };
}

/// A load that is the step where it finds 0, and no step where it finds another word.
pub struct FindsZero<P, E, D> {
    of: PhantomData<(P, E, D)>,
}

impl<P: Protocol, E: Event<P::View>, D: Plan> Play<(), LinkedList<Place<P::View>>>
    for FindsZero<P, E, D> {
    ghost use Rattle.kit_pool.specs.Seating.{ZeroIsTold};

    ghost then = { λ s me n after. ZeroIsTold P.rule E.next D.deed me n after };
}

/// A guest's look, which tells the word that it found.
pub struct Sees<P, E, D> {
    of: PhantomData<(P, E, D)>,
}

impl<P: Protocol, E: Event<P::View>, D: Plan> Play<(), LinkedList<Place<P::View>>>
    for Sees<P, E, D> {
    ghost use Rattle.kit_pool.specs.Watching.{LookIsTold};

    ghost then = { λ s me n after. LookIsTold P.rule E.next D.deed me n after };
}

/// A store, which does not tell it.
pub struct Stores<P, E, D> {
    of: PhantomData<(P, E, D)>,
}

impl<P: Protocol, E: Event<P::View>, D: Plan> Play<(), LinkedList<Place<P::View>>>
    for Stores<P, E, D> {
    ghost use Rattle.kit_pool.specs.Seating.{StoreIsTold};

    ghost then = { λ s me n after. StoreIsTold P.rule E.next D.deed me n after };
}

/// A seat that has the places of several federates gives the first away, and one that takes another
/// seat in has its own first.
pub struct OwnFirst;

impl<V> Split<LinkedList<Place<V>>> for OwnFirst {
    ghost use Rattle.kit_pool.specs.Seating.{own_of, others_of};

    ghost left = { others_of };

    ghost right = { own_of };
}

impl<V> Join<LinkedList<Place<V>>> for OwnFirst {
    ghost use Rattle.std.specs.Prelude.{[], ◌++◌};

    ghost both = { λ d e. d ++ e };

    ghost spent = { [] };
}
