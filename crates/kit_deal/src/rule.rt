//! The rule of the queue, and what its calls tell.
ghost use Rattle.std.specs.Prelude.{◌+◌, ◌-◌, ◌≤◌, [], ◌++◌, length};
ghost use Rattle.kit_deal.specs.Dealings.{GivesNumber, HasTheRest, IsDealt, IsOpen, IsWithin};
ghost use Rattle.kit_deal.specs.Dealings.{TakesItem, all_parts, hand};

use crate::{Deal, Hand};
use crossbeam_queue::protocol::{Join, Lesson, Outcome, Protocol, Split};
use crossbeam_queue::{Pass, RuledArrayQueue};
use std::marker::PhantomData;

/// What is dealt is in one place only, and an item that has ended is dealt no more.
pub struct InOnePlace<D> {
    of: PhantomData<D>,
}

impl<D: Deal> Protocol<D::Item, Hand> for InOnePlace<D> {
    ghost holds = { IsDealt D.number (IsOpen D.Fits D.has_ended) D.all };

    ghost first = { hand all_parts D.all };
}

pub(crate) type Queue<D> = RuledArrayQueue<<D as Deal>::Item, Hand, InOnePlace<D>>;

pub(crate) type Token<D> = Pass<<D as Deal>::Item, Hand>;

/// An empty hand is made, with one part.
pub(crate) struct Another;

impl Split<Hand> for Another {
    ghost left = { λ v. hand (v.parts - 1) v.held };

    ghost right = { λ v. hand 1 [] };
}

/// A hand takes in all that another holds.
pub(crate) struct Together;

impl Join<Hand> for Together {
    ghost both = { λ v w. hand (v.parts + w.parts) (v.held ++ w.held) };

    ghost spent = { hand 0 [] };
}

/// An item leaves a hand for the queue.
pub(crate) struct Gives<D> {
    of: PhantomData<D>,
}

impl<D: Deal> Outcome<D::Item, Hand> for Gives<D> {
    ghost then = { λ v x w. GivesNumber v (D.number x) w };
}

impl<D: Deal> Lesson<D::Item, Hand> for Gives<D> {
    ghost fact = { λ v items. IsWithin D.all v items };
}

/// An item comes from the queue into a hand.
pub(crate) struct Takes<D> {
    of: PhantomData<D>,
}

impl<D: Deal> Outcome<D::Item, Hand> for Takes<D> {
    ghost then = { λ v x w. TakesItem D.number (IsOpen D.Fits D.has_ended) D.all v x w };
}

impl<D: Deal> Lesson<D::Item, Hand> for Takes<D> {
    ghost fact = { λ v items. HasTheRest D.number D.all v items };
}

/// What a hand holds is no more than is dealt.
pub(crate) struct Within<D> {
    of: PhantomData<D>,
}

impl<D: Deal> Lesson<D::Item, Hand> for Within<D> {
    ghost fact = { λ v items. length v.held ≤ length D.all };
}
