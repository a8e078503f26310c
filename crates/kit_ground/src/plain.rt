//! A floor that one value has whole.
ghost use Rattle.std.specs.Prelude.{◌≡◌, ◌<◌, ◌≤◌, length, replicate, IfOk};
ghost use Rattle.kit_ground.specs.Layout.{size_of};

mod notes;
mod seat;

use crate::{Address, Deed, Event, Place, Protocol};
use kit_known::Known;
use notes::{count_step, first_places, no_steps, note_step};
use std::alloc::{AllocError, Global};
use std::collections::LinkedList;
use std::marker::Model;

/// A floor that one value has whole, and the seat of one of its federates.
///
/// Its type keeps the floor's own rule and the client's rule at every moment. It has no guests.
#[derive(Drop)]
pub struct PlainFloor<P: Protocol> {
    words: Vec<u64>,
    federates: u8,
    buffers: u16,
    seated: u8,
    opening: Known<P::Opening>,
    places: Known<LinkedList<Place<P::View>>>,
    steps: Known<LinkedList<u64>>,
}

impl<P: Protocol> Model for PlainFloor<P> {
    ghost use Rattle.std.specs.Prelude.{◌≡◌, length};
    ghost use Rattle.kit_ground.specs.Floors.{Floor, RulesHold};

    ghost Value = { Floor P.Opening P.View };

    ghost view = { λ f. record {
      opening = f.opening.value;
      buffers = f.buffers;
      words = f.words.items;
      places = f.places.value;
      seated = f.seated;
      steps = f.steps.value;
    } };

    ghost invariant = { λ f. RulesHold P.rule
        (record {
          opening = f.opening.value;
          buffers = f.buffers;
          words = f.words.items;
          places = f.places.value;
          seated = f.seated;
          steps = f.steps.value;
        })
        × (f.federates ≡ length f.places.value) };
}

impl<P: Protocol> PlainFloor<P> {
    ghost use Rattle.std.specs.Prelude.{◌≡◌, ◌≤◌, ◌<◌, ℕ, true, length, IfOk};
    ghost use Rattle.kit_ground.specs.Coming.{AreSteps, IsOneStep};
    ghost use Rattle.kit_ground.specs.Floors.{RulesHold, memory, new_floor, place_of, floor_after};
    ghost use Rattle.kit_ground.specs.Layout.{index_of, is_there};
    ghost use Rattle.kit_ground.specs.Rules.{Keeps, WasFound, zero_memory, places_at_first};
    ghost use Rattle.kit_ground.specs.Steps.{Allowed, address_of, place_after, with_found};

    /// A floor whose words are 0, with the client's opening. The first federate is seated.
    ///
    /// It fails only for want of memory.
    pub fn new(
        alloc: Global,
        federates: u8,
        buffers: u16,
        opening: &Known<P::Opening>,
    ) -> Result<PlainFloor<P>, AllocError>
        requires federates { (1 ≤ federates) × (federates ≤ 16) }
        requires buffers { (1 ≤ buffers) × (buffers ≤ 1024) }
        requires rule { P.rule.holds zero_memory
            (places_at_first (P.first opening.now.value) federates buffers) }
        ensures { IfOk result (λ f. f ≡ new_floor P.first opening.now.value federates buffers) }
    {
        let words = zeros(alloc, federates, buffers)?;
        let places = first_places::<P>(opening, federates, buffers);
        Ok(PlainFloor {
            words,
            federates,
            buffers,
            seated: 0,
            opening: opening.again(),
            places,
            steps: no_steps(),
        })
    }

    /// Seats another federate: the steps that follow are its steps.
    pub fn seat(&mut self, federate: u8)
        requires { federate < length self.old.places }
        ensures seated { self.new ≡ record self.old { seated = federate } }
        ensures ruled { RulesHold P.rule self.new }
    {
        self.seated = federate;
    }

    /// Both rules hold, at every moment.
    pub fn ruled(&self)
        ensures { RulesHold P.rule self.now }
    {
        let _ = &self.words;
    }

    /// The federate that is seated, how many there are, and how many buffers each has.
    #[inline(always)]
    fn sizes(&self) -> (u8, u8, u16)
        ensures seated { result.0 ≡ self.now.seated }
        ensures federates { result.1 ≡ length self.now.places }
        ensures buffers { result.2 ≡ self.now.buffers }
        ensures ruled { RulesHold P.rule self.now }
    {
        (self.seated, self.federates, self.buffers)
    }

    #[inline(always)]
    fn index(&self, address: Address) -> usize
        requires { is_there (length self.now.places) self.now.buffers address ≡ true }
        ensures index { result ≡ index_of (length self.now.places) self.now.buffers address }
        ensures inside { result < length self.now.words }
    {
        let (_, federates, buffers) = self.sizes();
        address.index(federates, buffers)
    }

    #[inline(always)]
    fn load(&self, address: Address) -> u64
        requires { is_there (length self.now.places) self.now.buffers address ≡ true }
        ensures { result ≡ memory self.now address }
    {
        self.words[self.index(address)]
    }

    /// A step of the seat that is seated, on the word `at`, which becomes `word`.
    #[inline(always)]
    fn act<E: Event<P::View>>(&mut self, at: usize, word: u64, deed: Deed)
        requires inside { at < length self.old.words }
        requires kept { RulesHold P.rule (floor_after at word (place_after E.next deed) self.old) }
        ensures { self.new ≡ floor_after at word (place_after E.next deed) self.old }
    {
        let me = self.seated;
        self.words[at] = word;
        self.places = note_step::<P::View, E>(&self.places, me, deed);
        self.steps = count_step(&self.steps, me);
    }

    /// A step of the seat that is seated, whatever word it finds. It gives that word.
    #[inline(always)]
    fn step<E: Event<P::View>>(&mut self, about: Deed) -> u64
        requires allowed { (found : ℕ) → Allowed (place_of P.first self.old).own
            (with_found about found) found }
        requires keeps { let p = place_of P.first self.old in
            Keeps P.rule E.next p (address_of p.own about) (with_found about) }
        ensures came { AreSteps P.first self.old self.new }
        ensures did { IsOneStep P.first self.old (with_found about result) self.new }
        ensures place { place_of P.first self.new
            ≡ place_after E.next (with_found about result) (place_of P.first self.old) }
        ensures told { let p = place_of P.first self.old in
            WasFound P.rule p (address_of p.own about) result }
    {
        let (me, _, _) = self.sizes();
        let address = about.address(me);
        let found = self.load(address);
        let deed = about.finding(found);
        let at = self.index(address);
        self.act::<E>(at, deed.stored(found), deed);
        found
    }
}

#[tactic(auto, unfolding(crate::specs::Layout::mail_words))]
/// The words of a new floor: each is 0, and there are some.
///
/// It fails only for want of memory.
pub fn zeros(alloc: Global, federates: u8, buffers: u16) -> Result<Vec<u64>, AllocError>
    requires few { federates ≤ 16 }
    requires small { buffers ≤ 1024 }
    ensures all { IfOk result (λ words. words.items ≡ replicate (size_of federates buffers) 0) }
    ensures some { IfOk result (λ words. 0 < length words.items) }
{
    let n = usize::from(federates);
    let b = usize::from(buffers);
    let mut words = Vec::new(alloc);
    let m = (b + 63) / 64;
    words.resize(13 * n + 1 + m * (n * n) + b * n + b * n * 2, 0)?;
    Ok(words)
}

#[cfg(test)]
mod tests;
