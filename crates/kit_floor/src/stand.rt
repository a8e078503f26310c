//! A seat that stands on its floor.
ghost use Rattle.kit_floor.specs.FloorViews.{CanStand};

use crate::{TableFloor, Whole};
use kit_ground::{Address, Deed, Event, Ground, Protocol, Reg, mail_bit, mail_word};
use kit_pool::{TableSeat, readers};
use std::marker::Brand;

/// A seat that stands on its floor.
#[derive(Drop)]
pub struct FloorGround<'a, P: Protocol> {
    pub(crate) floor: &'a TableFloor<P>,
    pub(crate) seat: TableSeat<P>,
    ghost stands: { CanStand floor.now seat },
}

impl<P: Protocol> FloorGround<'_, P> {
    ghost use Rattle.std.specs.Prelude.{◌≡◌};
    ghost use Rattle.kit_floor.specs.FloorViews.{CanStand};

    /// Gives the seat back.
    pub fn leave(self) -> TableSeat<P>
        ensures seat { result ≡ self.entry.seat }
        ensures stands { CanStand self.entry.floor.now result }
    {
        let FloorGround { floor: _, seat } = self;
        seat
    }
}

impl<P: Protocol> Ground for FloorGround<'_, P> {
    ghost use Rattle.kit_pool.specs.Doing.{WasAllowedStep};
    ghost use Rattle.kit_floor.specs.FloorViews.{place_of};
    ghost use Rattle.kit_floor.specs.Joining.{came_here, came_later, came_on, came_same};
    ghost use Rattle.kit_floor.specs.Standing.{AreStepsOfSeat};

    type Under = P;

    ghost place = { λ g. place_of P.first g.floor.now g.seat };

    ghost did = { λ g deed h. WasAllowedStep P.rule (place_of P.first g.floor.now g.seat) deed
        (place_of P.first h.floor.now h.seat) };

    ghost came = { λ g h. AreStepsOfSeat g.floor.now g.seat.number
        (place_of P.first g.floor.now g.seat) h.floor.now h.seat.number
        (place_of P.first h.floor.now h.seat) };

    fn me(&self) -> u8 {
        self.seat.number()
    }

    fn federates(&self) -> u8 {
        self.seat.federates()
    }

    fn buffers(&self) -> u16 {
        self.seat.buffers()
    }

    fn look<E: Event<P::View>>(&mut self, reg: Reg) -> u64 {
        let floor = self.floor;
        let seat = &mut self.seat;
        let address = Address::Register(reg);
        let at = address.index(seat.federates(), seat.buffers());
        let about = Deed::Looked { reg, word: 0 };
        seat.load::<Whole, Brand, E>(&floor.table, at, address, about)
    }

    fn publish<E: Event<P::View>>(&mut self, reg: Reg, word: u64) {
        let floor = self.floor;
        let seat = &mut self.seat;
        let address = Address::Register(reg);
        let at = address.index(seat.federates(), seat.buffers());
        let about = Deed::Published { reg, word };
        seat.store::<Whole, Brand, E>(&floor.table, at, word, address, about);
    }

    fn stop<E: Event<P::View>>(&mut self) {
        let floor = self.floor;
        let seat = &mut self.seat;
        let address = Address::Stop;
        let at = address.index(seat.federates(), seat.buffers());
        let about = Deed::Stopped;
        seat.store::<Whole, Brand, E>(&floor.table, at, 1, address, about);
    }

    fn stopped<E: Event<P::View>>(&mut self) -> bool {
        let floor = self.floor;
        let seat = &mut self.seat;
        let address = Address::Stop;
        let at = address.index(seat.federates(), seat.buffers());
        let about = Deed::SawStop { set: true };
        seat.load::<Whole, Brand, E>(&floor.table, at, address, about) == 1
    }

    fn look_free<E: Event<P::View>>(&mut self, buffer: u16) -> bool {
        let floor = self.floor;
        let seat = &mut self.seat;
        let owner = seat.number();
        let address = Address::Count { owner, buffer };
        let at = address.index(seat.federates(), seat.buffers());
        let about = Deed::SawFree { buffer, free: true };
        seat.load::<Whole, Brand, E>(&floor.table, at, address, about) == 0
    }

    fn write_part<E: Event<P::View>>(&mut self, buffer: u16, part: u8, word: u64) {
        let floor = self.floor;
        let seat = &mut self.seat;
        let owner = seat.number();
        let address = Address::Part {
            owner,
            buffer,
            part,
        };
        let at = address.index(seat.federates(), seat.buffers());
        let about = Deed::Wrote { buffer, part, word };
        seat.store::<Whole, Brand, E>(&floor.table, at, word, address, about);
    }

    fn charge<E: Event<P::View>>(&mut self, buffer: u16, mask: u16) {
        let floor = self.floor;
        let seat = &mut self.seat;
        let owner = seat.number();
        let more = readers(mask);
        let address = Address::Count { owner, buffer };
        let at = address.index(seat.federates(), seat.buffers());
        let about = Deed::Charged { buffer, mask };
        seat.add::<Whole, Brand, E>(&floor.table, at, more, address, about);
    }

    fn post<E: Event<P::View>>(&mut self, buffer: u16, to: u8) {
        let floor = self.floor;
        let seat = &mut self.seat;
        let from = seat.number();
        let word = mail_word(buffer);
        let bits = mail_bit(buffer);
        let address = Address::Mail { to, from, word };
        let at = address.index(seat.federates(), seat.buffers());
        let about = Deed::PostedTo { buffer, to };
        seat.join_bit::<Whole, Brand, E>(&floor.table, at, bits, address, about);
    }

    fn collect<E: Event<P::View>>(&mut self, from: u8, word: u8) -> u64 {
        let floor = self.floor;
        let seat = &mut self.seat;
        let to = seat.number();
        let address = Address::Mail { to, from, word };
        let at = address.index(seat.federates(), seat.buffers());
        let about = Deed::Collected {
            from,
            word,
            mail: 0,
        };
        seat.swap::<Whole, Brand, E>(&floor.table, at, address, about)
    }

    fn read_part<E: Event<P::View>>(&mut self, from: u8, buffer: u16, part: u8) -> u64 {
        let floor = self.floor;
        let seat = &mut self.seat;
        let address = Address::Part {
            owner: from,
            buffer,
            part,
        };
        let at = address.index(seat.federates(), seat.buffers());
        let about = Deed::ReadPart {
            from,
            buffer,
            part,
            word: 0,
        };
        seat.load::<Whole, Brand, E>(&floor.table, at, address, about)
    }

    fn release<E: Event<P::View>>(&mut self, from: u8, buffer: u16) {
        let floor = self.floor;
        let seat = &mut self.seat;
        let address = Address::Count {
            owner: from,
            buffer,
        };
        let at = address.index(seat.federates(), seat.buffers());
        let about = Deed::Released { from, buffer };
        seat.take_one::<Whole, Brand, E>(&floor.table, at, address, about);
    }

    ghost came_here = { λ g. came_here g.floor.now g.seat.number
        (place_of P.first g.floor.now g.seat) };

    ghost came_on = { λ g h k a b.
        came_on g.floor.now g.seat.number _ h.floor.now h.seat.number _ k.floor.now k.seat.number _
        a b };

    ghost came_same = { λ g h a. came_same g.floor.now g.seat.number _ h.floor.now h.seat.number _ a };

    ghost came_later = { λ g h a. came_later g.floor.now g.seat.number _ h.floor.now h.seat.number _
        a };
}
