//! The seat of a plain floor: each call is its step, on the word that the deed names.
use crate::{Deed, Event, Ground, PlainFloor, Protocol, Reg};

impl<P: Protocol> Ground for PlainFloor<P> {
    ghost use Rattle.kit_ground.specs.Coming.{AreSteps, IsOneStep};
    ghost use Rattle.kit_ground.specs.Floors.{place_of};
    ghost use Rattle.kit_ground.specs.Joining.{came_here, came_later, came_on, came_same};

    type Under = P;

    ghost place = { λ f. place_of P.first f };

    ghost did = { IsOneStep P.first };

    ghost came = { AreSteps P.first };

    fn me(&self) -> u8 {
        self.sizes().0
    }

    fn federates(&self) -> u8 {
        self.sizes().1
    }

    fn buffers(&self) -> u16 {
        self.sizes().2
    }

    fn look<E: Event<P::View>>(&mut self, reg: Reg) -> u64 {
        self.step::<E>(Deed::Looked { reg, word: 0 })
    }

    fn publish<E: Event<P::View>>(&mut self, reg: Reg, word: u64) {
        self.step::<E>(Deed::Published { reg, word });
    }

    fn stop<E: Event<P::View>>(&mut self) {
        self.step::<E>(Deed::Stopped);
    }

    fn stopped<E: Event<P::View>>(&mut self) -> bool {
        self.step::<E>(Deed::SawStop { set: false }) == 1
    }

    fn look_free<E: Event<P::View>>(&mut self, buffer: u16) -> bool {
        let free = false;
        self.step::<E>(Deed::SawFree { buffer, free }) == 0
    }

    fn write_part<E: Event<P::View>>(&mut self, buffer: u16, part: u8, word: u64) {
        self.step::<E>(Deed::Wrote { buffer, part, word });
    }

    fn charge<E: Event<P::View>>(&mut self, buffer: u16, mask: u16) {
        self.step::<E>(Deed::Charged { buffer, mask });
    }

    fn post<E: Event<P::View>>(&mut self, buffer: u16, to: u8) {
        self.step::<E>(Deed::PostedTo { buffer, to });
    }

    fn collect<E: Event<P::View>>(&mut self, from: u8, word: u8) -> u64 {
        let mail = 0;
        self.step::<E>(Deed::Collected { from, word, mail })
    }

    fn read_part<E: Event<P::View>>(&mut self, from: u8, buffer: u16, part: u8) -> u64 {
        let about = Deed::ReadPart {
            from,
            buffer,
            part,
            word: 0,
        };
        self.step::<E>(about)
    }

    fn release<E: Event<P::View>>(&mut self, from: u8, buffer: u16) {
        self.step::<E>(Deed::Released { from, buffer });
    }

    ghost came_here = { came_here P.first };

    ghost came_on = { came_on P.first };

    ghost came_same = { came_same P.first };

    ghost came_later = { came_later P.first };
}
