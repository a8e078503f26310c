//! The ground that passes steps through a gate.
ghost use Rattle.std.specs.Prelude.{◌≡◌};

use kit_deal::Gate;
use kit_ground::{Event, Ground, Protocol, Reg};

/// A ground that calls `step` of a gate right before each call that is a step: each but `me`,
/// `federates` and `buffers`. It is the same seat, and takes the same steps, as the ground that it
/// has.
pub struct PassingGround<'a, H, G> {
    ground: H,
    gate: &'a G,
}

impl<'a, H: Ground, G: Gate> PassingGround<'a, H, G> {
    /// The ground, with a gate in front of it.
    pub fn new(ground: H, gate: &'a G) -> PassingGround<'a, H, G>
        ensures { result.ground ≡ ground }
    {
        PassingGround { ground, gate }
    }

    /// Gives the ground back.
    pub fn leave(self) -> H
        ensures { result ≡ self.entry.ground }
    {
        let PassingGround { ground, gate: _ } = self;
        ground
    }

    fn step(&self) {
        self.gate.step(self.ground.me());
    }
}

impl<H: Ground, G: Gate> Ground for PassingGround<'_, H, G> {
    type Under = H::Under;

    ghost place = { λ g. H.place g.ground };

    ghost did = { λ g deed h. H.did g.ground deed h.ground };

    ghost came = { λ g h. H.came g.ground h.ground };

    fn me(&self) -> u8 {
        self.ground.me()
    }

    fn federates(&self) -> u8 {
        self.ground.federates()
    }

    fn buffers(&self) -> u16 {
        self.ground.buffers()
    }

    fn look<E: Event<<H::Under as Protocol>::View>>(&mut self, reg: Reg) -> u64 {
        self.step();
        self.ground.look::<E>(reg)
    }

    fn publish<E: Event<<H::Under as Protocol>::View>>(&mut self, reg: Reg, word: u64) {
        self.step();
        self.ground.publish::<E>(reg, word);
    }

    fn stop<E: Event<<H::Under as Protocol>::View>>(&mut self) {
        self.step();
        self.ground.stop::<E>();
    }

    fn stopped<E: Event<<H::Under as Protocol>::View>>(&mut self) -> bool {
        self.step();
        self.ground.stopped::<E>()
    }

    fn look_free<E: Event<<H::Under as Protocol>::View>>(&mut self, buffer: u16) -> bool {
        self.step();
        self.ground.look_free::<E>(buffer)
    }

    fn write_part<E: Event<<H::Under as Protocol>::View>>(
        &mut self,
        buffer: u16,
        part: u8,
        word: u64,
    ) {
        self.step();
        self.ground.write_part::<E>(buffer, part, word);
    }

    fn charge<E: Event<<H::Under as Protocol>::View>>(&mut self, buffer: u16, mask: u16) {
        self.step();
        self.ground.charge::<E>(buffer, mask);
    }

    fn post<E: Event<<H::Under as Protocol>::View>>(&mut self, buffer: u16, to: u8) {
        self.step();
        self.ground.post::<E>(buffer, to);
    }

    fn collect<E: Event<<H::Under as Protocol>::View>>(&mut self, from: u8, word: u8) -> u64 {
        self.step();
        self.ground.collect::<E>(from, word)
    }

    fn read_part<E: Event<<H::Under as Protocol>::View>>(
        &mut self,
        from: u8,
        buffer: u16,
        part: u8,
    ) -> u64 {
        self.step();
        self.ground.read_part::<E>(from, buffer, part)
    }

    fn release<E: Event<<H::Under as Protocol>::View>>(&mut self, from: u8, buffer: u16) {
        self.step();
        self.ground.release::<E>(from, buffer);
    }

    ghost came_here = { λ g. H.came_here g.ground };

    ghost came_on = { λ g h k. H.came_on g.ground h.ground k.ground };

    ghost came_same = { λ g h. H.came_same g.ground h.ground };

    ghost came_later = { λ g h. H.came_later g.ground h.ground };
}
