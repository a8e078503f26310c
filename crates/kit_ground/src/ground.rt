use crate::Reg;

/// A client's rule over a floor. Contracts alone see it.
pub trait Protocol {
    ghost use Rattle.std.specs.Prelude.{ℕ};
    ghost use Rattle.kit_ground.specs.Rules.{Rule};

    /// What each seat's client view is.
    type View;

    /// What the client's opening is.
    type Opening;

    // What holds of the memory and all places, between any two steps.
    ghost rule: { Rule Self.View };

    // The view of each seat at the opening.
    ghost first: { Self.Opening → ℕ → Self.View };
}

/// How a step changes the client's view of the seat that makes it.
pub trait Event<V> {
    ghost use Rattle.kit_ground.specs.declared.place.Deed.{Deed};
    ghost use Rattle.kit_ground.specs.declared.place.Place.{Place};

    // It may depend on what the seat knew of itself before the step.
    ghost next: { Deed → Place V → V };
}

/// One seat of a floor under a client's rule.
///
/// Each call but `me`, `federates` and `buffers` is one atomic step on one word. No call takes
/// memory, refuses or waits. With each step the caller says by `E` how its client's view changes,
/// and shows that the client's rule holds after the step (`rule`). It is told that both rules held
/// at the step, with the word that was found (`told`), so whatever follows from that.
pub trait Ground {
    ghost use Rattle.std.specs.Prelude.{◌≡◌, ◌≢◌, ℕ, ◌<◌, ◌≤◌, ◌/◌, true, ◌==◌, slice_index};
    ghost use Rattle.std.specs.Int.{bit_at};
    ghost use Rattle.kit_ground.specs.declared.address.Address.TheVariants.{Register, Stop, Mail};
    ghost use Rattle.kit_ground.specs.declared.address.Address.TheVariants.{Count, Part};
    ghost use Rattle.kit_ground.specs.declared.place.Deed.{Deed};
    ghost use Rattle.kit_ground.specs.declared.place.Deed.TheVariants.{Looked, Published, Stopped};
    ghost use Rattle.kit_ground.specs.declared.place.Deed.TheVariants.{SawStop, SawFree, Wrote};
    ghost use Rattle.kit_ground.specs.declared.place.Deed.TheVariants.{Charged, PostedTo};
    ghost use Rattle.kit_ground.specs.declared.place.Deed.TheVariants.{Collected, ReadPart};
    ghost use Rattle.kit_ground.specs.declared.place.Deed.TheVariants.{Released};
    ghost use Rattle.kit_ground.specs.declared.place.Place.{Place};
    ghost use Rattle.kit_ground.specs.Layout.{mail_words};
    ghost use Rattle.kit_ground.specs.Rules.{Keeps, WasFound};
    ghost use Rattle.kit_ground.specs.Steps.{IsReg, IsChargeable, IsMask, IsSameSeat, place_after};
    ghost use Rattle.kit_ground.specs.Steps.{buffer_of};

    type Under: Protocol;

    // The place of the seat.
    ghost place: { Self → Place Self.Under.View };

    // One step of this seat, which did this, led from the one to the other.
    ghost did: { Self → Deed → Self → Type 0 };

    // Steps of this seat alone led from the one to the other.
    ghost came: { Self → Self → Type 0 };

    /// The number of the seat's federate.
    fn me(&self) -> u8
        ensures { result ≡ (place self.now).own.number };

    /// How many federates there are.
    fn federates(&self) -> u8
        ensures { result ≡ (place self.now).own.federates };

    /// How many buffers each federate has.
    fn buffers(&self) -> u16
        ensures { result ≡ (place self.now).own.buffers };

    /// Loads a register.
    fn look<E: Event<<Self::Under as Protocol>::View>>(&mut self, reg: Reg) -> u64
        requires reg { IsReg (place self.old).own.federates reg }
        requires rule { Keeps Self.Under.rule E.next (place self.old) (Register reg)
            (λ word. Looked reg word) }
        ensures came { came self.old self.new }
        ensures did { did self.old (Looked reg result) self.new }
        ensures place { place self.new ≡ place_after E.next (Looked reg result) (place self.old) }
        ensures told { WasFound Self.Under.rule (place self.old) (Register reg) result };

    /// Stores an own register.
    fn publish<E: Event<<Self::Under as Protocol>::View>>(&mut self, reg: Reg, word: u64)
        requires own { reg.owner ≡ (place self.old).own.number }
        requires slot { reg.slot < 13 }
        requires rule { Keeps Self.Under.rule E.next (place self.old) (Register reg)
            (λ _. Published reg word) }
        ensures came { came self.old self.new }
        ensures did { did self.old (Published reg word) self.new }
        ensures place { place self.new ≡ place_after E.next (Published reg word) (place self.old) }
        ensures told { (found : ℕ)
            × WasFound Self.Under.rule (place self.old) (Register reg) found };

    /// Stores 1 in the stop word.
    fn stop<E: Event<<Self::Under as Protocol>::View>>(&mut self)
        requires rule { Keeps Self.Under.rule E.next (place self.old) Stop (λ _. Stopped) }
        ensures came { came self.old self.new }
        ensures did { did self.old Stopped self.new }
        ensures place { place self.new ≡ place_after E.next Stopped (place self.old) }
        ensures told { (found : ℕ) × WasFound Self.Under.rule (place self.old) Stop found };

    /// Whether the stop word was 1.
    fn stopped<E: Event<<Self::Under as Protocol>::View>>(&mut self) -> bool
        requires rule { Keeps Self.Under.rule E.next (place self.old) Stop
            (λ word. SawStop (word == 1)) }
        ensures came { came self.old self.new }
        ensures did { did self.old (SawStop result) self.new }
        ensures place { place self.new ≡ place_after E.next (SawStop result) (place self.old) }
        ensures told { (found : ℕ) × WasFound Self.Under.rule (place self.old) Stop found
            × (result ≡ (found == 1)) };

    /// Whether the count of an own buffer was 0; then nobody reads it any more. No post of the
    /// buffer may be owed.
    fn look_free<E: Event<<Self::Under as Protocol>::View>>(&mut self, buffer: u16) -> bool
        requires buffer { buffer < (place self.old).own.buffers }
        requires posted { (buffer_of (place self.old).own.stock buffer).to_post ≡ 0 }
        requires rule { let p = place self.old in
            Keeps Self.Under.rule E.next p (Count p.own.number buffer)
            (λ count. SawFree buffer (count == 0)) }
        ensures came { came self.old self.new }
        ensures did { did self.old (SawFree buffer result) self.new }
        ensures place { place self.new
            ≡ place_after E.next (SawFree buffer result) (place self.old) }
        ensures told { let p = place self.old in
            (count : ℕ) × WasFound Self.Under.rule p (Count p.own.number buffer) count
            × (result ≡ (count == 0)) };

    /// Stores a content word of an own buffer that was seen free.
    fn write_part<E: Event<<Self::Under as Protocol>::View>>(
        &mut self,
        buffer: u16,
        part: u8,
        word: u64,
    )
        requires buffer { buffer < (place self.old).own.buffers }
        requires part { part < 2 }
        requires free { (buffer_of (place self.old).own.stock buffer).free ≡ true }
        requires rule { let p = place self.old in
            Keeps Self.Under.rule E.next p (Part p.own.number buffer part)
            (λ _. Wrote buffer part word) }
        ensures came { came self.old self.new }
        ensures did { did self.old (Wrote buffer part word) self.new }
        ensures place { place self.new
            ≡ place_after E.next (Wrote buffer part word) (place self.old) }
        ensures told { let p = place self.old in
            (found : ℕ) × WasFound Self.Under.rule p (Part p.own.number buffer part) found };

    /// Counts the federates of the mask for an own buffer that was seen free and is written whole.
    fn charge<E: Event<<Self::Under as Protocol>::View>>(&mut self, buffer: u16, mask: u16)
        requires buffer { buffer < (place self.old).own.buffers }
        requires ready { IsChargeable (place self.old).own buffer }
        requires mask { IsMask (place self.old).own mask }
        requires rule { let p = place self.old in
            Keeps Self.Under.rule E.next p (Count p.own.number buffer)
            (λ _. Charged buffer mask) }
        ensures came { came self.old self.new }
        ensures did { did self.old (Charged buffer mask) self.new }
        ensures place { place self.new ≡ place_after E.next (Charged buffer mask) (place self.old) }
        ensures told { let p = place self.old in
            (count : ℕ) × WasFound Self.Under.rule p (Count p.own.number buffer) count };

    /// Posts an own buffer to a federate that it was charged for: sets its bit in that federate's
    /// mail.
    fn post<E: Event<<Self::Under as Protocol>::View>>(&mut self, buffer: u16, to: u8)
        requires buffer { buffer < (place self.old).own.buffers }
        requires to { to < (place self.old).own.federates }
        requires owed { bit_at (buffer_of (place self.old).own.stock buffer).to_post to ≡ 1 }
        requires rule { let p = place self.old in
            Keeps Self.Under.rule E.next p (Mail to p.own.number (buffer / 64))
            (λ _. PostedTo buffer to) }
        ensures came { came self.old self.new }
        ensures did { did self.old (PostedTo buffer to) self.new }
        ensures place { place self.new ≡ place_after E.next (PostedTo buffer to) (place self.old) }
        ensures told { let p = place self.old in
            (mail : ℕ) × WasFound Self.Under.rule p (Mail to p.own.number (buffer / 64)) mail };

    /// Takes a mail word of another federate: bit `k` is for its buffer `64 * word + k`. The seat
    /// holds these buffers from now on.
    fn collect<E: Event<<Self::Under as Protocol>::View>>(&mut self, from: u8, word: u8) -> u64
        requires from { from < (place self.old).own.federates }
        requires other { from ≢ (place self.old).own.number }
        requires word { word < mail_words (place self.old).own.buffers }
        requires rule { let p = place self.old in
            Keeps Self.Under.rule E.next p (Mail p.own.number from word)
            (λ mail. Collected from word mail) }
        ensures came { came self.old self.new }
        ensures did { did self.old (Collected from word result) self.new }
        ensures place { place self.new
            ≡ place_after E.next (Collected from word result) (place self.old) }
        ensures told { let p = place self.old in
            WasFound Self.Under.rule p (Mail p.own.number from word) result };

    /// Loads a content word of a buffer that the seat holds.
    fn read_part<E: Event<<Self::Under as Protocol>::View>>(
        &mut self,
        from: u8,
        buffer: u16,
        part: u8,
    ) -> u64
        requires from { from < (place self.old).own.federates }
        requires buffer { buffer < (place self.old).own.buffers }
        requires part { part < 2 }
        requires held { bit_at (slice_index (place self.old).own.stock.holds from) buffer ≡ 1 }
        requires rule { Keeps Self.Under.rule E.next (place self.old) (Part from buffer part)
            (λ word. ReadPart from buffer part word) }
        ensures came { came self.old self.new }
        ensures did { did self.old (ReadPart from buffer part result) self.new }
        ensures place { place self.new
            ≡ place_after E.next (ReadPart from buffer part result) (place self.old) }
        ensures told { WasFound Self.Under.rule (place self.old) (Part from buffer part) result };

    /// Gives a buffer back: its count falls by 1, and the seat holds it no more.
    fn release<E: Event<<Self::Under as Protocol>::View>>(&mut self, from: u8, buffer: u16)
        requires from { from < (place self.old).own.federates }
        requires buffer { buffer < (place self.old).own.buffers }
        requires held { bit_at (slice_index (place self.old).own.stock.holds from) buffer ≡ 1 }
        requires rule { Keeps Self.Under.rule E.next (place self.old) (Count from buffer)
            (λ _. Released from buffer) }
        ensures came { came self.old self.new }
        ensures did { did self.old (Released from buffer) self.new }
        ensures place { place self.new
            ≡ place_after E.next (Released from buffer) (place self.old) }
        ensures told { (count : ℕ) × WasFound Self.Under.rule (place self.old) (Count from buffer)
            count };

    ghost came_here: { (g : Self) → came g g };

    ghost came_on: { (g h k : Self) → came g h → came h k → came g k };

    // It is the seat of one federate, and its steps are counted on.
    ghost came_same: { (g h : Self) → came g h → IsSameSeat (place g) (place h) };

    ghost came_later: { (g h : Self) → came g h → (place g).own.steps ≤ (place h).own.steps };
}
