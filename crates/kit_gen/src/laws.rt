//! What generated federations keep: the law is the contract of a function that does nothing.
ghost use Rattle.std.specs.Prelude.{ℕ};
ghost use Rattle.kit_rules.specs.Federation.{IsFederation};
ghost use Rattle.kit_gen.specs.Generator.{generated};

/// What the generator makes of a number keeps the limits of a federation.
pub fn generated_is_federation()
    ensures { (number : ℕ) → IsFederation (generated number) }
{}
