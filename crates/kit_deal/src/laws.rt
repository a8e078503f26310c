//! Laws of what is dealt, as contracts.
ghost use Rattle.std.specs.Prelude.{ℕ, List};
ghost use Rattle.kit_deal.specs.Dealings.{AreAll, EachIsThere};

use crate::Deal;

/// Items whose numbers are these, each as often, are as many, and each number is that of one.
pub fn each_is_there<D: Deal>()
    ensures { (numbers : List ℕ) (items : List D.Item) →
        AreAll D.number numbers items → EachIsThere D.number numbers items }
{}
