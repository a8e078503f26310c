//! Whether lists rise.

ghost use Rattle.std.specs.Prelude.{◌≡◌, ◌↔◌, ◌<◌, IsTrue, AllPairs};
ghost use Rattle.kit_base.specs.Order.{is_before};
ghost use Rattle.kit_rules.specs.declared.own.Own.{Own};

use kit_base::Message;
use kit_rules::Own;

/// Whether the numbers rise.
pub(crate) fn numbers_rise(own: &[Own]) -> bool
    ensures { IsTrue result ↔ AllPairs (λ (a b : Own). a.number < b.number) own.now }
{
    for k in 1..own.len() {
        if own[k].number <= own[k - 1].number {
            return false;
        }
    }
    true
}

fn comes_before(a: &Message, b: &Message) -> bool
    ensures { result ≡ is_before a.now b.now }
{
    a.key() < b.key()
}

/// Whether each comes before those behind it, by time, sender and number.
pub(crate) fn keys_rise(messages: &[Message]) -> bool
    ensures { IsTrue result ↔ AllPairs (λ a b. IsTrue (is_before a b)) messages.now }
{
    for k in 1..messages.len() {
        if !comes_before(&messages[k - 1], &messages[k]) {
            return false;
        }
    }
    true
}
