//! Messages of a cut as values of JSON: each is a list of its numbers.

ghost use Rattle.std.specs.Prelude.{◌≡◌, IfOk};
ghost use Rattle.serde_json.specs.View.{view};
ghost use Rattle.kit_save.specs.CutValues.{own_value, message_value};

use crate::objects::numbers_value;
use kit_base::Message;
use kit_rules::Own;
use serde_json::Value;
use std::alloc::{AllocError, Global};

/// Number, time and group of an Event that may still be taken back. It fails only for want of
/// memory.
pub(crate) fn own_value(alloc: Global, own: &Own) -> Result<Value, AllocError>
    ensures { IfOk result (λ value. view value ≡ own_value own.now) }
{
    numbers_value(alloc, &[own.number as u64, own.time, own.group as u64])
}

/// Time, sender, number, group and value of an Event that is pending. It fails only for want of
/// memory.
pub(crate) fn message_value(alloc: Global, message: &Message) -> Result<Value, AllocError>
    ensures { IfOk result (λ value. view value ≡ message_value message.now) }
{
    let sender = message.sender as u64;
    let number = message.number as u64;
    let group = message.group as u64;
    let value = message.value as u64;
    numbers_value(alloc, &[message.time, sender, number, group, value])
}
