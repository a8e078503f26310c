//! Values of JSON, made key by key.

ghost use Rattle.std.specs.Prelude.{◌≡◌, OnOk, IfOk};
ghost use Rattle.serde_json.specs.Data.{object, no_members, put};
ghost use Rattle.serde_json.specs.View.{view};
ghost use Rattle.kit_save.specs.Values.{count};
ghost use Rattle.kit_save.specs.CutValues.{numbers_value};
ghost use Rattle.kit_save.specs.Making.{written};

use serde_json::{Map, Value};
use std::alloc::{AllocError, Global};

/// An object that is being made.
#[derive(Drop)]
pub(crate) struct ObjectWriter {
    members: Map<String, Value>,
}

impl ObjectWriter {
    pub(crate) fn new(alloc: Global) -> ObjectWriter
        ensures { written result ≡ no_members }
    {
        ObjectWriter {
            members: Map::new(alloc),
        }
    }

    /// Puts a value at a key. Where memory is wanting the object has some of its members.
    pub(crate) fn put(&mut self, alloc: Global, key: &str, value: Value) -> Result<(), AllocError>
        ensures { OnOk result (written self.new ≡ put key.now (view value) (written self.old)) }
    {
        let key = String::from_str(alloc, key)?;
        self.members.insert(key, value)?;
        Ok(())
    }

    pub(crate) fn into_value(self) -> Value
        ensures { view result ≡ object (written self) }
    {
        Value::Object(self.members)
    }
}

pub(crate) fn count(number: u64) -> Value
    ensures { view result ≡ count number }
{
    Value::from(number)
}

/// Numbers, as a list.
pub(crate) fn numbers_value(alloc: Global, numbers: &[u64]) -> Result<Value, AllocError>
    ensures { IfOk result (λ value. view value ≡ numbers_value numbers.now) }
{
    let mut items = Vec::new(alloc);
    for number in numbers {
        items.push(count(*number))?;
    }
    Ok(Value::Array(items))
}
