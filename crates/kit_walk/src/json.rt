//! The JSON text that a file is.

ghost use Rattle.std.specs.Prelude.{IfOk, IfErr};
ghost use Rattle.serde_json.specs.View.{view};
ghost use Rattle.kit_walk.specs.Answers.{Says, IsJsonFault};

use crate::fault::FileFault;
use serde_json::Value;
use std::alloc::Global;

/// The value of a JSON text in UTF-8. Of a key that is written twice in one object, the last value
/// counts.
pub fn json_in(alloc: Global, bytes: &[u8]) -> Result<Value, FileFault>
    ensures said { IfOk result (λ value. Says bytes.now (view value)) }
    ensures fault { IfErr result (λ fault. IsJsonFault bytes.now fault) }
{
    match Value::from_slice(alloc, bytes) {
        Ok(value) => Ok(value),
        Err(error) => Err(if error.is_memory() {
            FileFault::NoMemory
        } else {
            FileFault::NotJson
        }),
    }
}
