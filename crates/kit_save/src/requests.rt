//! Wishes and requests as values of JSON.

ghost use Rattle.std.specs.Prelude.{◌≡◌, IfOk};
ghost use Rattle.serde_json.specs.View.{view};
ghost use Rattle.kit_save.specs.Values.{wish_value};
ghost use Rattle.kit_save.specs.CutValues.{request_value};

use crate::objects::{ObjectWriter, count};
use kit_rules::{Request, Wish};
use serde_json::Value;
use std::alloc::{AllocError, Global};

/// A wish, an object with the step under its kind. It fails only for want of memory.
pub(crate) fn wish_value(alloc: Global, wish: Wish) -> Result<Value, AllocError>
    ensures { IfOk result (λ value. view value ≡ wish_value wish) }
{
    let mut object = ObjectWriter::new(alloc);
    match wish {
        Wish::Tar(step) => object.put(alloc, "tar", count(step as u64))?,
        Wish::Ner(step) => object.put(alloc, "ner", count(step as u64))?,
    }
    Ok(object.into_value())
}

/// A request, an object with the time under its kind. It fails only for want of memory.
pub(crate) fn request_value(alloc: Global, request: Request) -> Result<Value, AllocError>
    ensures { IfOk result (λ value. view value ≡ request_value request) }
{
    let mut object = ObjectWriter::new(alloc);
    match request {
        Request::Tar(time) => object.put(alloc, "tar", count(time))?,
        Request::Ner(time) => object.put(alloc, "ner", count(time))?,
    }
    Ok(object.into_value())
}
