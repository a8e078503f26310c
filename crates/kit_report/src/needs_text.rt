//! The text of needs: a line for each federate, and then whether the buffers are enough.

ghost use Rattle.std.specs.Prelude.{◌≡◌, ◌≤◌, ◌++◌, length, IfOk, OnOk};
ghost use Rattle.kit_rules.specs.Text.{need_line, need_lines, are_enough, buffers_line, need_text};

use kit_base::push_decimal;
use kit_rules::{Federate, Federation};
use std::alloc::{AllocError, Global};

/// The room that is made at once for a line, in bytes: no line is longer.
const LINE_ROOM: usize = 32;

fn push_need(out: &mut Vec<u8>, federate: &Federate, need: u16) -> Result<(), AllocError>
    ensures { OnOk result (out.new.items ≡ out.old.items ++ need_line federate.now need) }
{
    out.extend_from_slice(b"need ")?;
    out.extend_from_slice(federate.name.bytes())?;
    out.push(b' ')?;
    push_decimal(out, need as u64)?;
    out.push(b'\n')?;
    Ok(())
}

fn push_needs(out: &mut Vec<u8>, federates: &[Federate], needs: &[u16]) -> Result<(), AllocError>
    requires { length needs.now ≡ length federates.now }
    ensures { OnOk result (out.new.items ≡ out.old.items ++ need_lines federates.now needs.now) }
{
    for (i, federate) in federates.iter().enumerate() {
        push_need(out, federate, needs[i])?;
    }
    Ok(())
}

fn push_buffers(out: &mut Vec<u8>, buffers: u16, enough: bool) -> Result<(), AllocError>
    ensures { OnOk result (out.new.items ≡ out.old.items ++ buffers_line buffers enough) }
{
    out.extend_from_slice(b"buffers ")?;
    push_decimal(out, buffers as u64)?;
    out.extend_from_slice(if enough { b" enough\n" } else { b" short\n" })
}

/// Whether so many buffers are at least every need.
fn is_enough(buffers: u16, needs: &[u16]) -> bool
    ensures { result ≡ are_enough buffers needs.now }
{
    needs.iter().all(|need| *need <= buffers)
}

/// The text of needs, one for each federate, in one buffer: a line for each federate, and then one
/// with the number of buffers that each has, and `enough` where it is at least every need, or else
/// `short`.
pub fn need_text(
    alloc: Global,
    federation: &Federation,
    needs: &[u16],
) -> Result<Vec<u8>, AllocError>
    requires { length needs.now ≡ length federation.now.federates }
    ensures { IfOk result (λ out. out.items ≡ need_text federation.now needs.now) }
{
    let buffers = federation.buffers();
    let lines = federation.count() as usize + 1;
    let mut out = Vec::with_capacity(alloc, lines * LINE_ROOM)?;
    push_needs(&mut out, federation.federates(), needs)?;
    push_buffers(&mut out, buffers, is_enough(buffers, needs))?;
    Ok(out)
}
