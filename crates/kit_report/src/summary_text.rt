//! The summary of a history: how many grants and deliveries it has, and the closing lines.

ghost use Rattle.std.specs.Prelude.{◌≡◌, ◌++◌, length, decimal, count_by, IfOk, OnOk};
ghost use Rattle.kit_report.specs.Summary.{is_delivery, is_grant, number_line, summary_text};

use crate::history_text::push_closings;
use kit_base::{History, Line, push_decimal};
use kit_rules::Federation;
use std::alloc::{AllocError, Global};

fn is_grant(line: &Line) -> bool
    ensures { result ≡ is_grant line.now }
{
    matches!(line, Line::Grant { .. })
}

fn is_delivery(line: &Line) -> bool
    ensures { result ≡ is_delivery line.now }
{
    matches!(line, Line::Deliver { .. })
}

fn grants_of(lines: &[Line]) -> usize
    ensures { result ≡ count_by is_grant lines.now }
{
    lines.iter().filter(|line| is_grant(line)).count()
}

fn deliveries_of(lines: &[Line]) -> usize
    ensures { result ≡ count_by is_delivery lines.now }
{
    lines.iter().filter(|line| is_delivery(line)).count()
}

/// Writes a line of a word and a number.
fn push_number(out: &mut Vec<u8>, word: &[u8], number: u64) -> Result<(), AllocError>
    ensures { OnOk result (out.new.items ≡ out.old.items ++ number_line word.now number) }
{
    out.extend_from_slice(word)?;
    out.push(b' ')?;
    push_decimal(out, number)?;
    out.push(b'\n')?;
    Ok(())
}

/// The summary of a history of the federation of a generator's number, in one buffer: a line
/// `trial` with that number, a line `grants` and a line `deliveries` with how many of each the
/// history has, and then the closing lines of its text. It fails only for want of memory.
pub fn summary(
    alloc: Global,
    number: u64,
    federation: &Federation,
    history: &History,
) -> Result<Vec<u8>, AllocError>
    requires { length history.now.vars ≡ length federation.now.federates }
    ensures { IfOk result (λ out.
        out.items ≡ summary_text number federation.now history.now.lines history.now.vars) }
{
    let lines = history.lines.as_slice();
    let mut out = Vec::new(alloc);
    push_number(&mut out, b"trial", number)?;
    push_number(&mut out, b"grants", grants_of(lines) as u64)?;
    push_number(&mut out, b"deliveries", deliveries_of(lines) as u64)?;
    push_closings(&mut out, federation.federates(), history.vars.as_slice())?;
    Ok(out)
}
