//! The text of a history: a line for each delivery and each grant, and then the closing lines.

ghost use Rattle.std.specs.Prelude.{◌≡◌, ◌<◌, ◌≤◌, ◌+◌, ◌∷◌, ◌++◌, length, drop, codes, decimal};
ghost use Rattle.std.specs.Prelude.{IfOk, OnOk, All};
ghost use Rattle.std.specs.List.{flat_map};
ghost use Rattle.kit_rules.specs.Fits.{LineFits};
ghost use Rattle.kit_rules.specs.Parts.{federate_at, group_at};
ghost use Rattle.kit_rules.specs.Text.{value_text, line_text, vars_text, closing_text};
ghost use Rattle.kit_rules.specs.Text.{closings_text, history_text};

use itoa::write_digits;
use kit_base::{History, Line, Message, push_decimal};
use kit_rules::{Federate, Federation, Var};
use std::alloc::{AllocError, Global};

/// The room that is made at once for a line, in bytes; the text grows past it where lines are
/// longer.
const LINE_ROOM: usize = 48;

/// The room in which numbers are written from their last digit to their first, in bytes.
const NUMBERS_ROOM: usize = 80;

/// Writes a time and a space.
fn push_time(out: &mut Vec<u8>, time: u64) -> Result<(), AllocError>
    ensures { OnOk result (out.new.items ≡ out.old.items ++ decimal time ++ codes " ") }
{
    let mut room = [0; NUMBERS_ROOM];
    let end = put_byte(&mut room, NUMBERS_ROOM, b' ');
    let start = put_number(&mut room, end, time);
    out.extend_from_slice(&room[start..])
}

/// Writes a time, a federate's name, and what it got.
fn push_front(
    out: &mut Vec<u8>,
    federation: &Federation,
    time: u64,
    federate: u8,
    got: &[u8],
) -> Result<(), AllocError>
    requires { federate < length federation.now.federates }
    ensures { OnOk result (out.new.items ≡ out.old.items
        ++ decimal time ++ codes " " ++ (federate_at federation.now federate).name ++ got.now) }
{
    push_time(out, time)?;
    out.extend_from_slice(federation.federate(federate).name.bytes())?;
    out.extend_from_slice(got)
}

fn push_delivery(
    out: &mut Vec<u8>,
    federation: &Federation,
    granted: u64,
    federate: u8,
    message: &Message,
) -> Result<(), AllocError>
    requires { LineFits federation.now (Line.Deliver granted federate message.now) }
    ensures { OnOk result (out.new.items ≡
        out.old.items ++ line_text federation.now (Line.Deliver granted federate message.now)) }
{
    push_front(out, federation, granted, federate, b" got ")?;
    push_origin(out, federation, message)?;
    push_numbers(out, message)
}

/// Writes the group and the sender of a message.
fn push_origin(
    out: &mut Vec<u8>,
    federation: &Federation,
    message: &Message,
) -> Result<(), AllocError>
    requires sender { message.now.sender < length federation.now.federates }
    requires group { message.now.group < length federation.now.groups }
    ensures { OnOk result (out.new.items ≡ out.old.items
        ++ (group_at federation.now message.now.group).name ++ codes " "
        ++ (federate_at federation.now message.now.sender).name) }
{
    out.extend_from_slice(federation.group(message.group).name.bytes())?;
    out.push(b' ')?;
    out.extend_from_slice(federation.federate(message.sender).name.bytes())
}

/// Writes the number of a message, its time and its value, and ends the line.
fn push_numbers(out: &mut Vec<u8>, message: &Message) -> Result<(), AllocError>
    ensures { OnOk result (out.new.items ≡
        out.old.items ++ codes "#" ++ decimal message.now.number ++ value_text message.now) }
{
    let mut room = [0; NUMBERS_ROOM];
    let start = write_numbers(&mut room, message);
    out.extend_from_slice(&room[start..])
}

/// Writes them so that they end with the room, and gives the place at which they start.
fn write_numbers(room: &mut [u8], message: &Message) -> usize
    requires { length room.old ≡ 80 }
    ensures within { result ≤ 80 }
    ensures written { drop result room.new ≡
        codes "#" ++ decimal message.now.number ++ value_text message.now }
{
    let end = put_byte(room, NUMBERS_ROOM, b'\n');
    let value = put_number(room, end, message.value as u64);
    let sign = put_byte(room, value, b' ');
    let sign = put_byte(room, sign, b'=');
    let sign = put_byte(room, sign, b' ');
    let time = put_number(room, sign, message.time);
    let sign = put_byte(room, time, b'@');
    let sign = put_byte(room, sign, b' ');
    let number = put_number(room, sign, message.number as u64);
    put_byte(room, number, b'#')
}

/// Puts the digits of a number before a place, and gives the place of the first.
fn put_number(room: &mut [u8], end: usize, number: u64) -> usize
    requires low { 20 ≤ end }
    requires high { end ≤ length room.old }
    ensures most { end ≤ result + 20 }
    ensures within { result ≤ end }
    ensures written { drop result room.new ≡ decimal number ++ drop end room.old }
    ensures len { length room.new ≡ length room.old }
{
    write_digits(number, room, end)
}

/// Puts a byte before a place, and gives its own.
fn put_byte(room: &mut [u8], end: usize, byte: u8) -> usize
    requires low { 1 ≤ end }
    requires high { end ≤ length room.old }
    ensures start { result + 1 ≡ end }
    ensures written { drop result room.new ≡ byte ∷ drop end room.old }
    ensures len { length room.new ≡ length room.old }
{
    room[end - 1] = byte;
    end - 1
}

fn push_grant(
    out: &mut Vec<u8>,
    federation: &Federation,
    time: u64,
    federate: u8,
) -> Result<(), AllocError>
    requires { LineFits federation.now (Line.Grant time federate) }
    ensures { OnOk result (out.new.items ≡
        out.old.items ++ line_text federation.now (Line.Grant time federate)) }
{
    push_front(out, federation, time, federate, b" grant\n")
}

/// Writes a line of a history of the federation.
pub fn push_line(out: &mut Vec<u8>, federation: &Federation, line: &Line) -> Result<(), AllocError>
    requires { LineFits federation.now line.now }
    ensures { OnOk result (out.new.items ≡ out.old.items ++ line_text federation.now line.now) }
{
    match line {
        Line::Deliver {
            granted,
            federate,
            message,
        } => push_delivery(out, federation, *granted, *federate, message),
        Line::Grant { time, federate } => push_grant(out, federation, *time, *federate),
    }
}

fn push_lines(out: &mut Vec<u8>, federation: &Federation, lines: &[Line]) -> Result<(), AllocError>
    requires { All (LineFits federation.now) lines.now }
    ensures { OnOk result (out.new.items ≡
        out.old.items ++ flat_map (line_text federation.now) lines.now) }
{
    for line in lines {
        push_line(out, federation, line)?;
    }
    Ok(())
}

fn push_var(out: &mut Vec<u8>, name: &[u8], value: u32) -> Result<(), AllocError>
    ensures { OnOk result (out.new.items ≡
        out.old.items ++ codes " " ++ name.now ++ codes "=" ++ decimal value) }
{
    out.push(b' ')?;
    out.extend_from_slice(name)?;
    out.extend_from_slice(b"=")?;
    push_decimal(out, value as u64)
}

fn push_vars(out: &mut Vec<u8>, vars: &[Var], values: &[u32; 8]) -> Result<(), AllocError>
    requires { length vars.now ≤ 8 }
    ensures { OnOk result (out.new.items ≡ out.old.items ++ vars_text vars.now values.now) }
{
    for (i, var) in vars.iter().enumerate() {
        push_var(out, var.name.bytes(), values[i])?;
    }
    Ok(())
}

/// Writes a federate's closing line with the values of its variables, in the order of its table.
pub fn push_closing(
    out: &mut Vec<u8>,
    federate: &Federate,
    values: &[u32; 8],
) -> Result<(), AllocError>
    requires { length federate.now.vars ≤ 8 }
    ensures { OnOk result (out.new.items ≡ out.old.items ++ closing_text federate.now values.now) }
{
    out.extend_from_slice(b"end ")?;
    out.extend_from_slice(federate.name.bytes())?;
    push_vars(out, federate.vars.as_slice(), values)?;
    out.push(b'\n')?;
    Ok(())
}

pub(crate) fn push_closings(
    out: &mut Vec<u8>,
    federates: &[Federate],
    vars: &[[u32; 8]],
) -> Result<(), AllocError>
    requires few { All (λ (f : _). length f.vars ≤ 8) federates.now }
    requires each { length vars.now ≡ length federates.now }
    ensures { OnOk result (out.new.items ≡ out.old.items ++ closings_text federates.now vars.now) }
{
    for (i, federate) in federates.iter().enumerate() {
        push_closing(out, federate, &vars[i])?;
    }
    Ok(())
}

/// The text of lines, in one buffer, as [`text`] has them: without closing lines.
pub fn lines_text(
    alloc: Global,
    federation: &Federation,
    lines: &[Line],
) -> Result<Vec<u8>, AllocError>
    requires { All (LineFits federation.now) lines.now }
    ensures { IfOk result (λ out. out.items ≡ flat_map (line_text federation.now) lines.now) }
{
    let room = lines.len().saturating_mul(LINE_ROOM);
    let mut out = Vec::with_capacity(alloc, room)?;
    push_lines(&mut out, federation, lines)?;
    Ok(out)
}

/// The text of a history, in one buffer: the lines in the order in which they stand, and then each
/// federate's closing line with its variables in the order of the file. Federates and groups are
/// written by their names, numbers in decimal digits, and each line ends with a newline byte.
pub fn text(
    alloc: Global,
    federation: &Federation,
    history: &History,
) -> Result<Vec<u8>, AllocError>
    requires lines { All (LineFits federation.now) history.now.lines }
    requires vars { length history.now.vars ≡ length federation.now.federates }
    ensures { IfOk result (λ out. out.items ≡
        history_text federation.now history.now.lines history.now.vars) }
{
    let mut out = lines_text(alloc, federation, history.lines.as_slice())?;
    push_closings(&mut out, federation.federates(), history.vars.as_slice())?;
    Ok(out)
}
