// Reading one line of a script.
ghost use Rattle.std.specs.Prelude.{◌≡◌, ◌<◌, ◌↔◌, [], ◌++◌, All, IfOk, IsTrue};
ghost use Rattle.std.specs.Char.{digit_value};
ghost use Rattle.script.specs.declared.call.Call.TheVariants.{Submit, Plan};
ghost use Rattle.script.specs.declared.read.ReadError.TheVariants.{Refused, Memory};
ghost use Rattle.script.specs.Parts.{Begins, Parts, Plans};
ghost use Rattle.script.specs.Reading.{bytes_of, Pairs, head_of, Follows, Reads};
ghost use Rattle.script.specs.Said.{said_by, call_of, port_of};

use crate::call::{Call, Letter};
use crate::line::Line;
use lane::noisy::Fate;
use refusal::Refusal;
use rules::state::PortId;
use std::alloc::{AllocError, Global};

// Why a line was not read.
#[derive(Clone, Copy, Debug, PartialEq, Eq)]
pub enum ReadError {
    // it is no line of a script
    Refused(Refusal),
    // there is no memory for its load
    Memory,
}

impl From<Refusal> for ReadError {
    ghost from_gives = { λ refusal error. error ≡ Refused refusal };

    fn from(refusal: Refusal) -> ReadError {
        ReadError::Refused(refusal)
    }
}

impl From<AllocError> for ReadError {
    ghost from_gives = { λ _ error. error ≡ Memory };

    fn from(_error: AllocError) -> ReadError {
        ReadError::Memory
    }
}

// Digits are hexadecimal.
const BASE: u32 = 16;

// Whether each byte is a hexadecimal digit.
fn are_digits(digits: &[u8]) -> bool
    ensures { IsTrue result ↔ All (λ d. digit_value d < 16) digits.now }
{
    digits.iter().all(|digit| digit.is_ascii_hexdigit())
}

// The value of a hexadecimal digit.
fn value_of(digit: u8) -> u8
    requires { digit_value digit < 16 }
    ensures value { result ≡ digit_value digit }
    ensures within { result < 16 }
{
    (digit as char).to_digit(BASE).unwrap() as u8
}

// The load that pairs of hexadecimal digits spell.
fn load_of(heap: Global, digits: &[u8]) -> Result<Vec<u8>, AllocError>
    requires { Pairs digits.now }
    ensures { IfOk result (λ load. load.items ≡ bytes_of digits.now) }
{
    let (pairs, _) = digits.as_chunks::<2>();
    let mut load = Vec::with_capacity(heap, pairs.len())?;
    for [high, low] in pairs {
        load.push(value_of(*high) * 16 + value_of(*low))?;
    }
    Ok(load)
}

// The plan that letters spell, where they spell one: the rest keeps.
fn plan_of(letters: &[u8]) -> Result<[Fate; 64], Refusal>
    ensures { Plans letters.now result }
{
    if letters.is_empty() || letters.len() > 64 {
        return Err(Refusal::NoSuchLine);
    }
    let mut plan = [Fate::Keep; 64];
    // by index: of an array that `iter_mut` went over the check knows no more than the length
    for (i, letter) in letters.iter().enumerate() {
        plan[i] = Fate::of_letter(*letter as char)?;
    }
    Ok(plan)
}

// The call and the port with which a line begins, and what follows them.
#[derive(Clone, Copy)]
struct Head<'a> {
    call: Call,
    port: PortId,
    tail: &'a [u8],
}

fn head_of<'a>(line: &'a [u8]) -> Result<Head<'a>, Refusal>
    ensures { Begins line.now result }
{
    let [letter, b'\t', port, tail @ ..] = line else {
        return Err(Refusal::NoSuchLine);
    };
    let call = Call::of_letter(*letter as char)?;
    let port = PortId::of_letter(*port as char)?;
    Ok(Head { call, port, tail })
}

// The field that a tab parts from what stands before it.
fn field_of<'a>(tail: &'a [u8]) -> Result<&'a [u8], Refusal>
    ensures { Parts tail.now result }
{
    match tail {
        [b'\t', field @ ..] => Ok(field),
        _ => Err(Refusal::NoSuchLine),
    }
}

// The line to submit the load that stands in the field after `tail`'s tab.
fn submit_line(heap: Global, port: PortId, tail: &[u8]) -> Result<Line, ReadError>
    ensures { Reads (head_of Submit port ++ tail.now) result }
{
    let digits = field_of(tail)?;
    if digits.len() % 2 != 0 || !are_digits(digits) {
        return Err(ReadError::Refused(Refusal::NoSuchLine));
    }
    let load = load_of(heap, digits)?;
    Ok(Line::Submit(port, load))
}

// The line with the plan that stands in the field after `tail`'s tab.
fn plan_line(port: PortId, tail: &[u8]) -> Result<Line, ReadError>
    ensures { Reads (head_of Plan port ++ tail.now) result }
{
    let plan = plan_of(field_of(tail)?)?;
    Ok(Line::Plan(port, plan))
}

// A line that needs no field, where none follows.
fn bare_line(line: Line, tail: &[u8]) -> Result<Line, ReadError>
    requires { Follows (said_by line) [] }
    ensures { Reads (head_of (call_of (said_by line)) (port_of (said_by line)) ++ tail.now) result }
{
    if tail.is_empty() {
        Ok(line)
    } else {
        Err(ReadError::Refused(Refusal::NoSuchLine))
    }
}

// The line with this head.
fn line_from(heap: Global, head: Head) -> Result<Line, ReadError>
    ensures { Reads (head_of head.entry.call head.entry.port ++ head.entry.tail.now) result }
{
    let Head { call, port, tail } = head;
    match call {
        Call::Submit => submit_line(heap, port, tail),
        Call::Send => bare_line(Line::Send(port), tail),
        Call::Receive => bare_line(Line::Receive(port), tail),
        Call::Collect => bare_line(Line::Collect(port), tail),
        Call::TimeOut => bare_line(Line::TimeOut(port), tail),
        Call::Plan => plan_line(port, tail),
    }
}

// Reads a line, without its line feed. Refused with 12 where it has no line's form.
pub fn read(heap: Global, line: &[u8]) -> Result<Line, ReadError>
    ensures { Reads line.now result }
{
    line_from(heap, head_of(line)?)
}
