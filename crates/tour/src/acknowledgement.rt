// An acknowledgement is written as a control symbol, read back, spoiled on the way, and refused.
ghost use Rattle.std.specs.Prelude.{◌≡◌};
ghost use Rattle.tour.specs.Acknowledgement.{accepted_of};

use crate::frames::show;
use refusal::Refusal;
use std::io;
use symbol::Symbol;
use symbol::codes::{Stype0, Stype1};

// The symbol that says that the packet numbered `ack_id` was accepted. A 31 in its second parameter
// says that the receiver keeps the pace by retries.
pub(crate) fn accepted(ack_id: u8) -> Symbol
    ensures { result ≡ accepted_of ack_id }
{
    Symbol::of(Stype0::Accepted, ack_id, 31, Stype1::Nop)
}

pub(crate) fn written(symbol: Symbol) -> Result<[u8; 3], Refusal> {
    let mut bytes = [0; 3];
    symbol.write(&mut bytes)?;
    Ok(bytes)
}

fn show_fields(rt: &impl Print, step: &str, s: Symbol) -> io::Result<()> {
    let Symbol {
        stype0,
        parameter0,
        parameter1,
        stype1,
        cmd,
    } = s;
    println!(rt;
        "{step}: stype0 {stype0}, parameter0 {parameter0}, parameter1 {parameter1}, stype1 {stype1}, cmd {cmd}"
    )
}

fn show_bytes(rt: &impl Print, step: &str, bytes: [u8; 3]) -> io::Result<()> {
    let [a, b, c] = bytes;
    println!(rt; "{step}: {a:02x} {b:02x} {c:02x}")
}

fn show_read(rt: &impl Print, step: &str, read: Result<Symbol, Refusal>) -> io::Result<()> {
    show(rt, step, read, |symbol| show_fields(rt, step, symbol))
}

// Reads a written symbol back, and once more with a bit of its first byte turned.
fn read_back(rt: &impl Print, mut bytes: [u8; 3]) -> io::Result<()> {
    show_bytes(rt, "written", bytes)?;
    show_read(rt, "read back", Symbol::read(&bytes))?;
    bytes[0] ^= 1;
    show_bytes(rt, "spoiled", bytes)?;
    show_read(rt, "read again", Symbol::read(&bytes))
}

pub(crate) fn tour(rt: &impl Print) -> io::Result<()> {
    show_fields(rt, "an acknowledgement", accepted(5))?;
    show(rt, "written", written(accepted(5)), |bytes| {
        read_back(rt, bytes)
    })?;
    show_fields(rt, "a number too wide", accepted(32))?;
    show(rt, "written", written(accepted(32)), |bytes| {
        show_bytes(rt, "written", bytes)
    })
}
