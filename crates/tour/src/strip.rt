// A strip's load is sealed as a packet, opened again, and found unsound once a byte of it is spoiled.
use crate::frames::{show, show_kind};
use packet::opening::{Load, open};
use packet::sealing::{LONGEST, seal};
use refusal::Refusal;
use std::io;

// A strip has 100 bytes, so its packet has two CRCs.
const STRIP: usize = 100;

// A load whose bytes count down from 100.
pub(crate) fn load() -> [u8; STRIP] {
    let mut bytes = [0; STRIP];
    for (byte, left) in bytes.iter_mut().zip((1..=100u8).rev()) {
        *byte = left;
    }
    bytes
}

// Seals a strip's load, and answers its packet, which stands at the front of the buffer.
pub(crate) fn sealed(buffer: &mut [u8; LONGEST]) -> Result<&mut [u8], Refusal> {
    let n = seal(&load(), buffer)?;
    Ok(&mut buffer[..n])
}

// The two CRCs stand behind byte 79 and at the end.
fn show_packet(rt: &impl Print, packet: &[u8]) -> io::Result<()> {
    let n = packet.len();
    if n < 84 {
        return println!(rt; "sealed: a packet of {n} bytes");
    }
    let first = u16::from_be_bytes([packet[80], packet[81]]);
    let last = u16::from_be_bytes([packet[n - 2], packet[n - 1]]);
    println!(rt; "sealed: a packet of {n} bytes with the CRCs {first:04x} and {last:04x}")
}

fn show_opened(rt: &impl Print, step: &str, opened: Result<Load<'_>, Refusal>) -> io::Result<()> {
    show(rt, step, opened, |load| {
        println!(rt;
            "{step}: {} bytes of load and {} more",
            load.first.len(),
            load.rest.len()
        )
    })
}

// What becomes of a sealed strip: it is opened for its length and for another, spoiled, and cut short.
fn there_and_back(rt: &impl Print, packet: &mut [u8]) -> io::Result<()> {
    show_packet(rt, packet)?;
    show_kind(rt, "as a frame", packet)?;
    show_opened(rt, "opened for 100 bytes", open(packet, STRIP))?;
    show_opened(rt, "opened for 102 bytes", open(packet, STRIP + 2))?;
    if let Some(byte) = packet.get_mut(50) {
        *byte ^= 0x10;
    }
    show_kind(rt, "with a bit turned", packet)?;
    show_opened(rt, "opened for 100 bytes", open(packet, STRIP))?;
    match packet.split_last() {
        Some((_, shorter)) => show_kind(rt, "a byte shorter", shorter),
        None => Ok(()),
    }
}

pub(crate) fn tour(rt: &impl Print) -> io::Result<()> {
    show(rt, "sealed", sealed(&mut [0; LONGEST]), |packet| {
        there_and_back(rt, packet)
    })
}
