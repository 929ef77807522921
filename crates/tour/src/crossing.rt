// A packet and a symbol cross a noisy lane twice each: one crossing is lost, and one is spoiled.
use crate::acknowledgement::{accepted, written};
use crate::frames::{show, show_kind};
use crate::strip::sealed;
use lane::carrying::carry;
use lane::noisy::{Fate, Noisy};
use lane::steady::Steady;
use lane::{FRAME, Lane};
use refusal::Refusal;
use std::io;

// Puts a frame, and prints how many wait then.
fn put<L: Lane>(rt: &impl Print, step: &str, lane: &mut L, frame: &[u8]) -> io::Result<()> {
    show(rt, step, lane.put(frame), |()| {
        println!(rt;
            "{step} of {} bytes is put: {} waiting",
            frame.len(),
            lane.count()
        )
    })
}

// Carries the oldest frame on to another lane, and answers it.
fn carried<'b, A: Lane, B: Lane>(
    from: &mut A,
    to: &mut B,
    buffer: &'b mut [u8],
) -> Result<&'b [u8], Refusal> {
    let n = carry(from, to, buffer)?;
    Ok(&buffer[..n])
}

// Carries the oldest frame on to another lane, and prints what it is.
fn carry_on<A: Lane, B: Lane>(rt: &impl Print, from: &mut A, to: &mut B) -> io::Result<()> {
    show(
        rt,
        "carried on",
        carried(from, to, &mut [0; FRAME]),
        |frame| { show_kind(rt, "carried on", frame) },
    )
}

// Sends both frames twice over a lane that keeps the first, loses the second, spoils the third and keeps the fourth.
fn cross(rt: &impl Print, packet: &[u8], symbol: &[u8]) -> io::Result<()> {
    let mut noisy = Noisy::new(Steady::new());
    noisy.set_plan(&[Fate::Keep, Fate::Lose, Fate::Spoil]);
    for _ in 0..2u8 {
        put(rt, "a packet", &mut noisy, packet)?;
        put(rt, "a symbol", &mut noisy, symbol)?;
    }
    let mut steady = Steady::new();
    for _ in 0..4u8 {
        carry_on(rt, &mut noisy, &mut steady)?;
    }
    Ok(())
}

pub(crate) fn tour(rt: &impl Print) -> io::Result<()> {
    show(rt, "written", written(accepted(5)), |symbol| {
        show(rt, "sealed", sealed(&mut [0; FRAME]), |packet| {
            cross(rt, packet, &symbol)
        })
    })
}
