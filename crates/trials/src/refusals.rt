// Each refusal of each call at a port, with every choice of the grounds for it: of several, the one that comes first in the
// call's order is the answer, and a refused call leaves port, lanes and buffer as they were.
use crate::show;
use crate::stand::Stand;
use lane::{FRAME, Lane};
use port::memory::{Memory, PLACES};
use port::snapshot::Snapshot;
use refusal::Refusal;
use script::print::Answer;
use std::io;
use symbol::Symbol;
use symbol::codes::{Stype0, Stype1};

// What the bytes of a buffer are before a call.
pub(crate) const FILL: u8 = 0x5A;

// What a port and its lanes stand at.
#[derive(Clone, Copy, PartialEq, Eq)]
struct Scene {
    port: Snapshot,
    incoming: usize,
    out: usize,
}

fn scene_of(stand: &Stand) -> Scene {
    Scene {
        port: stand.port.snapshot(),
        incoming: stand.incoming.count(),
        out: stand.out.count(),
    }
}

// Whether each byte is still what it was before a call.
pub(crate) fn is_untouched(buffer: &[u8]) -> bool {
    buffer.iter().all(|b| *b == FILL)
}

// A buffer that has room for every frame, or all of it but a byte.
pub(crate) fn room(buffer: &mut [u8; FRAME], short: bool) -> &mut [u8] {
    if short { &mut buffer[1..] } else { buffer }
}

// A call at a port, with a buffer that is short where that is its first ground to be refused: its answer, and whether it left
// port, lanes and buffer as they were.
fn make<F: FnOnce(&mut Stand, &mut [u8]) -> Answer>(
    rt: &HostRuntime,
    stand: &mut Stand,
    name: &str,
    grounds: [Option<Refusal>; 3],
    call: F,
) -> io::Result<()>
    requires { F.IsAlwaysCallable call }
{
    let short = grounds[0] == Some(Refusal::ShortBuffer);
    let before = scene_of(stand);
    let mut buffer = [FILL; FRAME];
    let answer = call(stand, room(&mut buffer, short));
    let unchanged = scene_of(stand) == before && is_untouched(&buffer);
    show::grounds(rt, name, grounds, answer, unchanged)
}

// Submit: the load's length, 31 held.
fn submit(rt: &HostRuntime, stand: &mut Stand, odd: bool, full: bool) -> io::Result<()> {
    if full {
        for _ in 0..31u8 {
            let _ = stand.submit();
        }
    }
    let load = if odd { &[0; 7][..] } else { &[0; 8][..] };
    let grounds = [
        odd.then_some(Refusal::LoadLength),
        full.then_some(Refusal::WindowFull),
        None,
    ];
    make(rt, stand, "submit", grounds, |stand, _| {
        stand.port.submit(load).into()
    })
}

// Send: the buffer, nothing due, the lane at its limit.
fn send(
    rt: &HostRuntime,
    stand: &mut Stand,
    short: bool,
    nothing: bool,
    full: bool,
) -> io::Result<()> {
    if !nothing {
        let _ = stand.submit();
    }
    if full {
        for _ in 0..16u8 {
            let _ = stand.out.put(&[0]);
        }
    }
    let grounds = [
        short.then_some(Refusal::ShortBuffer),
        nothing.then_some(Refusal::Nothing),
        full.then_some(Refusal::LaneFull),
    ];
    make(rt, stand, "send", grounds, |stand, room| {
        stand.send_by(room).into()
    })
}

// Fills the queue of replies: each request pends a response.
fn fill_replies(stand: &mut Stand) {
    let request = Symbol::of(Stype0::Status, 0, 31, Stype1::Request);
    for _ in 0..PLACES {
        let _ = stand.hear(request);
    }
}

// Receive: the buffer, the queue of replies, nothing on the lane.
fn receive(
    rt: &HostRuntime,
    stand: &mut Stand,
    short: bool,
    full: bool,
    nothing: bool,
) -> io::Result<()> {
    if full {
        fill_replies(stand);
    }
    if !nothing {
        let _ = stand.incoming.put(&[0]);
    }
    let grounds = [
        short.then_some(Refusal::ShortBuffer),
        full.then_some(Refusal::RepliesFull),
        nothing.then_some(Refusal::Nothing),
    ];
    make(rt, stand, "receive", grounds, |stand, room| {
        stand.receive_by(room).into()
    })
}

// Collect: the buffer, nothing waiting.
fn collect(rt: &HostRuntime, stand: &mut Stand, short: bool, nothing: bool) -> io::Result<()> {
    if !nothing {
        let _ = stand.offer(0);
    }
    let grounds = [
        short.then_some(Refusal::ShortBuffer),
        nothing.then_some(Refusal::Nothing),
        None,
    ];
    make(rt, stand, "collect", grounds, |stand, room| {
        stand.port.collect(room).into()
    })
}

// The calls that have two grounds to be refused, each at a fresh port.
fn try_two(rt: &HostRuntime, first: bool, second: bool) -> io::Result<()> {
    submit(rt, &mut Stand::of(Memory::unused().port()), first, second)?;
    collect(rt, &mut Stand::of(Memory::unused().port()), first, second)
}

// Those that have three.
fn try_three(rt: &HostRuntime, first: bool, second: bool, third: bool) -> io::Result<()> {
    send(
        rt,
        &mut Stand::of(Memory::unused().port()),
        first,
        second,
        third,
    )?;
    receive(
        rt,
        &mut Stand::of(Memory::unused().port()),
        first,
        second,
        third,
    )
}

pub(crate) fn trial(rt: &HostRuntime) -> io::Result<()> {
    show::title(
        rt,
        "of several grounds to refuse a call at a port the first in its order counts, and nothing changes",
    )?;
    for first in [false, true] {
        for second in [false, true] {
            try_two(rt, first, second)?;
            for third in [false, true] {
                try_three(rt, first, second, third)?;
            }
        }
    }
    Ok(())
}
