// Frames of every length from 1 to 276 bytes at a port whose input is ready, retry-stopped or error-stopped: zero bytes, bytes
// 0xFF, and packets of every length spoiled at each byte in turn. What the port makes of a frame depends on its length alone:
// on whether it is a symbol's, a packet's or neither.
use crate::show;
use crate::stand::{Stand, seal};
use crate::tally::Tally;
use lane::FRAME;
use port::memory::Memory;
use port::snapshot::Snapshot;
use refusal::Refusal;
use rules::state::{Input, Received};
use script::print::Answer;
use std::io;

// What a frame's length is the length of.
#[derive(Clone, Copy, PartialEq, Eq)]
enum Length {
    Symbol,
    Packet,
    Neither,
}

fn length_of(n: usize) -> Length {
    if n == 3 {
        Length::Symbol
    } else if n >= 8 && n % 4 == 0 {
        Length::Packet
    } else {
        Length::Neither
    }
}

// What a port made of a frame: its answer, where it stood then, and the cause that it told, if it told one.
#[derive(Clone, Copy, PartialEq, Eq)]
struct Made {
    answer: Result<Received, Refusal>,
    port: Snapshot,
    cause: Option<u8>,
}

// What frames that were tried came to; the cause is 0 where none was told.
fn show_tally(rt: &HostRuntime, frames: &str, tally: Tally<Made>) -> io::Result<()> {
    let Some(made) = tally.first else {
        return Ok(());
    };
    let cause = made.cause.unwrap_or(0);
    show::counts(rt, frames, cause, tally.same, tally.others)?;
    show::step(
        rt,
        "cause told",
        cause,
        Answer::from(made.answer),
        made.port,
    )
}

// Brings a fresh port's input to a state, with no reply left to send. For a retry nine packets come: eight wait, and the
// ninth finds no slot.
fn prepare(stand: &mut Stand, input: Input) {
    match input {
        Input::Ready => {}
        Input::RetryStopped => {
            for ack_id in 0..9u8 {
                let _ = stand.offer(ack_id);
                let _ = stand.tell();
            }
        }
        Input::ErrorStopped => {
            let _ = stand.receive(&[0]);
            let _ = stand.tell();
        }
    }
}

// What a port whose input is in this state makes of a frame.
fn made_of(input: Input, frame: &[u8]) -> Made {
    let mut memory = Memory::unused();
    let mut stand = Stand::of(memory.port());
    prepare(&mut stand, input);
    let answer = stand.receive(frame);
    let port = stand.port.snapshot();
    let cause = stand.tell().ok().map(|symbol| symbol.parameter1);
    Made {
        answer,
        port,
        cause,
    }
}

// Frames of every length of one class that all have the same bytes.
fn alike(input: Input, length: Length, byte: u8) -> Tally<Made> {
    let bytes = [byte; FRAME];
    let mut tally = Tally::default();
    for n in 1..=FRAME {
        if length_of(n) == length {
            tally.count(made_of(input, &bytes[..n]));
        }
    }
    tally
}

// Turns every bit of a byte.
fn turn(packet: &mut [u8], i: usize) {
    if let Some(byte) = packet.get_mut(i) {
        *byte ^= 0xFF;
    }
}

// A packet, spoiled at each of its bytes in turn. The whole of it is received while a byte is turned, so no iterator over its
// bytes can lend that byte.
fn spoil_each(input: Input, packet: &mut [u8], tally: &mut Tally<Made>) {
    for i in 0..packet.len() {
        turn(packet, i);
        tally.count(made_of(input, packet));
        turn(packet, i);
    }
}

// Packets of every length, spoiled at each byte. Up to 80 bytes two of them are no load, and above that four: a CRC and
// padding at 84, and two CRCs from 88 on.
fn spoiled(input: Input) -> Tally<Made> {
    let mut tally = Tally::default();
    for quarter in 2..70usize {
        let more = if quarter <= 20 { 2 } else { 4 };
        if let Ok(packet) = seal(quarter * 4 - more, 0, &mut [0; FRAME]) {
            spoil_each(input, packet, &mut tally);
        }
    }
    tally
}

// All of them, at a port whose input is in this state.
fn frames_at(rt: &HostRuntime, title: &str, input: Input) -> io::Result<()> {
    show::title(rt, title)?;
    for (byte, length, frames) in [
        (0, Length::Symbol, "three bytes 0x00: cause"),
        (0xFF, Length::Symbol, "three bytes 0xFF: cause"),
        (0, Length::Packet, "bytes 0x00, a packet's length: cause"),
        (0xFF, Length::Packet, "bytes 0xFF, a packet's length: cause"),
        (0, Length::Neither, "bytes 0x00, any other length: cause"),
        (0xFF, Length::Neither, "bytes 0xFF, any other length: cause"),
    ] {
        show_tally(rt, frames, alike(input, length, byte))?;
    }
    show_tally(rt, "packets spoiled at each byte: cause", spoiled(input))
}

pub(crate) fn trial(rt: &HostRuntime) -> io::Result<()> {
    frames_at(
        rt,
        "frames of every length, at an input that is ready: how many alike, how many otherwise",
        Input::Ready,
    )?;
    frames_at(rt, "the same at a retry-stopped input", Input::RetryStopped)?;
    frames_at(
        rt,
        "the same at an error-stopped input",
        Input::ErrorStopped,
    )
}
