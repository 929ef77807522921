// A response is measured against the packets ever sent, and not against those sent since the last rewind.
use crate::show;
use crate::stand::{Stand, saying};
use port::memory::Memory;
use script::print::Answer;
use std::io;
use symbol::codes::{Cause, PortStatus, Stype0};

// Three packets are sent, a retry rewinds them, and a packet that is not accepted has the port ask where the other stands:
// none counts as sent since the rewind, and three were ever sent.
fn prepare(stand: &mut Stand) {
    for _ in 0..3u8 {
        stand.submit_and_send();
    }
    let _ = stand.hear(saying(Stype0::Retry, 0, 31));
    let _ = stand.tell();
    let _ = stand.hear(saying(Stype0::NotAccepted, 3, Cause::PacketCheck.into()));
    let _ = stand.tell();
}

// The response expects this ackID.
fn respond(rt: &HostRuntime, expected: u8) -> io::Result<()> {
    let mut memory = Memory::unused();
    let mut stand = Stand::of(memory.port());
    prepare(&mut stand);
    let response = saying(Stype0::Response, expected, PortStatus::Ready.into());
    let answer = Answer::from(stand.hear(response));
    show::step(
        rt,
        "receive response",
        expected,
        answer,
        stand.port.snapshot(),
    )
}

pub(crate) fn trial(rt: &HostRuntime) -> io::Result<()> {
    show::title(
        rt,
        "a response is measured against high: 3 ever sent, none since the rewind",
    )?;
    for expected in [0, 1, 2, 3, 4, 31] {
        respond(rt, expected)?;
    }
    Ok(())
}
