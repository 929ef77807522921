// A port holds 31 packets and not 32: with 32 ackIDs, a response could then mean none of them or all.
use crate::show;
use crate::stand::{Stand, saying};
use port::memory::Memory;
use script::print::Answer;
use std::io;
use symbol::codes::Stype0;

fn submit(rt: &HostRuntime, number: u8, stand: &mut Stand) -> io::Result<()> {
    let answer = Answer::from(stand.submit());
    show::step(rt, "submit", number, answer, stand.port.snapshot())
}

// One packet is sent and freed.
fn free_one(rt: &HostRuntime, stand: &mut Stand) -> io::Result<()> {
    let _ = stand.tell();
    let answer = Answer::from(stand.hear(saying(Stype0::Accepted, 0, 31)));
    show::step(rt, "receive accepted", 0, answer, stand.port.snapshot())
}

fn hold(rt: &HostRuntime, stand: &mut Stand) -> io::Result<()> {
    for _ in 0..30u8 {
        let _ = stand.submit();
    }
    submit(rt, 31, stand)?;
    submit(rt, 32, stand)?;
    free_one(rt, stand)?;
    submit(rt, 32, stand)?;
    submit(rt, 33, stand)
}

pub(crate) fn trial(rt: &HostRuntime) -> io::Result<()> {
    show::title(rt, "holding 32 packets is refused")?;
    hold(rt, &mut Stand::of(Memory::unused().port()))
}
