// All five bits of an ackID decide: which packet is taken, and which packet an accepted frees.
use crate::show;
use crate::stand::{Stand, saying};
use lane::FRAME;
use port::memory::Memory;
use rules::state::Output;
use std::io;
use symbol::Symbol;
use symbol::codes::{Cause, Stype0};

// How many ackIDs there are.
const ACK_IDS: u8 = 32;

// What a port that expects one ackID tells of a packet under another.
fn told(expected: u8, ack_id: u8) -> Option<Symbol> {
    let mut memory = Memory::unused();
    let mut stand = Stand::of(memory.port());
    for earlier in 0..expected {
        let _ = stand.offer(earlier);
        let _ = stand.tell();
        let _ = stand.port.collect(&mut [0; FRAME]);
    }
    let _ = stand.offer(ack_id);
    stand.tell().ok()
}

// Where an accepted leaves the output of a port that had sent one packet, under the ackID first.
fn acknowledged(first: u8, ack_id: u8) -> Output {
    let mut memory = Memory::unused();
    let mut stand = Stand::of(memory.port());
    for earlier in 0..first {
        stand.submit_and_send();
        let _ = stand.hear(saying(Stype0::Accepted, earlier, 31));
    }
    stand.submit_and_send();
    let _ = stand.hear(saying(Stype0::Accepted, ack_id, 31));
    stand.port.snapshot().output
}

// Tries each ackID, of which one is right: whether that one came to what it is to, and how many came to what the others are to.
fn try_each<T: Copy + PartialEq, F: Fn(u8) -> T>(
    rt: &HostRuntime,
    what: &str,
    right: u8,
    taken: T,
    refused: T,
    trial: F,
) -> io::Result<()>
    requires { F.IsAlwaysCallable trial }
{
    let ones = usize::from(trial(right) == taken);
    let others = (0..ACK_IDS)
        .filter(|ack_id| trial(*ack_id) == refused)
        .count();
    show::counts(rt, what, right, ones, others)
}

// Packets under each ackID, at a port that expects one of them: it is accepted, and the others are refused as unexpected.
fn packets(rt: &HostRuntime, expected: u8) -> io::Result<()> {
    let accepted = saying(Stype0::Accepted, expected, 31);
    let refused = saying(Stype0::NotAccepted, expected, Cause::UnexpectedAckId.into());
    try_each(
        rt,
        "packets at a port that expects",
        expected,
        Some(accepted),
        Some(refused),
        |ack_id| told(expected, ack_id),
    )
}

// An accepted of each ackID, at a port that has sent a packet under one of them: it frees that packet, and the others have the
// port ask where the other stands.
fn accepteds(rt: &HostRuntime, first: u8) -> io::Result<()> {
    try_each(
        rt,
        "accepteds at a port that sent",
        first,
        Output::Running,
        Output::OwingRequest,
        |ack_id| acknowledged(first, ack_id),
    )
}

pub(crate) fn trial(rt: &HostRuntime) -> io::Result<()> {
    show::title(
        rt,
        "all five bits of the ackID decide: of 32, 1 is right and 31 are wrong",
    )?;
    for ack_id in 0..ACK_IDS {
        packets(rt, ack_id)?;
        accepteds(rt, ack_id)?;
    }
    Ok(())
}
