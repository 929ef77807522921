// A port wakes among the bytes that the other is already sending: the first that it sees is the end of a frame.
// A port that starts anew by itself is no part of a run from a fresh link, so delivery is not promised here. Where the other
// has had no packet acknowledged, all come across. Where it has, a response that expects 0 mostly lies beyond what it ever
// sent, and it fails rather than send a packet under another's ackID; but where ackID 0 lies among those under way, as at first
// 31, it takes the packets before it for received. So both ports of a link are to be started together.
use crate::show;
use crate::stand::{Stand, saying};
use crate::tally::Tally;
use lane::{FRAME, Lane};
use port::memory::Memory;
use port::snapshot::Snapshot;
use refusal::Refusal;
use rules::state::Received;
use script::print::Answer;
use std::io;
use symbol::codes::Stype0;

// The load of each packet; a packet of it has 88 bytes and two CRCs.
const LOAD: usize = 82;

const PACKET: usize = 88;

// The port that sends has had this many packets acknowledged, by whom it was joined to before, and then sends three more.
fn prepare(sender: &mut Stand, freed: u8) {
    for ack_id in 0..freed {
        sender.submit_and_send();
        let _ = sender.hear(saying(Stype0::Accepted, ack_id, 31));
    }
    for _ in 0..3u8 {
        let _ = sender.port.submit(&[0xA5; LOAD]);
        let _ = sender.send_by(&mut [0; FRAME]);
    }
}

// Of the first frame only the last n bytes reach the port that wakes.
fn cut(sender: &mut Stand, woken: &mut Stand, n: usize) -> Result<Received, Refusal> {
    let mut buffer = [0; FRAME];
    let end = sender.out.take(&mut buffer)?;
    woken.receive(&buffer[end.saturating_sub(n)..end])
}

// One port sends, where its lane is empty, and the other receives.
fn pass(from: &mut Stand, to: &mut Stand) {
    let mut buffer = [0; FRAME];
    if from.out.count() == 0 {
        let _ = from.send_by(&mut buffer);
    }
    let _ = to.port.receive(&mut from.out, &mut buffer);
}

// Each of the two ports sends and the other receives: whether a packet then waited to be collected.
fn turn(sender: &mut Stand, woken: &mut Stand) -> bool {
    pass(sender, woken);
    pass(woken, sender);
    woken.port.collect(&mut [0; FRAME]).is_ok()
}

// How many packets the woken port collects in twenty turns.
fn exchange(sender: &mut Stand, woken: &mut Stand) -> usize {
    (0..20u8).filter(|_| turn(sender, woken)).count()
}

// How waking ended: how many packets the woken port collected, and where both ports stand.
#[derive(Clone, Copy, PartialEq, Eq)]
struct Ended {
    collected: usize,
    sender: Snapshot,
    woken: Snapshot,
}

// A port wakes n bytes before the end of a frame of a port that has had some packets acknowledged.
fn wake(freed: u8, n: usize) -> Ended {
    let mut memory = Memory::unused();
    let mut sender = Stand::of(memory.port());
    let mut other_memory = Memory::unused();
    let mut woken = Stand::of(other_memory.port());
    prepare(&mut sender, freed);
    let _ = cut(&mut sender, &mut woken, n);
    let collected = exchange(&mut sender, &mut woken);
    Ended {
        collected,
        sender: sender.port.snapshot(),
        woken: woken.port.snapshot(),
    }
}

// How waking ended at the first place in a frame, and where the ports then stood.
fn show_ended(rt: &HostRuntime, freed: u8, ended: Ended) -> io::Result<()> {
    let collected = Answer::from(ended.collected);
    show::step(
        rt,
        "collected, and the sender, at first",
        freed,
        collected,
        ended.sender,
    )?;
    show::step(
        rt,
        "collected, and the port that woke, at first",
        freed,
        collected,
        ended.woken,
    )
}

// A port wakes at each place in a frame of a port that has had some packets acknowledged.
fn wake_everywhere(rt: &HostRuntime, freed: u8) -> io::Result<()> {
    let mut tally = Tally::default();
    for n in 1..PACKET {
        tally.count(wake(freed, n));
    }
    show::counts(
        rt,
        "places in a frame, at first",
        freed,
        tally.same,
        tally.others,
    )?;
    match tally.first {
        Some(ended) => show_ended(rt, freed, ended),
        None => Ok(()),
    }
}

pub(crate) fn trial(rt: &HostRuntime) -> io::Result<()> {
    show::title(rt, "a port wakes among bytes that the other is sending")?;
    for freed in [0, 1, 5, 28, 31] {
        wake_everywhere(rt, freed)?;
    }
    Ok(())
}
