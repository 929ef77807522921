// What the library's other calls refuse: sealing, opening, stamping, symbols, queues and lines of a script.
use crate::refusals::{FILL, is_untouched, room};
use crate::show;
use crate::stand::{saying, seal};
use fifo::Queue;
use lane::FRAME;
use packet::opening::open;
use packet::{header, sealing};
use refusal::Refusal;
use script::print::Answer;
use script::read::{ReadError, read};
use std::alloc::Global;
use std::io;
use symbol::Symbol;
use symbol::codes::Stype0;

// Sealing: the load's length, the buffer.
fn try_seal(rt: &HostRuntime, odd: bool, short: bool) -> io::Result<()> {
    let load = if odd { &[0; 7][..] } else { &[0; 8][..] };
    let mut buffer = [FILL; FRAME];
    let answer = Answer::from(sealing::seal(load, room(&mut buffer, short)));
    let grounds = [
        odd.then_some(Refusal::LoadLength),
        short.then_some(Refusal::ShortBuffer),
        None,
    ];
    show::grounds(rt, "seal", grounds, answer, is_untouched(&buffer))
}

// Opens a packet with a load of six bytes for a length, and answers how many bytes of load come first.
fn opened(length: usize, spoiled: bool) -> Result<usize, Refusal> {
    let mut buffer = [0; FRAME];
    let packet = seal(6, 0, &mut buffer)?;
    if spoiled {
        if let Some(byte) = packet.get_mut(4) {
            *byte ^= 1;
        }
    }
    let load = open(packet, length)?;
    Ok(load.first.len())
}

// Opening: a load of another length, a turned bit.
fn try_open(rt: &HostRuntime, other: bool, spoiled: bool) -> io::Result<()> {
    let answer = Answer::from(opened(if other { 8 } else { 6 }, spoiled));
    let grounds = [
        other.then_some(Refusal::NoSuchLoad),
        spoiled.then_some(Refusal::Unsound),
        None,
    ];
    show::grounds(rt, "open", grounds, answer, true)
}

// A call that has one ground to be refused, where it holds.
fn show_one(
    rt: &HostRuntime,
    call: &str,
    ground: Option<Refusal>,
    answer: Answer,
    unchanged: bool,
) -> io::Result<()> {
    show::grounds(rt, call, [ground, None, None], answer, unchanged)
}

// Writing a symbol and stamping a packet: an ackID of six bits. Reading what was not written: the check.
fn try_fields(rt: &HostRuntime, wide: bool) -> io::Result<()> {
    let ack_id = if wide { 32 } else { 31 };
    let too_wide = wide.then_some(Refusal::WideField);
    let mut place = [FILL; 3];
    let answer = Answer::from(saying(Stype0::Accepted, ack_id, 31).write(&mut place));
    show_one(rt, "write", too_wide, answer, is_untouched(&place))?;
    let mut packet = [FILL; 8];
    let answer = Answer::from(header::stamp(&mut packet, ack_id));
    show_one(rt, "stamp", too_wide, answer, is_untouched(&packet))?;
    let answer = Answer::from(Symbol::read(&place).map(|_| ()));
    show_one(rt, "read", wide.then_some(Refusal::Unsound), answer, true)
}

// Putting to a queue: it is full.
fn try_put(rt: &HostRuntime, queue: &mut Queue<u8>) -> io::Result<()> {
    let before = queue.len();
    let full = (before >= queue.places()).then_some(Refusal::QueueFull);
    let answer = Answer::from(queue.put(FILL));
    show_one(rt, "queue put", full, answer, queue.len() == before)
}

// Taking from a queue: it is empty.
fn try_take(rt: &HostRuntime, queue: &mut Queue<u8>) -> io::Result<()> {
    let before = queue.len();
    let empty = (before == 0).then_some(Refusal::Nothing);
    let answer = Answer::from(queue.take().map(|_| ()));
    show_one(rt, "queue take", empty, answer, queue.len() == before)
}

// A queue of one place, or of none.
fn try_queue(rt: &HostRuntime, places: &mut [u8]) -> io::Result<()> {
    let mut queue = Queue::new(places);
    try_put(rt, &mut queue)?;
    try_put(rt, &mut queue)?;
    try_take(rt, &mut queue)?;
    try_take(rt, &mut queue)
}

// A line of a script, or something else. That there is no memory is no answer of a script, and printed as none.
fn try_line(rt: &HostRuntime, heap: Global, line: &str, other: bool) -> io::Result<()> {
    let no_line = other.then_some(Refusal::NoSuchLine);
    let answer = match read(heap, line.as_bytes()) {
        Ok(_) => Answer::Done,
        Err(ReadError::Refused(refusal)) => Answer::from(refusal),
        Err(ReadError::Memory) => Answer::Unchanged,
    };
    show_one(rt, "line", no_line, answer, true)
}

pub(crate) fn trial(rt: &HostRuntime) -> io::Result<()> {
    show::title(rt, "what the other calls refuse")?;
    for first in [false, true] {
        for second in [false, true] {
            try_seal(rt, first, second)?;
            try_open(rt, first, second)?;
        }
        try_fields(rt, first)?;
    }
    try_queue(rt, &mut [0])?;
    try_queue(rt, &mut [])?;
    try_line(rt, rt.alloc(), "s\ta", false)?;
    for line in [
        "", "s", "s\tc", "s\ta\t", "h\ta", "h\ta\t0", "p\tb\t", "x\ta",
    ] {
        try_line(rt, rt.alloc(), line, true)?;
    }
    Ok(())
}
