// The lines that the trials print, with answers in the bench's words.
use port::snapshot::Snapshot;
use refusal::Refusal;
use script::print::Answer;
use std::{fmt, io};

// The name of a trial.
pub(crate) fn title(rt: &HostRuntime, name: &str) -> io::Result<()> {
    println!(rt; "# {name}")
}

// What a call with some number answered, and where it left the port.
pub(crate) fn step(
    rt: &HostRuntime,
    call: &str,
    number: u8,
    answer: Answer,
    port: Snapshot,
) -> io::Result<()> {
    println!(rt; "{call} {number}\t{answer}\t{port:?}")
}

// How many did one thing, and how many another.
pub(crate) fn counts(
    rt: &HostRuntime,
    what: &str,
    number: u8,
    ones: usize,
    others: usize,
) -> io::Result<()> {
    println!(rt; "{what} {number}\t{ones}\t{others}")
}

// A ground to refuse a call, where it holds.
#[derive(Clone, Copy)]
struct Ground(Option<Refusal>);

impl fmt::Display for Ground {
    fn fmt<W: fmt::Write>(&self, f: &mut fmt::Formatter<W>) -> fmt::Result {
        match self.0 {
            Some(refusal) => write!(f, "{}", refusal.number()),
            None => write!(f, "-"),
        }
    }
}

// What a call answered of which some of three grounds to refuse it held, and whether it left all as it was.
pub(crate) fn grounds(
    rt: &HostRuntime,
    call: &str,
    grounds: [Option<Refusal>; 3],
    answer: Answer,
    unchanged: bool,
) -> io::Result<()> {
    let [first, second, third] = grounds.map(Ground);
    let left = if unchanged { "unchanged" } else { "changed" };
    println!(rt; "{call}\t{first}\t{second}\t{third}\t{answer}\t{left}")
}
