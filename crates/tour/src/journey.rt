// A strip crosses a noisy link: the packet is lost on its first way, and a time-out, a request and a response recover it.
use crate::frames::show;
use crate::strip::load;
use lane::noisy::{Fate, Noisy};
use lane::steady::Steady;
use lane::{FRAME, Lane};
use link::Link;
use link::call::{Call, Outcome};
use port::memory::Memory;
use rules::state::{PortId, Received};
use std::io;

fn show_outcome(rt: &impl Print, step: &str, outcome: Outcome, held: usize) -> io::Result<()> {
    match outcome {
        Outcome::Submitted => println!(rt; "{step} the strip: {held} held"),
        Outcome::Sent(sent) => println!(rt; "{step} a {sent}: {held} held"),
        Outcome::Received(Received::Unsound) => {
            println!(rt; "{step} an unsound frame: {held} held")
        }
        Outcome::Received(received) => println!(rt; "{step} a {received}: {held} held"),
        Outcome::Collected(length) => println!(rt; "{step} {length} bytes"),
        Outcome::TimedOut(true) => println!(rt; "{step}: a request is owed"),
        Outcome::TimedOut(false) => println!(rt; "{step}: nothing is overdue"),
    }
}

// Makes a call at a port, and prints what came of it.
fn take_step<A: Lane, B: Lane>(
    rt: &impl Print,
    link: &mut Link<A, B>,
    at: PortId,
    call: Call,
    step: &str,
) -> io::Result<()> {
    let outcome = link.perform(at, call, &load(), &mut [0; FRAME]);
    show(rt, step, outcome, |outcome| {
        show_outcome(rt, step, outcome, link.held(at))
    })
}

// The packet goes out and is lost; a time-out asks b where it stands.
fn lose<A: Lane, B: Lane>(rt: &impl Print, link: &mut Link<A, B>) -> io::Result<()> {
    take_step(rt, link, PortId::A, Call::Submit, "a submits")?;
    take_step(rt, link, PortId::A, Call::Send, "a sends")?;
    take_step(rt, link, PortId::B, Call::Receive, "b receives")?;
    take_step(rt, link, PortId::A, Call::TimeOut, "a times out")?;
    take_step(rt, link, PortId::A, Call::Send, "a sends")?;
    take_step(rt, link, PortId::B, Call::Receive, "b receives")
}

// The response has a send the packet again, and this time it comes through.
fn recover<A: Lane, B: Lane>(rt: &impl Print, link: &mut Link<A, B>) -> io::Result<()> {
    take_step(rt, link, PortId::B, Call::Send, "b sends")?;
    take_step(rt, link, PortId::A, Call::Receive, "a receives")?;
    take_step(rt, link, PortId::A, Call::Send, "a sends")?;
    take_step(rt, link, PortId::B, Call::Receive, "b receives")?;
    take_step(rt, link, PortId::B, Call::Collect, "b collects")?;
    take_step(rt, link, PortId::B, Call::Send, "b sends")?;
    take_step(rt, link, PortId::A, Call::Receive, "a receives")
}

pub(crate) fn tour(rt: &impl Print) -> io::Result<()> {
    let mut memory_a = Memory::unused();
    let mut memory_b = Memory::unused();
    let mut link = Link::new(
        memory_a.port(),
        memory_b.port(),
        Noisy::new(Steady::new()),
        Noisy::new(Steady::new()),
    );
    link.set_plan(PortId::A, &[Fate::Lose]);
    lose(rt, &mut link)?;
    recover(rt, &mut link)
}
