// Playing a script, line by line.
ghost use Rattle.std.specs.Prelude.{◌≡◌, IfOk, string_bytes};
ghost use Rattle.script.specs.Said.{said_by};
ghost use Rattle.bench.specs.Answers.{answer_of};
ghost use Rattle.bench.specs.Playing.{Plays, Prints};

use lane::noisy::Noisy;
use lane::steady::Steady;
use lane::{FRAME, Lane};
use link::Link;
use link::call::{Call, Outcome};
use port::memory::Memory;
use refusal::Refusal;
use script::line::Line;
use script::lines::Lines;
use script::print::{Answer, header, refused_row, row};
use script::read::{ReadError, read};
use std::alloc::{AllocError, Global};

// What a call came to, as the bench prints it. Both types are other crates', so it is no `From`.
fn answer_of(outcome: Result<Outcome, Refusal>) -> Answer
    ensures { result ≡ answer_of outcome }
{
    match outcome {
        Ok(Outcome::Submitted) => Answer::Done,
        Ok(Outcome::Sent(sent)) => Answer::Sent(sent),
        Ok(Outcome::Received(received)) => Answer::Received(received),
        Ok(Outcome::Collected(length)) => Answer::Length(length),
        Ok(Outcome::TimedOut(true)) => Answer::Owing,
        Ok(Outcome::TimedOut(false)) => Answer::Unchanged,
        Err(refusal) => Answer::Refused(refusal),
    }
}

// Does what a line says.
fn perform<A: Lane, B: Lane>(
    link: &mut Link<Noisy<A>, Noisy<B>>,
    line: &Line,
    buffer: &mut [u8],
) -> Answer
    ensures { Plays A.Lane.waiting B.Lane.waiting A.Lane.LIMIT B.Lane.LIMIT (said_by line.now) link.old buffer.old result link.new buffer.new }
{
    let at = line.port();
    let (call, load): (Call, &[u8]) = match line {
        Line::Submit(_, load) => (Call::Submit, load.as_slice()),
        Line::Send(_) => (Call::Send, &[]),
        Line::Receive(_) => (Call::Receive, &[]),
        Line::Collect(_) => (Call::Collect, &[]),
        Line::TimeOut(_) => (Call::TimeOut, &[]),
        Line::Plan(_, plan) => {
            link.set_plan(at, plan);
            return Answer::Done;
        }
    };
    answer_of(link.perform(at, call, load, buffer))
}

// Plays one line of a script, and answers what is printed for it.
fn play_line<A: Lane, B: Lane>(
    heap: Global,
    link: &mut Link<Noisy<A>, Noisy<B>>,
    number: usize,
    text: &[u8],
) -> Result<String, AllocError>
    ensures { IfOk result (λ printed. Prints A.Lane.waiting B.Lane.waiting A.Lane.LIMIT B.Lane.LIMIT number text.now link.old (string_bytes printed) link.new) }
{
    match read(heap, text) {
        Ok(line) => {
            let mut buffer = [0; FRAME];
            let answer = perform(link, &line, &mut buffer);
            let at = line.port();
            row(heap, number, line.call(), at, answer, link.held(at))
        }
        Err(ReadError::Refused(_)) => refused_row(heap, number),
        Err(ReadError::Memory) => Err(AllocError),
    }
}

// Plays a script on a link, and prints a line for each of its lines.
fn play_on<A: Lane, B: Lane>(
    rt: &HostRuntime,
    link: &mut Link<Noisy<A>, Noisy<B>>,
    script: &[u8],
) -> anyhow::Result<()> {
    for (number, text) in (1..).zip(Lines::of(script)) {
        let printed = play_line(rt.alloc(), link, number, text)?;
        println!(rt; "{printed}")?;
    }
    Ok(())
}

// Plays a script on a fresh link.
pub(crate) fn play(rt: &HostRuntime, script: &[u8]) -> anyhow::Result<()> {
    let mut memory_a = Memory::unused();
    let mut memory_b = Memory::unused();
    let mut link = Link::new(
        memory_a.port(),
        memory_b.port(),
        Noisy::new(Steady::new()),
        Noisy::new(Steady::new()),
    );
    let names = header();
    println!(rt; "{names}")?;
    play_on(rt, &mut link, script)
}
