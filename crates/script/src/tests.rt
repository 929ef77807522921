// Lines cut, read and printed by example.
use crate::call::{Call, Letter};
use crate::line::Line;
use crate::lines::{Lines, first_line};
use crate::print::{Answer, header, refused_row, row};
use crate::read::{ReadError, read};
use lane::noisy::Fate;
use refusal::Refusal;
use rules::state::{PortId, Received, Sent};
use std::alloc::Global;
use std::process::Abort;
use std::test::Fail;

// The first line of `script` is `line`, and `rest` follows it.
fn cuts(rt: &impl Abort, script: &str, line: &str, rest: &str) -> Result<(), Fail> {
    let first = first_line(script.as_bytes()).ok_or("no line")?;
    assert_eq!(rt; first.line, line.as_bytes());
    assert_eq!(rt; first.rest, rest.as_bytes());
    Ok(())
}

#[test]
fn scripts_fall_into_lines(rt: HostRuntime) -> Result<(), Fail> {
    assert!(rt; first_line(b"").is_none());
    for (script, line, rest) in [
        ("s\ta\nr\tb", "s\ta", "r\tb"),
        ("r\tb", "r\tb", ""),
        ("r\tb\n", "r\tb", ""),
        ("\n", "", ""),
        ("s\ta\r\n\n", "s\ta\r", "\n"),
    ] {
        cuts(&rt, script, line, rest)?;
    }
    Ok(())
}

#[test]
fn lines_come_one_after_another(rt: HostRuntime) -> Result<(), Fail> {
    let mut lines = Lines::of(b"s\ta\n\nr\tb");
    for line in ["s\ta", "", "r\tb"] {
        assert_eq!(rt; lines.next(), Some(line.as_bytes()));
    }
    assert!(rt; lines.next().is_none());
    Ok(())
}

// The call and the port that a line names.
fn names(rt: &impl Abort, heap: Global, line: &str, call: Call, port: PortId) -> Result<(), Fail> {
    let line = read(heap, line.as_bytes())?;
    assert_eq!(rt; line.call().letter(), call.letter());
    assert_eq!(rt; line.port(), port);
    Ok(())
}

#[test]
fn calls_are_read(rt: HostRuntime) -> Result<(), Fail> {
    for (line, call, port) in [
        ("h\ta\t000000000000", Call::Submit, PortId::A),
        ("s\ta", Call::Send, PortId::A),
        ("r\tb", Call::Receive, PortId::B),
        ("c\tb", Call::Collect, PortId::B),
        ("o\ta", Call::TimeOut, PortId::A),
        ("p\tb\tk", Call::Plan, PortId::B),
    ] {
        names(&rt, rt.alloc(), line, call, port)?;
    }
    Ok(())
}

#[test]
fn other_forms_are_refused(rt: HostRuntime) -> Result<(), Fail> {
    for line in [
        "",
        "h",
        "h\ta",
        "h\ta\t0",
        "h\ta\t0g",
        "h\ta\t00\t",
        "h\tc\t00",
        "s",
        "s\t",
        "s\tab",
        "s\ta\t",
        "s\ta\r",
        "S\ta",
        "s a",
        "p\ta",
        "p\ta\t",
        "p\ta\tx",
        "p\ta\tk\t",
        "x\ta",
        "\ts\ta",
    ] {
        match read(rt.alloc(), line.as_bytes()) {
            Ok(_) => return Err(Fail::new("a line was read")),
            Err(e) => assert_eq!(rt; e, ReadError::Refused(Refusal::NoSuchLine)),
        }
    }
    Ok(())
}

// The load of a line that submits one.
fn submits(rt: &impl Abort, heap: Global, line: &str, expected: &[u8]) -> Result<(), Fail> {
    match read(heap, line.as_bytes())? {
        Line::Submit(_, load) => {
            assert_eq!(rt; load.as_slice(), expected);
            Ok(())
        },
        _ => Err(Fail::new("no load")),
    }
}

#[test]
fn loads_are_pairs_of_digits(rt: HostRuntime) -> Result<(), Fail> {
    submits(&rt, rt.alloc(), "h\ta\t", b"")?;
    submits(&rt, rt.alloc(), "h\tb\t09aAfF5C", &[0x09, 0xaa, 0xff, 0x5c])
}

// The plan of a line that gives one.
fn plan_of(heap: Global, line: &str) -> Result<[Fate; 64], Fail> {
    match read(heap, line.as_bytes())? {
        Line::Plan(_, plan) => Ok(plan),
        _ => Err(Fail::new("no plan")),
    }
}

#[test]
fn plans_keep_after_their_letters(rt: HostRuntime) -> Result<(), Fail> {
    let plan = plan_of(rt.alloc(), "p\ta\tlsk")?;
    assert_eq!(rt;
        &plan[0..4],
        [Fate::Lose, Fate::Spoil, Fate::Keep, Fate::Keep].as_slice()
    );
    assert_eq!(rt; plan[63], Fate::Keep);
    let whole = "p\ta\tllllllllllllllllllllllllllllllllllllllllllllllllllllllllllllllls";
    assert_eq!(rt; plan_of(rt.alloc(), whole)?[63], Fate::Spoil);
    let longer = "p\ta\tlllllllllllllllllllllllllllllllllllllllllllllllllllllllllllllllll";
    assert!(rt; read(rt.alloc(), longer.as_bytes()).is_err());
    Ok(())
}

// The line that is printed for an answer to a send at port a has the word for it.
fn prints(rt: &impl Abort, heap: Global, answer: Answer, word: &str) -> Result<(), Fail> {
    let line = format!(in heap; "10\ts\ta\t{word}\t31")?;
    assert_eq!(rt; row(heap, 10, Call::Send, PortId::A, answer, 31)?, line);
    Ok(())
}

#[test]
fn answers_are_printed(rt: HostRuntime) -> Result<(), Fail> {
    for (answer, word) in [
        (Answer::Done, "ok"),
        (Answer::Owing, "owing"),
        (Answer::Unchanged, "none"),
        (Answer::Length(276), "276"),
        (Answer::Sent(Sent::Reply), "reply"),
        (Answer::Sent(Sent::Restart), "restart"),
        (Answer::Sent(Sent::Request), "request"),
        (Answer::Sent(Sent::Packet), "packet"),
        (Answer::Received(Received::Symbol), "symbol"),
        (Answer::Received(Received::Packet), "packet"),
        (Answer::Received(Received::Unsound), "unsound"),
        (Answer::Refused(Refusal::QueueFull), "no-11"),
    ] {
        prints(&rt, rt.alloc(), answer, word)?;
    }
    Ok(())
}

#[test]
fn what_calls_answer_is_printed(rt: HostRuntime) -> Result<(), Fail> {
    let heap = rt.alloc();
    prints(&rt, heap, Answer::from(Ok(())), "ok")?;
    prints(&rt, heap, Answer::from(Ok(276usize)), "276")?;
    prints(&rt, heap, Answer::from(Ok(Sent::Restart)), "restart")?;
    prints(&rt, heap, Answer::from(Ok(Received::Unsound)), "unsound")?;
    prints(&rt, heap, Answer::from(Refusal::LaneFull), "no-3")?;
    let refused: Result<usize, Refusal> = Err(Refusal::Nothing);
    prints(&rt, heap, Answer::from(refused), "no-4")
}

#[test]
fn other_lines_are_printed(rt: HostRuntime) -> Result<(), Fail> {
    assert_eq!(rt; header(), "n\tcall\tend\tanswer\theld");
    assert_eq!(rt; refused_row(rt.alloc(), 7)?.as_str(), "7\t-\t-\tno-12\t-");
    assert_eq!(rt;
        row(
            rt.alloc(),
            4,
            Call::Collect,
            PortId::B,
            Answer::Length(8),
            0,
        )?
        .as_str(),
        "4\tc\tb\t8\t0"
    );
    Ok(())
}
