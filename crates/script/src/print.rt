// The lines that the bench prints.
ghost use Rattle.std.specs.Prelude.{◌≡◌, IfOk, MatchResult, Some, string_bytes};
ghost use Rattle.script.specs.declared.print.Answer.TheVariants.{Done, Length, Sent as SentAnswer, Received as ReceivedAnswer, Refused};
ghost use Rattle.script.specs.Printed.{word_of, header_line, row_of, refused_row};

use crate::call::{Call, Letter};
use refusal::Refusal;
use rules::state::{PortId, Received, Sent};
use std::alloc::{AllocError, Global};
use std::fmt;

// What a call of a script came to. A refusal is one of its variants, since it is printed in the same place as the other answers.
#[derive(Clone, Copy, Debug)]
pub enum Answer {
    // a load is held, or a plan is set
    Done,
    // a time-out: the port owes a request
    Owing,
    // a time-out that changed nothing
    Unchanged,
    // a packet of this length was collected
    Length(usize),
    Sent(Sent),
    Received(Received),
    Refused(Refusal),
}

impl fmt::Display for Answer {
    ghost output = { λ answer. Some (word_of answer) };

    fn fmt<W: fmt::Write>(&self, f: &mut fmt::Formatter<W>) -> fmt::Result {
        match self {
            Answer::Done => write!(f, "ok"),
            Answer::Owing => write!(f, "owing"),
            Answer::Unchanged => write!(f, "none"),
            Answer::Length(length) => write!(f, "{length}"),
            Answer::Sent(sent) => write!(f, "{sent}"),
            Answer::Received(received) => write!(f, "{received}"),
            Answer::Refused(refusal) => write!(f, "{refusal}"),
        }
    }
}

impl From<()> for Answer {
    ghost from_gives = { λ _ answer. answer ≡ Done };

    fn from(_done: ()) -> Answer {
        Answer::Done
    }
}

impl From<usize> for Answer {
    ghost from_gives = { λ length answer. answer ≡ Length length };

    fn from(length: usize) -> Answer {
        Answer::Length(length)
    }
}

impl From<Sent> for Answer {
    ghost from_gives = { λ sent answer. answer ≡ SentAnswer sent };

    fn from(sent: Sent) -> Answer {
        Answer::Sent(sent)
    }
}

impl From<Received> for Answer {
    ghost from_gives = { λ received answer. answer ≡ ReceivedAnswer received };

    fn from(received: Received) -> Answer {
        Answer::Received(received)
    }
}

impl From<Refusal> for Answer {
    ghost from_gives = { λ refusal answer. answer ≡ Refused refusal };

    fn from(refusal: Refusal) -> Answer {
        Answer::Refused(refusal)
    }
}

// What a call answers, and why it was refused where it was.
impl<T: Into<Answer>> From<Result<T, Refusal>> for Answer {
    ghost from_gives = { λ answered answer. MatchResult answered (λ x. T.converts x answer) (λ refusal. answer ≡ Refused refusal) };

    fn from(answered: Result<T, Refusal>) -> Answer {
        match answered {
            Ok(answer) => answer.into(),
            Err(refusal) => Answer::Refused(refusal),
        }
    }
}

// The line above all others.
pub fn header() -> &'static str
    ensures { result.now ≡ header_line }
{
    "n\tcall\tend\tanswer\theld"
}

// The line for a call that was made, whatever it came to.
pub fn row(
    heap: Global,
    number: usize,
    call: Call,
    port: PortId,
    answer: Answer,
    held: usize,
) -> Result<String, AllocError>
    ensures { IfOk result (λ line. string_bytes line ≡ row_of number call port answer held) }
{
    let letter = call.letter();
    let end = port.letter();
    format!(in heap; "{number}\t{letter}\t{end}\t{answer}\t{held}")
}

// The line for a line that was refused.
pub fn refused_row(heap: Global, number: usize) -> Result<String, AllocError>
    ensures { IfOk result (λ line. string_bytes line ≡ refused_row number) }
{
    let answer = Answer::Refused(Refusal::NoSuchLine);
    format!(in heap; "{number}\t-\t-\t{answer}\t-")
}
