// Why a call is refused. Every call of the link library that can refuse answers one of these,
// and each stands for one number, by which the bench prints it. A refused call changes nothing.
#![tactic(auto)]

ghost use Rattle.std.specs.Prelude.{◌≤◌, Some};
ghost use Rattle.refusal.specs.Naming.{Tells};
ghost use Rattle.refusal.specs.Numbers.{number_of, refusal_word};

use std::error::Error;
use std::fmt;

#[derive(Clone, Copy, Debug, PartialEq, Eq)]
pub enum Refusal {
    // a load's length is odd, below 6 or above 272
    LoadLength = 1,
    // the port holds 31 packets already
    WindowFull = 2,
    // as many frames wait in the lane as its limit allows
    LaneFull = 3,
    // there is nothing to send, receive, collect or take
    Nothing = 4,
    // the queue of replies has no place for one more
    RepliesFull = 5,
    // the buffer has fewer than 276 bytes
    ShortBuffer = 6,
    // a frame has no byte, or more than 276
    FrameLength = 7,
    // a value does not fit the bits of its field
    WideField = 8,
    // the bytes do not pass their check
    Unsound = 9,
    // no load of the stated length seals to a packet of this length
    NoSuchLoad = 10,
    // the queue has no free place
    QueueFull = 11,
    // the line is none of the bench's
    NoSuchLine = 12,
}

impl Refusal {
    // The refusal's number, 1 to 12, which tells it from every other. It is a method, since a conversion would not say that it is
    // the number by which users know the refusal.
    pub fn number(self) -> u8
        ensures tells { Tells number_of self result }
        ensures within { (1 ≤ result) × (result ≤ 12) }
    {
        self as u8
    }
}

impl fmt::Display for Refusal {
    ghost output = { λ refusal. Some (refusal_word refusal) };

    fn fmt<W: fmt::Write>(&self, f: &mut fmt::Formatter<W>) -> fmt::Result {
        let number = self.number();
        write!(f, "no-{number}")
    }
}

impl Error for Refusal {}
