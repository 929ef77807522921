// The states of a port, what it replies, and what its calls answer.
ghost use Rattle.std.specs.Prelude.{Some};
ghost use Rattle.rules.specs.Words.{sent_word, received_word};

use std::fmt;
use symbol::codes::{Cause, PortStatus};

// One of a link's two ports.
#[derive(Clone, Copy, Debug, PartialEq, Eq)]
pub enum PortId {
    A,
    B,
}

// Whether a port takes the packets that come.
#[derive(Clone, Copy, Debug, PartialEq, Eq)]
pub enum Input {
    // it takes the packet that it expects
    Ready,
    // a packet found no free slot: nothing is taken until a restart
    RetryStopped,
    // a frame was unsound or out of order: nothing is taken until a request
    ErrorStopped,
}

// Whether a port sends its packets.
#[derive(Clone, Copy, Debug, PartialEq, Eq)]
pub enum Output {
    // packets go out, one after another
    Running,
    // the other port asked for a retry: a restart goes out next
    RetryStopped,
    // something went wrong: a request for the other input's state goes out next
    OwingRequest,
    // the request went out
    AwaitingResponse,
    // the two ports no longer agree
    Failed,
}

// What a port tells the other of its packets, fixed when it is pended.
#[derive(Clone, Copy, Debug, PartialEq, Eq)]
pub enum Reply {
    // the packet with this ackID waits to be collected
    Accepted(u8),
    // there was no free slot: send again from this ackID on
    Retry(u8),
    // a frame was refused, while this ackID was expected
    NotAccepted(u8, Cause),
    // the state of the input, and the ackID that it expects
    Response(u8, PortStatus),
}

// What a send put onto the lane.
#[derive(Clone, Copy, Debug, PartialEq, Eq)]
pub enum Sent {
    Reply,
    Restart,
    Request,
    Packet,
}

impl fmt::Display for Sent {
    ghost output = { λ sent. Some (sent_word sent) };

    fn fmt<W: fmt::Write>(&self, f: &mut fmt::Formatter<W>) -> fmt::Result {
        match self {
            Sent::Reply => write!(f, "reply"),
            Sent::Restart => write!(f, "restart"),
            Sent::Request => write!(f, "request"),
            Sent::Packet => write!(f, "packet"),
        }
    }
}

// What a receive found in the frame that it took.
#[derive(Clone, Copy, Debug, PartialEq, Eq)]
pub enum Received {
    Symbol,
    Packet,
    Unsound,
}

impl fmt::Display for Received {
    ghost output = { λ received. Some (received_word received) };

    fn fmt<W: fmt::Write>(&self, f: &mut fmt::Formatter<W>) -> fmt::Result {
        match self {
            Received::Symbol => write!(f, "symbol"),
            Received::Packet => write!(f, "packet"),
            Received::Unsound => write!(f, "unsound"),
        }
    }
}
