// The five calls at a port of a link, and what they answer.
use rules::state::{Received, Sent};

// A call: what is asked of a port.
#[derive(Clone, Copy, Debug, PartialEq, Eq)]
pub enum Call {
    // seal a load and hold its packet
    Submit,
    // put what is due onto the lane
    Send,
    // take a frame from the lane
    Receive,
    // hand out the oldest packet that waits
    Collect,
    // ask for what was sent and stays unanswered
    TimeOut,
}

// What a call that was handled answers.
#[derive(Clone, Copy, Debug, PartialEq, Eq)]
pub enum Outcome {
    Submitted,
    Sent(Sent),
    Received(Received),
    // the packet's length
    Collected(usize),
    // whether a request is owed now, and was not before
    TimedOut(bool),
}
