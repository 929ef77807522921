// What a port stands at, in numbers and states, for whoever watches it.
use rules::state::{Input, Output};

#[derive(Clone, Copy, Debug, PartialEq, Eq)]
pub struct Snapshot {
    // the packets held, the ackID of the first of them, and how many were sent since the last rewind and ever
    pub held: usize,
    pub first: u8,
    pub sent: u8,
    pub high: u8,
    pub output: Output,
    pub input: Input,
    // the ackID of the packet that is to come
    pub expected: u8,
    // the replies that have yet to go out, and the packets that have yet to be collected
    pub pending: usize,
    pub waiting: usize,
}
