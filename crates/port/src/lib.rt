// A port: one end of a serial link (RapidIO Part 6, revision 1.3), with 31 slots for packets held until they are acknowledged
// and 8 for packets that wait to be collected, each of 276 bytes; its two queues stand in memory that its user lends.
// Promised: each of the five calls, submit, send, receive, collect and time_out, answers what the rules say, and leaves the
// port, the lane and the buffer as they say, whatever the lane; a refused call leaves all three as they were.
// No call asks anything of its caller.
#![tactic(auto)]

mod ack;
mod calls;
mod due;
mod handling;
pub mod memory;
pub mod pending;
mod receiving;
pub mod record;
mod sending;
mod sized;
mod slot;
mod slots;
pub mod snapshot;
mod window;
mod wire;

use receiving::Receiving;
use sending::Sending;

// A port: what it sends, and what it receives.
#[derive(Drop)]
pub struct Port<'r, 'w> {
    sending: Sending,
    receiving: Receiving<'r, 'w>,
}
