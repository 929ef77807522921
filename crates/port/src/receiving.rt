// The receiving half of a port: which packet it expects, the replies that have yet to go out, and the packets that wait
// to be collected.
use crate::ack::AckId;
use crate::pending::PendingReply;
use crate::record::WaitingSlot;
use crate::slots::{RECEIVE_SLOTS, Slots};
use fifo::Queue;
use rules::state::Input;

pub mod hearing;
pub mod storing;

// Each record names the slot of a packet that waits. Every value is a receiving half: a packet is stored in a slot that no
// record names, so that it never takes another's place.
#[derive(Drop)]
pub struct Receiving<'r, 'w> {
    pub(crate) input: Input,
    pub(crate) expected: AckId,
    replies: Queue<'r, PendingReply>,
    records: Queue<'w, WaitingSlot>,
    slots: Slots<RECEIVE_SLOTS>,
}
