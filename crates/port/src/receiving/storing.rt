// The packets that wait, in their slots.
ghost use Rattle.std.specs.Prelude.{◌≡◌, ◌<◌, ◌≤◌, length};
ghost use Rattle.fifo.specs.Held.{queued};
ghost use Rattle.packet.specs.Crc.{cleared_of};
ghost use Rattle.rules.specs.Port.{Places, fresh, has_slot};
ghost use Rattle.rules.specs.Calls.{keeping};
ghost use Rattle.port.specs.Waiting.{receiver_of, places_in};
ghost use Rattle.port.specs.Inner.{is_named, FindsFree, stored, Gives};

use super::Receiving;
use crate::ack::AckId;
use crate::pending::PendingReply;
use crate::record::WaitingSlot;
use crate::sized::Frame;
use crate::slots::{RECEIVE_SLOTS, Slots};
use fifo::Queue;
use lane::FRAME;
use refusal::Refusal;
use rules::state::Input;

// Whether one of some records names a slot.
fn names(records: &[WaitingSlot], slot: u8) -> bool
    ensures { result ≡ is_named slot records.now }
{
    records.iter().any(|record| record.slot == slot)
}

// Whether a record in a queue does.
fn is_named(records: &Queue<'_, WaitingSlot>, slot: u8) -> bool
    ensures { result ≡ is_named slot (queued records.now) }
{
    let (older, newer) = records.as_slices();
    names(older, slot) || names(newer, slot)
}

// A slot that no record names. There is one unless eight packets wait.
fn free_slot(records: &Queue<'_, WaitingSlot>) -> Option<u8>
    ensures { FindsFree (queued records.now) result }
{
    if records.len() >= RECEIVE_SLOTS {
        return None;
    }
    (0..RECEIVE_SLOTS as u8).find(|slot| !is_named(records, *slot))
}

impl<'r, 'w> Receiving<'r, 'w> {
    pub(crate) fn new(
        replies: &'r mut [PendingReply],
        records: &'w mut [WaitingSlot],
    ) -> Receiving<'r, 'w>
        ensures receiver { (places : Places) → receiver_of result ≡ (fresh places).receiver }
        ensures replies { (places_in result).replies ≡ length replies.old }
        ensures packets { (places_in result).packets ≡ length records.old }
    {
        Receiving {
            input: Input::Ready,
            expected: AckId::zero(),
            replies: Queue::new(replies),
            records: Queue::new(records),
            slots: Slots::new(),
        }
    }

    // How many packets wait.
    pub(crate) fn waiting(&self) -> usize
        ensures { result ≡ length (receiver_of self.now).waiting }
    {
        self.records.len()
    }

    // Stores a packet, its first six bits set to zero, where there is a free slot and a place for its record. Whether there is
    // one is a yes or no, as the rules ask it, and no refusal.
    pub(crate) fn store(&mut self, packet: Frame<'_>) -> bool
        ensures answer { result ≡ has_slot (places_in self.old) (receiver_of self.old).waiting }
        ensures receiver { receiver_of self.new ≡ keeping (stored result (cleared_of packet.entry.bytes.now) (receiver_of self.old).waiting) (receiver_of self.old) }
        ensures places { places_in self.new ≡ places_in self.old }
    {
        let Some(slot) = free_slot(&self.records) else {
            return false;
        };
        let record = WaitingSlot {
            slot,
            len: packet.bytes.len() as u16,
        };
        match self.records.put(record) {
            Ok(()) => {
                self.slots.store(slot as usize, packet);
                true
            }
            Err(_) => false,
        }
    }

    // Copies the oldest packet to the front of a buffer, answers its length and removes it. Refused with 4 where none waits.
    pub(crate) fn give(&mut self, buffer: &mut [u8; FRAME]) -> Result<usize, Refusal>
        ensures gives { Gives (receiver_of self.old).waiting buffer.old result (receiver_of self.new).waiting buffer.new }
        ensures receiver { receiver_of self.new ≡ keeping (receiver_of self.new).waiting (receiver_of self.old) }
        ensures places { places_in self.new ≡ places_in self.old }
    {
        let record = self.records.take()?;
        let len = record.len as usize;
        self.slots.copy_front(record.slot as usize, len, buffer);
        Ok(len)
    }
}
