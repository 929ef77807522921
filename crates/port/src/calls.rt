// The calls of a port. What each answers and leaves is what the rules say; a refused call leaves all as it was.
ghost use Rattle.std.specs.Prelude.{◌≡◌, ◌<◌, length};
ghost use Rattle.rules.specs.Port.{fresh};
ghost use Rattle.port.specs.Model.{port_of};
ghost use Rattle.port.specs.Watched.{shown_of};
ghost use Rattle.port.specs.Promises.{Submits, Sends, Receives, Collects, TimesOut};

use crate::Port;
use crate::pending::PendingReply;
use crate::receiving::Receiving;
use crate::record::WaitingSlot;
use crate::sending::Sending;
use crate::sized::{Frame, SealableLoad};
use crate::slots::SEND_SLOTS;
use crate::snapshot::Snapshot;
use lane::{FRAME, Lane};
use packet::sealing;
use refusal::Refusal;
use rules::state::{Received, Sent};

impl<'r, 'w> Port<'r, 'w> {
    // A fresh port, whose queues of replies and of records of waiting packets have the memory lent here.
    pub fn new(replies: &'r mut [PendingReply], records: &'w mut [WaitingSlot]) -> Port<'r, 'w>
        ensures { port_of result ≡ fresh (record { replies = length replies.entry.now; packets = length records.old }) }
    {
        Port {
            sending: Sending::new(),
            receiving: Receiving::new(replies, records),
        }
    }

    // How many packets are held.
    pub fn held(&self) -> usize
        ensures { result ≡ length (port_of self.now).sender.held }
    {
        self.sending.held()
    }

    // What the port stands at.
    pub fn snapshot(&self) -> Snapshot
        ensures value { result ≡ shown_of (port_of self.now) }
        ensures within { result.expected < 32 }
    {
        let window = self.sending.window;
        Snapshot {
            held: self.held(),
            first: window.first,
            sent: window.sent,
            high: window.high,
            output: self.sending.output,
            input: self.receiving.input,
            expected: self.receiving.expected.value,
            pending: self.receiving.pending(),
            waiting: self.receiving.waiting(),
        }
    }

    // Seals a load and holds its packet, to be sent.
    // Refused with 1 where the load's length is odd, below 6 or above 272, then with 2 where 31 packets are held.
    pub fn submit(&mut self, load: &[u8]) -> Result<(), Refusal>
        ensures { Submits load.now (port_of self.old) result (port_of self.new) }
    {
        if !sealing::is_sealable(load.len()) {
            return Err(Refusal::LoadLength);
        }
        if self.held() >= SEND_SLOTS {
            return Err(Refusal::WindowFull);
        }
        self.sending.hold(SealableLoad { bytes: load });
        Ok(())
    }

    // Puts what is due, the first of a pending reply, a restart, a request and a packet, to a lane, by way of the front
    // of a buffer, and answers which it was.
    // Refused with 6 where the buffer has fewer than 276 bytes, then with 4 where nothing is due, then with 3 where the
    // lane is at its limit.
    pub fn send<L: Lane>(&mut self, lane: &mut L, buffer: &mut [u8]) -> Result<Sent, Refusal>
        ensures { Sends L.Lane.waiting L.Lane.LIMIT L.Lane.puts (port_of self.old) lane.old buffer.old result (port_of self.new) lane.new buffer.new }
    {
        let Some(front) = buffer.first_chunk_mut::<FRAME>() else {
            return Err(Refusal::ShortBuffer);
        };
        self.send_by(lane, front)
    }

    // Sends by way of a buffer of a frame's length.
    fn send_by<L: Lane>(&mut self, lane: &mut L, buffer: &mut [u8; FRAME]) -> Result<Sent, Refusal>
        ensures sends { Sends L.Lane.waiting L.Lane.LIMIT L.Lane.puts (port_of self.old) lane.old buffer.old result (port_of self.new) lane.new buffer.new }
        ensures whole { length buffer.new ≡ 276 }
    {
        let Some(what) = self.due() else {
            return Err(Refusal::Nothing);
        };
        if lane.count() >= L::LIMIT {
            return Err(Refusal::LaneFull);
        }
        let n = self.write_due(what, buffer);
        lane.put(&buffer[..n])?;
        Ok(what)
    }

    // Takes the oldest frame of a lane to the front of a buffer, does what it says, and answers what it was.
    // Refused with 6 where the buffer has fewer than 276 bytes, then with 5 where no place is left for a reply, then with
    // 4 where no frame waits.
    pub fn receive<L: Lane>(&mut self, lane: &mut L, buffer: &mut [u8]) -> Result<Received, Refusal>
        ensures { Receives L.Lane.waiting L.Lane.takes (port_of self.old) lane.old buffer.old result (port_of self.new) lane.new buffer.new }
    {
        if buffer.len() < FRAME {
            return Err(Refusal::ShortBuffer);
        }
        if self.receiving.replies_full() {
            return Err(Refusal::RepliesFull);
        }
        let n = lane.take(buffer)?;
        Ok(self.handle(Frame {
            bytes: &buffer[..n],
        }))
    }

    // Copies the oldest packet that waits to the front of a buffer, answers its length and removes it.
    // Refused with 6 where the buffer has fewer than 276 bytes, then with 4 where no packet waits.
    pub fn collect(&mut self, buffer: &mut [u8]) -> Result<usize, Refusal>
        ensures { Collects (port_of self.old) buffer.old result (port_of self.new) buffer.new }
    {
        let Some(front) = buffer.first_chunk_mut::<FRAME>() else {
            return Err(Refusal::ShortBuffer);
        };
        self.collect_to(front)
    }

    // Collects to a buffer of a frame's length.
    fn collect_to(&mut self, buffer: &mut [u8; FRAME]) -> Result<usize, Refusal>
        ensures collects { Collects (port_of self.old) buffer.old result (port_of self.new) buffer.new }
        ensures whole { length buffer.new ≡ 276 }
    {
        self.receiving.give(buffer)
    }

    // Has what was sent and stays unanswered asked for, and answers whether there was such.
    pub fn time_out(&mut self) -> bool
        ensures { TimesOut (port_of self.old) result (port_of self.new) }
    {
        self.sending.time_out()
    }
}
