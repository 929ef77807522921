// What a slot's packet is written by, and read.
ghost use Rattle.std.specs.Prelude.{◌≡◌, ◌≤◌, ◌++◌, length, take, drop};
ghost use Rattle.packet.specs.Crc.{cleared_of};
ghost use Rattle.packet.specs.Sealing.{sealed_of, written_over};
ghost use Rattle.port.specs.Slots.{packet_in};

use super::Slot;
use crate::sized::{Frame, SealableLoad};
use lane::FRAME;
use packet::{header, sealing};

// Copies `from` to the front of `to`, which keeps what is behind. It stands alone since the check knows nothing of what a slot
// holds after a write through a part of it that was lent inside the slot's own method.
fn copy_to(to: &mut [u8], from: &[u8])
    requires { length from.now ≤ length to.old }
    ensures { to.new ≡ written_over from.now to.old }
{
    to[..from.len()].copy_from_slice(from);
}

impl Slot {
    pub(crate) fn new() -> Slot {
        Slot {
            bytes: [0; FRAME],
            len: 1,
        }
    }

    // Writes the packet that a load is sealed to.
    pub(crate) fn seal(&mut self, load: SealableLoad<'_>)
        ensures { packet_in self.new ≡ sealed_of load.entry.bytes.now }
    {
        if let Ok(n) = sealing::seal(load.bytes, &mut self.bytes) {
            self.len = n;
        }
    }

    // Writes a packet that came, its first six bits set to zero.
    pub(crate) fn store(&mut self, packet: Frame<'_>)
        ensures packet { packet_in self.new ≡ cleared_of packet.entry.bytes.now }
        ensures len { self.new.len ≡ length packet.entry.bytes.now }
    {
        copy_to(&mut self.bytes, packet.bytes);
        header::clear(&mut self.bytes);
        self.len = packet.bytes.len();
    }

    // Copies the first n bytes to the front of a buffer.
    pub(crate) fn copy_front(&self, n: usize, buffer: &mut [u8; FRAME])
        requires { n ≤ 276 }
        ensures bytes { buffer.new ≡ take n self.now.bytes ++ drop n buffer.old }
        ensures len { length (take n self.now.bytes) ≡ n }
    {
        buffer[..n].copy_from_slice(&self.bytes[..n]);
    }

    // Copies the packet to the front of a buffer and answers its length. It says in numbers that this is a frame's length: a frame lent
    // from the buffer would keep the buffer from being written on.
    pub(crate) fn copy_out(&self, buffer: &mut [u8; FRAME]) -> usize
        ensures len { result ≡ length (packet_in self.now) }
        ensures bounds { (1 ≤ result) × (result ≤ 276) }
        ensures bytes { buffer.new ≡ written_over (packet_in self.now) buffer.old }
    {
        self.copy_front(self.len, buffer);
        self.len
    }
}
