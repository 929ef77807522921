// The slots of a port, each written in its place.
ghost use Rattle.std.specs.Prelude.{◌≡◌, ℕ, ◌<◌, ◌≤◌, [], ◌++◌, length, drop, ◌≢◌, slice_index_or, slice_set};
ghost use Rattle.packet.specs.Crc.{cleared_of};
ghost use Rattle.packet.specs.Sealing.{sealed_of, written_over};
ghost use Rattle.port.specs.Slots.{packets_in, front_in};

use crate::sized::{Frame, SealableLoad};
use crate::slot::Slot;
use lane::FRAME;

// How many slots there are for packets held, and for packets that wait to be collected.
pub const SEND_SLOTS: usize = 31;

pub const RECEIVE_SLOTS: usize = 8;

// N slots, each named by its place.
#[derive(Clone, Copy)]
pub struct Slots<const N: usize> {
    all: [Slot; N],
}

impl<const N: usize> Slots<N> {
    pub(crate) fn new() -> Slots<N>
        ensures { length result.all ≡ N }
    {
        Slots {
            all: [Slot::new(); N],
        }
    }

    // Seals a load in the slot i.
    pub(crate) fn seal(&mut self, i: usize, load: SealableLoad<'_>)
        requires { i < N }
        ensures places { length self.new.all ≡ length self.old.all }
        ensures sealed { packets_in self.new ≡ slice_set (packets_in self.old) i (sealed_of load.entry.bytes.now) }
    {
        self.all[i].seal(load);
    }

    // Copies the packet in the slot i to the front of a buffer and answers its length.
    pub(crate) fn copy_out(&self, i: usize, buffer: &mut [u8; FRAME]) -> usize
        requires { i < N }
        ensures len { result ≡ length (slice_index_or (packets_in self.now) i []) }
        ensures bounds { (1 ≤ result) × (result ≤ 276) }
        ensures bytes { buffer.new ≡ written_over (slice_index_or (packets_in self.now) i []) buffer.old }
    {
        self.all[i].copy_out(buffer)
    }

    // Stores a packet in the slot i, its first six bits set to zero.
    pub(crate) fn store(&mut self, i: usize, packet: Frame<'_>)
        requires { i < N }
        ensures stored { front_in self.new i (length packet.entry.bytes.now) ≡ cleared_of packet.entry.bytes.now }
        ensures others { (j n : ℕ) → (j ≢ i) → front_in self.new j n ≡ front_in self.old j n }
    {
        self.all[i].store(packet);
    }

    // Copies the first n bytes in the slot i to the front of a buffer.
    pub(crate) fn copy_front(&self, i: usize, n: usize, buffer: &mut [u8; FRAME])
        requires { (i < N) × (n ≤ 276) }
        ensures bytes { buffer.new ≡ front_in self.now i n ++ drop n buffer.old }
        ensures len { length (front_in self.now i n) ≡ n }
    {
        self.all[i].copy_front(n, buffer);
    }
}
