// The steady lane: it keeps every frame that it accepts.
mod methods;
mod slots;

ghost use Rattle.std.specs.Prelude.{◌≡◌, ◌≤◌, length};

use crate::FRAME;
use fifo::ring::Ring;

// How many frames can wait.
const SLOTS: usize = 16;

// A frame of 1 to 276 bytes, and what is left of the room behind it. The room is an array with a length, since the library allocates nothing.
#[derive(Clone, Copy)]
pub struct Slot {
    bytes: [u8; FRAME],
    len: usize,
    ghost sized: { (1 ≤ len) × (len ≤ 276) × (length bytes ≡ 276) },
}

// The slots, and the ring of those that hold the frames that wait. The slots are in place, since the library allocates nothing.
#[derive(Drop)]
pub struct Steady {
    slots: [Slot; SLOTS],
    ring: Ring,
    ghost filled: { (ring.len ≤ 16) × (length slots ≡ 16) },
}
