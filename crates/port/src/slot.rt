// A slot: the place of one packet, held or waiting.
ghost use Rattle.std.specs.Prelude.{◌≤◌};

use lane::FRAME;

pub mod methods;

// A packet of 1 to 276 bytes, and what is left of the place behind it. The place is an array with a length, since the library
// allocates nothing. It is written where it lies, by methods of its own, where a lane's slot is moved in and out whole; copying
// out is the only method that the two could share.
#[derive(Clone, Copy)]
pub struct Slot {
    bytes: [u8; FRAME],
    len: usize,
    ghost some: { 1 ≤ len },
    ghost within: { len ≤ 276 },
}
