// The window: which packets are held, and how far they were sent.
ghost use Rattle.std.specs.Prelude.{◌<◌, ◌≤◌};

pub mod methods;

// The ackID of the first packet held (of the next to be held, where none is), how many are held, how many of them were
// sent since the last rewind, and how many were ever sent.
#[derive(Clone, Copy)]
pub struct Window {
    pub(crate) first: u8,
    pub(crate) held: u8,
    pub(crate) sent: u8,
    pub(crate) high: u8,
    ghost sent_within: { sent ≤ high },
    ghost high_within: { high ≤ held },
    ghost held_within: { held ≤ 31 },
    ghost first_within: { first < 32 },
}
