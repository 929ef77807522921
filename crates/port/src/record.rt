// The records of the packets that wait to be collected.
ghost use Rattle.std.specs.Prelude.{◌≡◌, ◌<◌, ◌≤◌};

// The receive slot that a packet lies in, and its length. Slots are named by number, since they lie in an array: the library
// allocates nothing.
#[derive(Clone, Copy)]
pub struct WaitingSlot {
    pub(crate) slot: u8,
    pub(crate) len: u16,
    ghost slot_within: { slot < 8 },
    ghost len_within: { len ≤ 276 },
}

impl WaitingSlot {
    // A record to fill a port's memory with, before the port has it.
    pub fn unused() -> WaitingSlot
        ensures { (result.slot ≡ 0) × (result.len ≡ 0) }
    {
        WaitingSlot { slot: 0, len: 0 }
    }
}
