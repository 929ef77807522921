// Memory that a port's user lends it.
ghost use Rattle.std.specs.Prelude.{◌≡◌, length, replicate};
ghost use Rattle.rules.specs.declared.state.Reply.TheVariants.{Accepted};
ghost use Rattle.rules.specs.Port.{fresh};
ghost use Rattle.port.specs.Model.{port_of};
ghost use Rattle.port.specs.Memory.{replies_in, records_in};

use crate::Port;
use crate::pending::PendingReply;
use crate::record::WaitingSlot;

// The places of each queue.
pub const PLACES: usize = 8;

// Memory for a port's two queues, of 8 places each; for any other number of places the memory is lent to `Port::new`.
// The number is no parameter of the type: the check covers no array of a parameter's length that is lent from a field.
#[derive(Clone, Copy)]
pub struct Memory {
    replies: [PendingReply; PLACES],
    records: [WaitingSlot; PLACES],
}

impl Memory {
    pub fn unused() -> Memory
        ensures replies { replies_in result ≡ replicate 8 (Accepted 0) }
        ensures records { length (records_in result) ≡ 8 }
    {
        Memory {
            replies: [PendingReply::unused(); PLACES],
            records: [WaitingSlot::unused(); PLACES],
        }
    }

    // A fresh port, which has this memory as long as it is there.
    pub fn port(&mut self) -> Port<'_, '_>
        ensures { port_of result ≡ fresh (record { replies = 8; packets = 8 }) }
    {
        let Memory { replies, records } = self;
        Port::new(replies, records)
    }
}
