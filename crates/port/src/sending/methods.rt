// What the sending half does with its packets.
ghost use Rattle.std.specs.Prelude.{◌≡◌, ◌+◌, ◌<◌, ◌≤◌, [], ◌++◌, length, drop, nat_lt};
ghost use Rattle.packet.specs.Sealing.{sealed_of, written_over};
ghost use Rattle.rules.specs.declared.state.Output.TheVariants.{Running};
ghost use Rattle.rules.specs.Port.{Places, fresh};
ghost use Rattle.rules.specs.Hearing.{turned};
ghost use Rattle.rules.specs.Calls.{holding, one_more_sent};
ghost use Rattle.port.specs.Held.{sender_of};
ghost use Rattle.port.specs.Inner.{next_frame};

use super::Sending;
use crate::sized::SealableLoad;
use crate::slots::{SEND_SLOTS, Slots};
use crate::window::Window;
use fifo::ring::place;
use lane::FRAME;
use packet::header;
use rules::state::Output;

impl Sending {
    pub(crate) fn new() -> Sending
        ensures { (places : Places) → sender_of result ≡ (fresh places).sender }
    {
        Sending {
            window: Window::new(),
            base: 0,
            slots: Slots::new(),
            output: Output::Running,
        }
    }

    // How many packets are held.
    pub(crate) fn held(&self) -> usize
        ensures value { result ≡ length (sender_of self.now).held }
        ensures most { result ≤ 31 }
    {
        self.window.held as usize
    }

    // The output turns to another state.
    pub(crate) fn turn(&mut self, output: Output)
        ensures { sender_of self.new ≡ turned output (sender_of self.old) }
    {
        self.output = output;
    }

    // Seals a load and holds its packet.
    pub(crate) fn hold(&mut self, load: SealableLoad<'_>)
        requires { length (sender_of self.old).held < 31 }
        ensures { sender_of self.new ≡ holding (sealed_of load.entry.bytes.now) (sender_of self.old) }
    {
        let i = place(self.base, self.window.held as usize, SEND_SLOTS);
        self.slots.seal(i, load);
        self.window = self.window.hold();
    }

    // Whether a packet is held that was not sent since the last rewind.
    pub(crate) fn has_unsent(&self) -> bool
        ensures { result ≡ nat_lt (sender_of self.now).sent (length (sender_of self.now).held) }
    {
        self.window.sent < self.window.held
    }

    // Writes the next packet to the front of a buffer, stamped with its ackID, and answers its length.
    pub(crate) fn send(&mut self, buffer: &mut [u8; FRAME]) -> usize
        requires { ((sender_of self.old).output ≡ Running) × ((sender_of self.old).sent < length (sender_of self.old).held) }
        ensures len { result ≡ length (next_frame (sender_of self.old)) }
        ensures bounds { (1 ≤ result) × (result ≤ 276) }
        ensures bytes { buffer.new ≡ written_over (next_frame (sender_of self.old)) buffer.old }
        ensures sender { sender_of self.new ≡ one_more_sent (sender_of self.old) }
    {
        let i = place(self.base, self.window.sent as usize, SEND_SLOTS);
        let n = self.slots.copy_out(i, buffer);
        let _ = header::stamp(buffer, self.window.next_ack_id());
        self.count_sent();
        n
    }

    // One more packet counts as sent; all stay held.
    fn count_sent(&mut self)
        requires { (self.old.output ≡ Running) × (self.old.window.sent < self.old.window.held) }
        ensures { sender_of self.new ≡ one_more_sent (sender_of self.old) }
    {
        self.window = self.window.send();
    }
}
