// What changes a window. Each change writes it whole, field by field: no `..` is taken of a struct that keeps facts of its fields.
ghost use Rattle.std.specs.Prelude.{◌≡◌, ◌+◌, ◌-◌, ◌%◌, ◌<◌, ◌≤◌, max};
ghost use Rattle.rules.specs.Port.{after, distance};
ghost use Rattle.port.specs.Inner.{Is};

use super::Window;
use crate::ack::{ACK_IDS, AckId};

impl Window {
    pub(crate) fn new() -> Window
        ensures { Is result 0 0 0 0 }
    {
        Window {
            first: 0,
            held: 0,
            sent: 0,
            high: 0,
        }
    }

    // The ackID of the next packet to be sent.
    pub(crate) fn next_ack_id(self) -> u8
        ensures value { result ≡ after 32 self.first self.sent }
        ensures within { result < 32 }
    {
        (self.first + self.sent) % ACK_IDS
    }

    // How far an ackID comes after the first.
    pub(crate) fn distance_to(self, ack_id: AckId) -> u8
        ensures { result ≡ distance 32 ack_id self.first }
    {
        (ack_id.value + (ACK_IDS - self.first)) % ACK_IDS
    }

    // One more packet is held.
    pub(crate) fn hold(self) -> Window
        requires { self.held < 31 }
        ensures { Is result self.first (self.held + 1) self.sent self.high }
    {
        Window {
            first: self.first,
            held: self.held + 1,
            sent: self.sent,
            high: self.high,
        }
    }

    // One more packet is sent.
    pub(crate) fn send(self) -> Window
        requires { self.sent < self.held }
        ensures { Is result self.first self.held (self.sent + 1) (max self.high (self.sent + 1)) }
    {
        let sent = self.sent + 1;
        Window {
            first: self.first,
            held: self.held,
            sent,
            high: self.high.max(sent),
        }
    }

    // The first d packets are freed, and s of the others count as sent.
    pub(crate) fn free(self, d: u8, s: u8) -> Window
        requires { d + s ≤ self.high }
        ensures { Is result (after 32 self.first d) (self.held - d) s (self.high - d) }
    {
        Window {
            first: (self.first + d) % ACK_IDS,
            held: self.held - d,
            sent: s,
            high: self.high - d,
        }
    }

    // All packets held are to be sent again.
    pub(crate) fn rewind(self) -> Window
        ensures { Is result self.first self.held 0 self.high }
    {
        Window {
            first: self.first,
            held: self.held,
            sent: 0,
            high: self.high,
        }
    }
}
