// What a frame that was taken from a lane does to a port.
ghost use Rattle.std.specs.Prelude.{◌≡◌};
ghost use Rattle.rules.specs.Hearing.{heard};
ghost use Rattle.rules.specs.Calls.{received_as};
ghost use Rattle.rules.specs.Serial.{serial};
ghost use Rattle.port.specs.Model.{port_of};
ghost use Rattle.port.specs.Inner.{CanReply};

use crate::ack::AckId;
use crate::sized::Frame;
use crate::{Port, wire};
use packet::frame::{Kind, classify};
use packet::header;
use rules::state::Received;
use symbol::Symbol;

impl<'r, 'w> Port<'r, 'w> {
    // A frame acts on the port, by what it is: of a symbol the first half acts first.
    pub(crate) fn handle(&mut self, frame: Frame<'_>) -> Received
        requires { CanReply (port_of self.old).receiver (port_of self.old).places }
        ensures answer { result ≡ received_as (serial.read frame.entry.bytes.now) }
        ensures port { port_of self.new ≡ heard 32 (serial.read frame.entry.bytes.now) (port_of self.old) }
    {
        match classify(frame.bytes) {
            Kind::Symbol(symbol) => {
                let ack_id = AckId {
                    value: symbol.parameter0,
                };
                self.sending
                    .hear(wire::says(symbol), ack_id, symbol.parameter1);
                self.receiving.obey(wire::asks(symbol));
                Received::Symbol
            }
            Kind::Packet => {
                if let Some(ack_id) = header::ack_id(frame.bytes) {
                    self.receiving.arrive(ack_id, frame);
                }
                Received::Packet
            }
            Kind::Unsound(cause) => {
                self.receiving.reject(cause);
                Received::Unsound
            }
        }
    }
}
