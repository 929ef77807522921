// What a port has to send.
ghost use Rattle.std.specs.Prelude.{◌≡◌, ◌<◌, ◌≤◌, length, Some};
ghost use Rattle.rules.specs.Calls.{due};
ghost use Rattle.rules.specs.Serial.{serial};
ghost use Rattle.port.specs.Model.{port_of};
ghost use Rattle.port.specs.Inner.{answered, Writes};

use crate::{Port, wire};
use lane::FRAME;
use rules::state::{Output, Sent};
use symbol::codes::Stype1;

impl<'r, 'w> Port<'r, 'w> {
    // What is due, if anything.
    pub(crate) fn due(&self) -> Option<Sent>
        ensures { result ≡ answered (due 32 serial (port_of self.now)) }
    {
        if self.receiving.has_reply() {
            return Some(Sent::Reply);
        }
        match self.sending.output {
            Output::Running => {
                if self.sending.has_unsent() {
                    Some(Sent::Packet)
                } else {
                    None
                }
            }
            Output::RetryStopped => Some(Sent::Restart),
            Output::OwingRequest => Some(Sent::Request),
            Output::AwaitingResponse | Output::Failed => None,
        }
    }

    // Writes what is due to the front of a buffer and answers its length.
    pub(crate) fn write_due(&mut self, what: Sent, buffer: &mut [u8; FRAME]) -> usize
        requires { answered (due 32 serial (port_of self.old)) ≡ Some what }
        ensures { Writes (due 32 serial (port_of self.old)) buffer.old result (port_of self.new) buffer.new }
    {
        match what {
            Sent::Reply => self.write_reply(buffer),
            Sent::Restart => {
                self.sending.turn(Output::Running);
                wire::write_symbol(
                    wire::asking_symbol(Stype1::Restart, self.receiving.expected),
                    buffer,
                )
            }
            Sent::Request => {
                self.sending.turn(Output::AwaitingResponse);
                wire::write_symbol(
                    wire::asking_symbol(Stype1::Request, self.receiving.expected),
                    buffer,
                )
            }
            Sent::Packet => self.sending.send(buffer),
        }
    }

    // Writes the oldest pending reply.
    fn write_reply(&mut self, buffer: &mut [u8; FRAME]) -> usize
        requires { 0 < length (port_of self.old).receiver.pending }
        ensures { Writes (due 32 serial (port_of self.old)) buffer.old result (port_of self.new) buffer.new }
    {
        match self.receiving.take_reply() {
            Some(reply) => wire::write_symbol(wire::reply_symbol(reply), buffer),
            None => unreachable(),
        }
    }
}
