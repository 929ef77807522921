// What the first half of a symbol does to the sending half, and what a time-out does.
ghost use Rattle.std.specs.Prelude.{◌≡◌, ◌+◌, ◌<◌, ◌≤◌, ◌==◌, true};
ghost use Rattle.symbol.specs.declared.codes.PortStatus.TheVariants.{Failed};
ghost use Rattle.symbol.specs.Codes.{status_of};
ghost use Rattle.rules.specs.Hearing.{means_first, freed, rewound, response, said};
ghost use Rattle.rules.specs.Calls.{overdue, asking};
ghost use Rattle.port.specs.Held.{sender_of};

use super::Sending;
use crate::ack::AckId;
use crate::slots::SEND_SLOTS;
use fifo::ring::place;
use rules::state::Output;
use symbol::codes::{PortStatus, Stype0};

// Whether a response's status says that the other port has failed.
fn has_failed(status: u8) -> bool
    ensures { result ≡ (status == status_of Failed) }
{
    matches!(PortStatus::try_from(status), Ok(PortStatus::Failed))
}

impl Sending {
    // Whether an ackID is that of the first packet held, and that was sent.
    fn means_first(&self, ack_id: AckId) -> bool
        ensures { result ≡ means_first ack_id (sender_of self.now) }
    {
        self.window.sent > 0 && ack_id.value == self.window.first
    }

    // Frees the first d packets held; s of the others count as sent, and output runs.
    fn free(&mut self, d: u8, s: u8)
        requires { d + s ≤ (sender_of self.old).high }
        ensures { sender_of self.new ≡ freed 32 d s (sender_of self.old) }
    {
        self.base = place(self.base, d as usize, SEND_SLOTS);
        self.window = self.window.free(d, s);
        self.output = Output::Running;
    }

    // All packets held are to be sent again, after a restart.
    fn rewind(&mut self)
        ensures { sender_of self.new ≡ rewound true (sender_of self.old) }
    {
        self.window = self.window.rewind();
        self.output = Output::RetryStopped;
    }

    // An awaited response: the packets before the one that the other port expects are freed, and the rest sent again.
    // The status is a number here, since a second parameter is a status in a response alone, and may be one without a name.
    fn resume(&mut self, ack_id: AckId, status: u8)
        ensures { sender_of self.new ≡ response 32 ack_id status (sender_of self.old) }
    {
        let d = self.window.distance_to(ack_id);
        if has_failed(status) || d > self.window.high {
            self.output = Output::Failed;
        } else {
            self.free(d, 0);
        }
    }

    // What a symbol says first, by the output, with an ackID and a second parameter.
    pub(crate) fn hear(&mut self, says: Option<Stype0>, ack_id: AckId, parameter1: u8)
        ensures { sender_of self.new ≡ said 32 (sender_of self.old).output says ack_id parameter1 (sender_of self.old) }
    {
        match (self.output, says) {
            (Output::Running, Some(Stype0::Accepted)) => {
                if self.means_first(ack_id) {
                    self.free(1, self.window.sent - 1);
                } else {
                    self.output = Output::OwingRequest;
                }
            }
            (Output::Running, Some(Stype0::Retry)) => {
                if self.means_first(ack_id) {
                    self.rewind();
                } else {
                    self.output = Output::OwingRequest;
                }
            }
            (Output::Running, Some(Stype0::NotAccepted | Stype0::Response))
            | (Output::RetryStopped, Some(Stype0::Accepted | Stype0::Retry))
            | (Output::RetryStopped, Some(Stype0::NotAccepted | Stype0::Response)) => {
                self.output = Output::OwingRequest;
            }
            (Output::AwaitingResponse, Some(Stype0::Response)) => self.resume(ack_id, parameter1),
            _ => {}
        }
    }

    // What was sent and stays unanswered is asked for. Answers whether there was such.
    pub(crate) fn time_out(&mut self) -> bool
        ensures answer { result ≡ overdue (sender_of self.old) }
        ensures sender { sender_of self.new ≡ asking result (sender_of self.old) }
    {
        let overdue = match self.output {
            Output::Running => self.window.sent > 0,
            Output::AwaitingResponse => true,
            Output::RetryStopped | Output::OwingRequest | Output::Failed => false,
        };
        if overdue {
            self.output = Output::OwingRequest;
        }
        overdue
    }
}
