// What frames do to the receiving half, and the replies that they bring about.
ghost use Rattle.std.specs.Prelude.{◌≡◌, ◌<◌, ◌≤◌, length, drop, nat_le, nat_lt};
ghost use Rattle.fifo.specs.Held.{oldest};
ghost use Rattle.packet.specs.Crc.{cleared_of};
ghost use Rattle.rules.specs.Wire.{ack_id_of};
ghost use Rattle.rules.specs.Hearing.{pended, status_for, asked, arrived, rejected};
ghost use Rattle.rules.specs.Calls.{leaving};
ghost use Rattle.port.specs.Waiting.{receiver_of, places_in};
ghost use Rattle.port.specs.Inner.{CanReply};

use super::Receiving;
use crate::pending::PendingReply;
use crate::sized::Frame;
use rules::state::{Input, Reply};
use symbol::codes::{Cause, PortStatus, Stype1};

impl<'r, 'w> Receiving<'r, 'w> {
    // How many replies have yet to go out.
    pub(crate) fn pending(&self) -> usize
        ensures { result ≡ length (receiver_of self.now).pending }
    {
        self.replies.len()
    }

    // Whether there is no place for another reply.
    pub(crate) fn replies_full(&self) -> bool
        ensures { result ≡ nat_le (places_in self.now).replies (length (receiver_of self.now).pending) }
    {
        self.replies.places() <= self.replies.len()
    }

    // The input turns to another state, and a reply is pended.
    fn pend(&mut self, input: Input, reply: Reply)
        requires place { CanReply (receiver_of self.old) (places_in self.old) }
        requires within { ack_id_of reply < 32 }
        ensures receiver { receiver_of self.new ≡ pended input reply (receiver_of self.old) }
        ensures places { places_in self.new ≡ places_in self.old }
    {
        self.input = input;
        let _ = self.replies.put(PendingReply { reply });
    }

    // The input's state, as a response gives it.
    fn status(&self) -> PortStatus
        ensures { result ≡ status_for (receiver_of self.now).input }
    {
        match self.input {
            Input::Ready => PortStatus::Ready,
            Input::RetryStopped => PortStatus::RetryStopped,
            Input::ErrorStopped => PortStatus::ErrorStopped,
        }
    }

    // What the second half of a symbol asks.
    pub(crate) fn obey(&mut self, asks: Option<Stype1>)
        requires { CanReply (receiver_of self.old) (places_in self.old) }
        ensures receiver { receiver_of self.new ≡ asked (receiver_of self.old).input asks (receiver_of self.old) }
        ensures places { places_in self.new ≡ places_in self.old }
    {
        match (self.input, asks) {
            (_, Some(Stype1::Request)) => self.pend(
                Input::Ready,
                Reply::Response(self.expected.value, self.status()),
            ),
            (Input::RetryStopped, Some(Stype1::Restart)) => self.input = Input::Ready,
            _ => {}
        }
    }

    // An unsound frame.
    pub(crate) fn reject(&mut self, cause: Cause)
        requires { CanReply (receiver_of self.old) (places_in self.old) }
        ensures receiver { receiver_of self.new ≡ rejected (receiver_of self.old).input cause (receiver_of self.old) }
        ensures places { places_in self.new ≡ places_in self.old }
    {
        match (self.input, cause) {
            (Input::Ready, _)
            | (Input::RetryStopped, Cause::SymbolCheck | Cause::InvalidCharacter) => {
                self.pend(
                    Input::ErrorStopped,
                    Reply::NotAccepted(self.expected.value, cause),
                )
            }
            _ => {}
        }
    }

    // A sound packet, under its ackID.
    pub(crate) fn arrive(&mut self, ack_id: u8, packet: Frame<'_>)
        requires { CanReply (receiver_of self.old) (places_in self.old) }
        ensures receiver { receiver_of self.new ≡ arrived 32 (places_in self.old) (receiver_of self.old).input ack_id (cleared_of packet.entry.bytes.now) (receiver_of self.old) }
        ensures places { places_in self.new ≡ places_in self.old }
    {
        let Input::Ready = self.input else {
            return;
        };
        if ack_id != self.expected.value {
            self.pend(
                Input::ErrorStopped,
                Reply::NotAccepted(self.expected.value, Cause::UnexpectedAckId),
            );
        } else if self.store(packet) {
            self.pend(Input::Ready, Reply::Accepted(ack_id));
            self.expected = self.expected.next();
        } else {
            self.pend(Input::RetryStopped, Reply::Retry(self.expected.value));
        }
    }

    // Whether a reply is pending.
    pub(crate) fn has_reply(&self) -> bool
        ensures { result ≡ nat_lt 0 (length (receiver_of self.now).pending) }
    {
        self.replies.len() > 0
    }

    // Removes the oldest pending reply, where there is one.
    pub(crate) fn take_reply(&mut self) -> Option<PendingReply>
        ensures answer { result ≡ oldest (receiver_of self.old).pending }
        ensures receiver { receiver_of self.new ≡ leaving (drop 1 (receiver_of self.old).pending) (receiver_of self.old) }
        ensures places { places_in self.new ≡ places_in self.old }
    {
        self.replies.take().ok()
    }
}
