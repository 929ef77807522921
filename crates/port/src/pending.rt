// The replies that have yet to go out.
ghost use Rattle.std.specs.Prelude.{◌≡◌};
ghost use Rattle.rules.specs.Wire.{ack_id_of};
ghost use Rattle.rules.specs.declared.state.Reply.TheVariants.{Accepted};

use crate::ack::AckId;
use rules::state::Reply;
use std::marker::Model;

// A reply under an ackID.
#[derive(Clone, Copy)]
pub struct PendingReply {
    pub(crate) reply: Reply,
}

// Clauses see the reply, whose ackID is below 32.
impl Model for PendingReply {
    ghost use Rattle.std.specs.Prelude.{◌<◌};
    ghost use Rattle.rules.specs.declared.state.Reply.{Reply as RulesReply};
    ghost use Rattle.rules.specs.Wire.{ack_id_of};

    ghost Value = { RulesReply };

    ghost view = { λ p. p.reply };

    ghost invariant = { λ p. ack_id_of p.reply < 32 };

    ghost inverse = { λ y. record { reply = y } };
}

impl PendingReply {
    // The ackID that it carries.
    pub(crate) fn ack_id(self) -> AckId
        ensures { result ≡ ack_id_of self }
    {
        match self.reply {
            Reply::Accepted(value)
            | Reply::Retry(value)
            | Reply::NotAccepted(value, _)
            | Reply::Response(value, _) => AckId { value },
        }
    }

    // A reply to fill a port's memory with, before the port has it.
    pub fn unused() -> PendingReply
        ensures { result ≡ Accepted 0 }
    {
        PendingReply {
            reply: Reply::Accepted(0),
        }
    }
}
