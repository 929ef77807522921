// What a port writes and reads: its replies and what it asks as symbols, and the names in symbols that came.
ghost use Rattle.std.specs.Prelude.{◌≡◌, ◌<◌, ◌≤◌, ◌++◌, length, drop};
ghost use Rattle.symbol.specs.Codes.{symbol_of};
ghost use Rattle.symbol.specs.Layout.{Fits, written_of};
ghost use Rattle.rules.specs.Serial.{reply_symbol, asking_symbol, says_of, asks_of};

use crate::ack::AckId;
use crate::pending::PendingReply;
use lane::FRAME;
use rules::state::Reply;
use symbol::Symbol;
use symbol::codes::{Stype0, Stype1};

// The second parameter of a symbol that has no other use for it: flow is controlled by the receiver.
const RECEIVER_CONTROLLED: u8 = 31;

// A symbol whose ackID and second parameter fit their bits.
fn symbol_of(says: Stype0, ack_id: AckId, parameter1: u8, asks: Stype1) -> Symbol
    requires { parameter1 < 32 }
    ensures value { result ≡ symbol_of says ack_id parameter1 asks }
    ensures fits { Fits result }
{
    Symbol::of(says, ack_id.value, parameter1, asks)
}

// The symbol of a reply.
pub(crate) fn reply_symbol(pending: PendingReply) -> Symbol
    ensures value { result ≡ reply_symbol pending }
    ensures fits { Fits result }
{
    let ack_id = pending.ack_id();
    match pending.reply {
        Reply::Accepted(_) => symbol_of(Stype0::Accepted, ack_id, RECEIVER_CONTROLLED, Stype1::Nop),
        Reply::Retry(_) => symbol_of(Stype0::Retry, ack_id, RECEIVER_CONTROLLED, Stype1::Nop),
        Reply::NotAccepted(_, cause) => symbol_of(
            Stype0::NotAccepted,
            ack_id,
            cause.into(),
            Stype1::Nop,
        ),
        Reply::Response(_, status) => symbol_of(
            Stype0::Response,
            ack_id,
            status.into(),
            Stype1::Nop,
        ),
    }
}

// The symbol that asks something, with the ackID that its sender expects.
pub(crate) fn asking_symbol(asks: Stype1, ack_id: AckId) -> Symbol
    ensures value { result ≡ asking_symbol asks ack_id }
    ensures fits { Fits result }
{
    symbol_of(Stype0::Status, ack_id, RECEIVER_CONTROLLED, asks)
}

// Writes a symbol to the front of a buffer and answers its length.
pub(crate) fn write_symbol(symbol: Symbol, buffer: &mut [u8; FRAME]) -> usize
    requires { Fits symbol }
    ensures len { result ≡ 3 }
    ensures bytes { buffer.new ≡ written_of symbol ++ drop 3 buffer.old }
{
    let mut place = [0; 3];
    let _ = symbol.write(&mut place);
    buffer[..3].copy_from_slice(&place);
    3
}

// What a symbol says.
pub(crate) fn says(symbol: Symbol) -> Option<Stype0>
    ensures { result ≡ says_of symbol.stype0 }
{
    Stype0::try_from(symbol.stype0).ok()
}

// What a symbol asks.
pub(crate) fn asks(symbol: Symbol) -> Option<Stype1>
    ensures { result ≡ asks_of symbol.stype1 symbol.cmd }
{
    Stype1::try_from((symbol.stype1, symbol.cmd)).ok()
}
