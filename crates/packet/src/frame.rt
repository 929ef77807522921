// What a frame is: sound as a symbol, sound as a packet, or unsound for a cause.
ghost use Rattle.std.specs.Prelude.{◌≡◌};
ghost use Rattle.packet.specs.Frames.{cause_at, kind_of, Is, WrittenIsSymbol, SealedIsPacket, ClearedIsSealed, LoneIsUnsound};

use super::check;
use symbol::Symbol;
use symbol::codes::Cause;

#[derive(Clone, Copy, Debug, PartialEq, Eq)]
pub enum Kind {
    Symbol(Symbol),
    Packet,
    Unsound(Cause),
}

// Why a frame of n bytes is unsound, where it is: at three bytes a symbol's check failed, at a packet's length
// a packet's, and no other length is that of a frame.
pub fn cause_at(n: usize) -> Cause
    ensures { result ≡ cause_at n }
{
    if n == 3 {
        Cause::SymbolCheck
    } else if check::is_packet_length(n) {
        Cause::PacketCheck
    } else {
        Cause::InvalidCharacter
    }
}

// What a frame is.
#[tactic(auto, unfolding(crate::specs::Frames::kind_of))]
pub fn classify(frame: &[u8]) -> Kind
    ensures value { result ≡ kind_of frame.now }
    ensures means { Is frame.now result }
{
    match Symbol::read(frame) {
        Ok(symbol) => Kind::Symbol(symbol),
        Err(_) if check::is_sound(frame) => Kind::Packet,
        Err(_) => Kind::Unsound(cause_at(frame.len())),
    }
}

// Laws for those who build on frames: what a symbol is written as is that symbol, a sealed packet is a packet
// under every ackID and itself again once that is cleared, and a lone byte is neither.
pub fn laws()
    ensures written { WrittenIsSymbol }
    ensures sealed { SealedIsPacket }
    ensures cleared { ClearedIsSealed }
    ensures lone { LoneIsUnsound }
{}
