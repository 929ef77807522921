// Opening: the load of a sound packet, as parts of it.
ghost use Rattle.std.specs.Prelude.{◌≡◌, ◌+◌, ◌-◌, ◌*◌, ◌/◌, ◌%◌, ◌<◌, ◌≤◌, ◌↔◌, IsTrue, length};
ghost use Rattle.packet.specs.Opening.{SealsTo, Opens, GivesBack};
ghost use Rattle.packet.specs.Sealing.{Sealable, sealed_length};

use super::sealing::FIRST;
use super::{check, sealing};
use refusal::Refusal;

// The load of a packet: its first bytes, at most 80, and the rest, which stands behind the first CRC.
#[derive(Clone, Copy)]
pub struct Load<'a> {
    pub first: &'a [u8],
    pub rest: &'a [u8],
}

// The length of the packet that a load of n bytes is sealed to.
fn sealed_length(n: usize) -> usize
    requires { Sealable n }
    ensures { result ≡ sealed_length n }
{
    let crc = if n <= FIRST { 2 } else { 4 };
    (n + crc).next_multiple_of(4)
}

// Whether a load of n bytes can be sealed, and is sealed to a packet of m.
pub fn seals_to(n: usize, m: usize) -> bool
    ensures means { IsTrue result ↔ (SealsTo n m) }
    ensures rule { IsTrue result → sealed_length n ≡ m }
{
    sealing::is_sealable(n) && sealed_length(n) == m
}

// Hands out the load of n bytes that a packet holds, as two parts of it; the second is empty where n is at most 80.
// Refused with 10 where no load of n bytes is sealed to a packet of this length, and then with 9 where it is unsound.
pub fn open(packet: &[u8], n: usize) -> Result<Load<'_>, Refusal>
    ensures value { Opens packet.now n result }
    ensures gives_back { GivesBack packet.now n result }
{
    if !seals_to(n, packet.len()) {
        return Err(Refusal::NoSuchLoad);
    }
    if !check::is_sound(packet) {
        return Err(Refusal::Unsound);
    }
    if n <= FIRST {
        return Ok(Load {
            first: &packet[0..n],
            rest: &packet[n..n],
        });
    }
    Ok(Load {
        first: &packet[0..FIRST],
        rest: &packet[FIRST + 2..n + 2],
    })
}
