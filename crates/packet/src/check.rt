// The check: whether a packet is sound.
ghost use Rattle.std.specs.Prelude.{◌≡◌};
ghost use Rattle.packet.specs.Soundness.{packet_length, sound_of};

use super::crc;
use super::sealing::{FIRST, LONGEST};

// The bytes that a packet's first CRC covers and fills.
const COVERED: usize = FIRST + 2;

// Whether a packet may have n bytes: a multiple of 4 from 8 to 276.
pub fn is_packet_length(n: usize) -> bool
    ensures { result ≡ packet_length n }
{
    n % 4 == 0 && (8..=LONGEST).contains(&n)
}

// Whether a packet is sound. Above 84 bytes the running value is to be zero after the first CRC,
// and goes on over the rest.
#[tactic(auto, unfolding(crate::specs::Soundness::sound_of))]
pub fn is_sound(packet: &[u8]) -> bool
    ensures { result ≡ sound_of packet.now }
{
    let n = packet.len();
    if !is_packet_length(n) {
        return false;
    }
    if n <= COVERED + 2 {
        return crc::start(packet) == 0;
    }
    let first = crc::start(&packet[0..COVERED]);
    let last = crc::run(first, &packet[COVERED..n]);
    first == 0 && last == 0
}
