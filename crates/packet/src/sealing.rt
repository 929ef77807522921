// Sealing: a load with its CRC, or its two, and padding up to a multiple of 4, written to the front of a buffer.
ghost use Rattle.std.specs.Prelude.{◌≡◌, ◌+◌, ◌-◌, ◌*◌, ◌/◌, ◌%◌, ◌<◌, ◌≤◌, ◌↔◌, IsTrue, [], ◌∷◌, ◌++◌, length, take, drop};
ghost use Rattle.packet.specs.Crc.{cleared_of, bytes_of};
ghost use Rattle.packet.specs.Opening.{SealsLoad};
ghost use Rattle.packet.specs.Sealing.{Sealable, with_crc, checked_of, written_over, Seals, SealsToLength};
ghost use Rattle.packet.specs.Soundness.{SealsSound};

use super::{crc, header};
use refusal::Refusal;

// The bytes of a load before its first CRC.
pub const FIRST: usize = 80;

// The length of the longest packet.
pub const LONGEST: usize = 276;

// Whether a load may have n bytes: an even number from 6 to 272.
pub fn is_sealable(n: usize) -> bool
    ensures { IsTrue result ↔ (Sealable n) }
{
    n % 2 == 0 && (6..=272).contains(&n)
}

// Writes bytes and then their CRC to the front of the buffer, and answers where they end.
fn put(buffer: &mut [u8], bytes: &[u8], crc: u16) -> usize
    requires { length bytes.now + 2 ≤ length buffer.old }
    ensures written { buffer.new ≡ written_over (bytes.now ++ bytes_of crc) buffer.old }
    ensures ends { result ≡ length bytes.now + 2 }
{
    let end = bytes.len();
    buffer[0..end].copy_from_slice(bytes);
    buffer[end..end + 2].copy_from_slice(&crc.to_be_bytes());
    end + 2
}

// Writes a packet's first bytes, their first six bits set to zero, and their CRC to the front of the buffer.
fn put_first(buffer: &mut [u8], bytes: &[u8]) -> usize
    requires { (0 < length bytes.now) × (length bytes.now + 2 ≤ length buffer.old) }
    ensures written { buffer.new ≡ written_over (with_crc (cleared_of bytes.now)) buffer.old }
    ensures ends { result ≡ length bytes.now + 2 }
{
    let end = put(buffer, bytes, crc::start(bytes));
    header::clear(buffer);
    end
}

// Writes a load with its CRC, or above 80 bytes with its two, to the front of the buffer.
fn put_checked(buffer: &mut [u8], load: &[u8]) -> usize
    requires { (0 < length load.now) × (length load.now + 4 ≤ length buffer.old) }
    ensures written { buffer.new ≡ written_over (checked_of (cleared_of load.now)) buffer.old }
    ensures ends { result ≡ length (checked_of (cleared_of load.now)) }
{
    let n = load.len();
    if n <= FIRST {
        return put_first(buffer, load);
    }
    let end = put_first(buffer, &load[0..FIRST]);
    // its CRC brings the running value to zero
    let rest = &load[FIRST..n];
    end + put(&mut buffer[end..], rest, crc::run(0, rest))
}

// Seals a load: writes its packet to the front of the buffer, answers the packet's length, and leaves the bytes behind.
// Refused with 1 where the load's length is odd, below 6 or above 272, and then with 6 where the buffer
// has fewer than 276 bytes. The hint lets the compiler use a length that a caller fixes: without it such a caller waited 1.4 times as long.
#[inline]
#[tactic(auto, using(crate::proofs::Sealed::sealing_laws))]
pub fn seal(load: &[u8], buffer: &mut [u8]) -> Result<usize, Refusal>
    ensures value { Seals load.now buffer.old result buffer.new }
    ensures length { SealsToLength load.now }
    ensures sound { SealsSound load.now }
    ensures opens { SealsLoad load.now }
{
    if !is_sealable(load.len()) {
        return Err(Refusal::LoadLength);
    }
    if buffer.len() < LONGEST {
        return Err(Refusal::ShortBuffer);
    }
    let end = put_checked(buffer, load);
    let padded = end.next_multiple_of(4);
    buffer[end..padded].fill(0);
    Ok(padded)
}
