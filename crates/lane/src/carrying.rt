// Functions over every kind of lane, which rest on a lane's meaning alone.
ghost use Rattle.std.specs.Prelude.{◌≡◌, ◌+◌, length, OnErr};
ghost use Rattle.lane.specs.Carrying.{CarryMeans};

use crate::{FRAME, Lane};
use refusal::Refusal;

// How many more frames can be put.
pub fn room<L: Lane>(lane: &L) -> usize
    ensures { length (L.Lane.waiting lane.now) + result ≡ L.Lane.LIMIT }
{
    L::LIMIT - lane.count()
}

// Takes the oldest frame of one lane to the front of a buffer, puts it to another lane, which may differ in kind, and answers its length.
// Refused with 6 where the buffer has fewer than 276 bytes, then with 4 where no frame waits, then with 3 where the other lane is at its limit.
pub fn carry<A: Lane, B: Lane>(
    from: &mut A,
    to: &mut B,
    buffer: &mut [u8],
) -> Result<usize, Refusal>
    ensures means { CarryMeans B.Lane.LIMIT (A.Lane.waiting from.old) (B.Lane.waiting to.old) buffer.old result (A.Lane.waiting from.new) (B.Lane.waiting to.new) buffer.new }
    ensures refused { OnErr result ((from.new ≡ from.old) × (to.new ≡ to.old)) }
{
    if buffer.len() < FRAME {
        return Err(Refusal::ShortBuffer);
    }
    if from.count() == 0 {
        return Err(Refusal::Nothing);
    }
    if room(to) == 0 {
        return Err(Refusal::LaneFull);
    }
    let n = from.take(buffer)?;
    to.put(&buffer[..n])?;
    Ok(n)
}
