// Which frames a lane takes in.
ghost use Rattle.std.specs.Prelude.{◌≡◌, ◌<◌, length, MatchResult};
ghost use Rattle.lane.specs.Meaning.{Frames, SizedFrame, PutRefused};

use crate::FRAME;
use refusal::Refusal;

// Whether a lane in which some frames wait takes one more in, by its limit.
// Refused with 7 where the frame has no byte or more than 276, then with 3 at the limit.
pub(crate) fn admit(frame: &[u8], waiting: usize, limit: usize) -> Result<(), Refusal>
    ensures { (w : Frames) → length w ≡ waiting → MatchResult result (λ _. SizedFrame frame.now × (waiting < limit)) (PutRefused limit w frame.now) }
{
    if frame.is_empty() || frame.len() > FRAME {
        return Err(Refusal::FrameLength);
    }
    if waiting >= limit {
        return Err(Refusal::LaneFull);
    }
    Ok(())
}
