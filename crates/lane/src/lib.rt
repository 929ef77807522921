// Lanes, which carry frames from one port to the other, one way.
// A lane is known by the list of frames that wait in it. What is put may be kept, be lost or turn into an unsound frame, and put
// answers alike; what waits is taken in order, once, and unaltered. A refused call changes nothing.
// `Steady` keeps every frame; `Noisy`, over any lane, does to each what its plan says.
#![tactic(auto)]

mod admitting;
pub mod carrying;
pub mod noisy;
pub mod steady;
#[cfg(test)]
mod tests;

ghost use Rattle.std.specs.Prelude.{◌≡◌, ℕ, ◌≤◌, List, length, MatchResult};
ghost use Rattle.lane.specs.Meaning.{Frames, SizedFrames, PutMeans, TakeMeans};

use refusal::Refusal;

// The most bytes that a frame has, and the fewest that a buffer for one has.
pub const FRAME: usize = 276;

pub trait Lane {
    // The most frames that wait at once. A layer takes it from the lane below.
    const LIMIT: usize;

    // The same number, as the clauses have it: each lane's two are proved equal.
    ghost LIMIT: { ℕ };

    // The frames that wait, the oldest first: this is what a lane means.
    ghost waiting: { Self → Frames };

    // What this kind of lane promises beside its meaning: how an accepted put of a frame leaves it, and how a take does.
    ghost puts: { Self → List ℕ → Self → Type 0 };

    ghost takes: { Self → Self → Type 0 };

    // How many frames wait.
    fn count(&self) -> usize
        ensures { result ≡ length (waiting self.now) };

    // Gives the lane a frame. Refused with 7 where it has no byte or more than 276, then with 3 at the limit.
    fn put(&mut self, frame: &[u8]) -> Result<(), Refusal>
        ensures means { PutMeans LIMIT (waiting self.old) frame.now result (waiting self.new) }
        ensures kind { MatchResult result (λ _. puts self.old frame.now self.new) (λ _. self.new ≡ self.old) };

    // Takes the oldest frame to the front of a buffer and answers its length.
    // Refused with 6 where the buffer has fewer than 276 bytes, then with 4 where no frame waits.
    fn take(&mut self, buffer: &mut [u8]) -> Result<usize, Refusal>
        ensures means { TakeMeans (waiting self.old) buffer.old result (waiting self.new) buffer.new }
        ensures kind { MatchResult result (λ _. takes self.old self.new) (λ _. self.new ≡ self.old) };

    ghost bounds: { (1 ≤ LIMIT) × (LIMIT ≤ 64) };

    ghost within: { (s : Self) → length (waiting s) ≤ LIMIT };

    ghost sized: { (s : Self) → SizedFrames (waiting s) };
}
