// The noisy lane: a layer over any lane that keeps, loses or spoils each frame put, by a plan.
mod methods;

// How many entries a plan has.
const PLAN: usize = 64;

// What becomes of a frame that is put.
#[derive(Clone, Copy, Debug, PartialEq, Eq)]
pub enum Fate {
    // it is put below
    Keep,
    // nothing is put below
    Lose,
    // the one byte 0x00, which is no sound frame, is put below
    Spoil,
}

// The lane below, a plan, and the place of the plan's next entry. A place past the end reads as its remainder by 64.
// The plan is an array of its own, since the library allocates nothing and the entries that were given need not outlive the call.
#[derive(Drop)]
pub struct Noisy<L> {
    below: L,
    plan: [Fate; PLAN],
    next: usize,
}
