// Trials of the link library: what a reader of the rules could get wrong and no listed fact states, each tried by calls and
// printed. The gate compares what is printed.
#![tactic(auto)]

mod frames;
mod holding;
mod lanes;
mod numbering;
mod others;
mod refusals;
mod rewinding;
mod show;
mod stand;
mod tally;
mod waking;

use std::io;

fn main(rt: HostRuntime) -> io::Result<()> {
    holding::trial(&rt)?;
    rewinding::trial(&rt)?;
    numbering::trial(&rt)?;
    refusals::trial(&rt)?;
    lanes::trial(&rt)?;
    others::trial(&rt)?;
    frames::trial(&rt)?;
    waking::trial(&rt)
}
