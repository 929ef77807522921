// A tour of the link library: each step does something real with it and prints what came of it.
#![tactic(auto)]

mod acknowledgement;
mod crossing;
mod frames;
mod journey;
mod strip;

use std::io;

fn main(rt: HostRuntime) -> io::Result<()> {
    acknowledgement::tour(&rt)?;
    strip::tour(&rt)?;
    crossing::tour(&rt)?;
    journey::tour(&rt)
}
