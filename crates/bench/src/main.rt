// The bench: plays a script of calls on a link of two ports, and prints a line for each line of the script.
// Both lanes are noisy over steady, and each queue has 8 places. At most 65,536 bytes of the script are read.
#![tactic(auto)]

mod playing;

use std::io::Read;

// How much of a script is read.
const MOST: u64 = 65_536;

fn run(rt: &HostRuntime) -> anyhow::Result<()> {
    let mut script = Vec::new(rt.alloc());
    rt.stdin().take(MOST).read_to_end(&mut script)?;
    playing::play(rt, script.as_slice())
}

fn main(rt: HostRuntime) -> anyhow::Result<()> {
    run(&rt)
}
