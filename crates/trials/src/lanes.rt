// What a lane refuses, for each kind of lane.
use crate::refusals::{FILL, is_untouched, room};
use crate::show;
use lane::noisy::Noisy;
use lane::steady::Steady;
use lane::{FRAME, Lane};
use refusal::Refusal;
use script::print::Answer;
use std::io;

// Put: the frame's length, the lane at its limit.
fn put<L: Lane>(rt: &HostRuntime, lane: &mut L, length: usize) -> io::Result<()> {
    let bytes = [FILL; FRAME + 1];
    let before = lane.count();
    let answer = Answer::from(lane.put(&bytes[..length.min(FRAME + 1)]));
    let outsized = length < 1 || length > FRAME;
    let grounds = [
        outsized.then_some(Refusal::FrameLength),
        (before >= L::LIMIT).then_some(Refusal::LaneFull),
        None,
    ];
    show::grounds(rt, "put", grounds, answer, lane.count() == before)
}

// Take: the buffer, nothing waiting.
fn take<L: Lane>(rt: &HostRuntime, lane: &mut L, short: bool) -> io::Result<()> {
    let mut buffer = [FILL; FRAME];
    let before = lane.count();
    let answer = Answer::from(lane.take(room(&mut buffer, short)));
    let grounds = [
        short.then_some(Refusal::ShortBuffer),
        (before == 0).then_some(Refusal::Nothing),
        None,
    ];
    let unchanged = lane.count() == before && is_untouched(&buffer);
    show::grounds(rt, "take", grounds, answer, unchanged)
}

// An empty lane is tried, filled up to its limit and tried again.
fn refuses<L: Lane>(rt: &HostRuntime, title: &str, lane: &mut L) -> io::Result<()> {
    show::title(rt, title)?;
    take(rt, lane, true)?;
    take(rt, lane, false)?;
    for length in [0, FRAME + 1, 1, FRAME] {
        put(rt, lane, length)?;
    }
    for _ in 2..L::LIMIT {
        let _ = lane.put(&[0]);
    }
    for length in [0, FRAME + 1, 1, FRAME] {
        put(rt, lane, length)?;
    }
    for short in [true, false, false] {
        take(rt, lane, short)?;
    }
    put(rt, lane, FRAME)
}

pub(crate) fn trial(rt: &HostRuntime) -> io::Result<()> {
    refuses(rt, "what a steady lane refuses", &mut Steady::new())?;
    refuses(
        rt,
        "what a noisy lane refuses",
        &mut Noisy::new(Steady::new()),
    )?;
    refuses(
        rt,
        "what a noisy lane over a noisy lane refuses",
        &mut Noisy::new(Noisy::new(Steady::new())),
    )
}
