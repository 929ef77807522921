// A plan that goes round, calls that use none of its entries, a stack of noisy lanes, and frames carried between lanes.
ghost use Rattle.std.specs.Prelude.{◌≡◌, [], ◌∷◌, ◌++◌, MatchResult};
ghost use Rattle.lane.specs.Slots.{frames_of};

use crate::carrying::{carry, room};
use crate::noisy::{Fate, Noisy};
use crate::steady::Steady;
use crate::{FRAME, Lane};
use refusal::Refusal;
use std::process::Abort;
use std::test::Fail;

// Over a steady lane it is known which frame comes of a put: here the one byte 0x00.
fn put_spoilt(lane: &mut Noisy<Steady>, frame: &[u8]) -> Result<(), Refusal>
    ensures { MatchResult result (λ _. frames_of lane.new.below ≡ frames_of lane.old.below ++ (0 ∷ []) ∷ []) (λ _. frames_of lane.new.below ≡ frames_of lane.old.below) }
{
    lane.set_plan(&[Fate::Spoil]);
    lane.put(frame)
}

// The first byte of the next frame, which must have as many bytes as stated.
fn first_of<L: Lane>(rt: &impl Abort, lane: &mut L, length: usize) -> u8 {
    let mut buffer = [7; FRAME];
    assert_eq!(rt; lane.take(&mut buffer), Ok(length));
    buffer[0]
}

#[test]
fn a_spoilt_frame_is_one_zero_byte(rt: HostRuntime) -> Result<(), Fail> {
    let mut lane = Noisy::new(Steady::new());
    put_spoilt(&mut lane, b"abc")?;
    assert_eq!(rt; first_of(&rt, &mut lane, 1), 0);
    assert_eq!(rt; lane.count(), 0);
    Ok(())
}

// Of every 64 frames the first is kept, the second is spoilt and the others are lost.
#[test]
fn a_plan_starts_again_after_its_last_entry(rt: HostRuntime) -> Result<(), Fail> {
    let mut plan = [Fate::Lose; 64];
    plan[0] = Fate::Keep;
    plan[1] = Fate::Spoil;
    let mut lane = Noisy::new(Steady::new());
    lane.set_plan(&plan);
    for i in 0..200u8 {
        lane.put(&[i, 1])?;
        match i % 64 {
            0 => assert_eq!(rt; first_of(&rt, &mut lane, 2), i),
            1 => assert_eq!(rt; first_of(&rt, &mut lane, 1), 0),
            _ => assert_eq!(rt; lane.count(), 0),
        }
    }
    Ok(())
}

// Fills a lane up to its limit.
fn fill<L: Lane>(rt: &impl Abort, lane: &mut L) -> Result<(), Fail> {
    for i in 0..16u8 {
        lane.put(&[i])?;
    }
    assert_eq!(rt; room(lane), 0);
    Ok(())
}

#[test]
fn a_refused_put_uses_no_entry(rt: HostRuntime) -> Result<(), Fail> {
    let mut lane = Noisy::new(Steady::new());
    fill(&rt, &mut lane)?;
    lane.set_plan(&[Fate::Lose]);
    assert_eq!(rt; lane.put(&[]), Err(Refusal::FrameLength));
    assert_eq!(rt; lane.put(&[0; FRAME + 1]), Err(Refusal::FrameLength));
    assert_eq!(rt; lane.put(&[1]), Err(Refusal::LaneFull));
    assert_eq!(rt; first_of(&rt, &mut lane, 1), 0);
    lane.put(&[2])?;
    assert_eq!(rt; lane.count(), 15);
    lane.put(&[0; FRAME])?;
    assert_eq!(rt; lane.count(), 16);
    Ok(())
}

// The upper plan loses the first frame, so the lower plan spoils the second.
#[test]
fn noisy_lanes_stack(rt: HostRuntime) -> Result<(), Fail> {
    let mut below = Noisy::new(Steady::new());
    below.set_plan(&[Fate::Spoil]);
    let mut lane = Noisy::new(below);
    lane.set_plan(&[Fate::Lose]);
    lane.put(b"one")?;
    assert_eq!(rt; lane.count(), 0);
    lane.put(b"two")?;
    lane.put(b"three")?;
    assert_eq!(rt; first_of(&rt, &mut lane, 1), 0);
    assert_eq!(rt; first_of(&rt, &mut lane, 5), b't');
    assert_eq!(rt; lane.take(&mut [0; FRAME]), Err(Refusal::Nothing));
    Ok(())
}

#[test]
fn a_stack_has_the_limit_of_its_lowest_lane(rt: HostRuntime) -> Result<(), Fail> {
    assert_eq!(rt; <Noisy<Noisy<Steady>> as Lane>::LIMIT, 16);
    let mut lane = Noisy::new(Noisy::new(Steady::new()));
    assert_eq!(rt; room(&lane), <Noisy<Noisy<Steady>> as Lane>::LIMIT);
    fill(&rt, &mut lane)
}

#[test]
fn a_frame_is_carried_to_a_lane_of_another_kind(rt: HostRuntime) -> Result<(), Fail> {
    let mut from = Steady::new();
    let mut to = Noisy::new(Steady::new());
    let mut buffer = [0; FRAME];
    assert_eq!(rt;
        carry(&mut from, &mut to, &mut buffer[1..]),
        Err(Refusal::ShortBuffer)
    );
    assert_eq!(rt;
        carry(&mut from, &mut to, &mut buffer),
        Err(Refusal::Nothing)
    );
    from.put(b"frame")?;
    assert_eq!(rt; carry(&mut from, &mut to, &mut buffer), Ok(5));
    assert_eq!(rt; from.count(), 0);
    assert_eq!(rt; first_of(&rt, &mut to, 5), b'f');
    Ok(())
}
