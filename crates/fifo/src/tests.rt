// A queue of every size from 0 to 9 is filled, goes round its places three times and more, and is emptied.
ghost use Rattle.std.specs.Prelude.{◌≡◌, ◌≤◌, ◌↔◌, IsTrue};
ghost use Rattle.std.specs.List.{Any};
ghost use Rattle.fifo.specs.Held.{queued};

use crate::Queue;
use refusal::Refusal;
use std::process::Abort;
use std::test::Fail;

// Whether a number is held.
fn holds(queue: &Queue<u8>, n: u8) -> bool
    ensures { IsTrue result ↔ Any (λ x. x ≡ n) (queued queue.now) }
{
    queue.iter().any(|x| x == n)
}

// Puts the numbers below n: one more is refused.
fn fill(rt: &impl Abort, queue: &mut Queue<u8>, n: u8) -> Result<(), Fail> {
    for i in 0..n {
        assert_eq!(rt; queue.len(), i as usize);
        queue.put(i)?;
    }
    assert_eq!(rt; queue.put(n), Err(Refusal::QueueFull));
    Ok(())
}

// Takes the oldest and puts the next, over and over.
fn go_round(rt: &impl Abort, queue: &mut Queue<u8>, n: u8) -> Result<(), Fail>
    requires { n ≤ 9 }
{
    for i in 0..30u8 {
        assert_eq!(rt; queue.peek(), Some(i));
        assert!(rt; queue.iter().eq(i..i + n));
        let (older, newer) = queue.as_slices();
        assert_eq!(rt; older.first(), Some(&i));
        assert_eq!(rt; older.len().saturating_add(newer.len()), n as usize);
        assert!(rt; holds(queue, i));
        assert!(rt; !holds(queue, i + n));
        assert_eq!(rt; queue.take()?, i);
        queue.put(i + n)?;
    }
    Ok(())
}

// Takes what is left: one more is refused.
fn empty(rt: &impl Abort, queue: &mut Queue<u8>, n: u8) -> Result<(), Fail>
    requires { n ≤ 9 }
{
    for i in 0..n {
        assert_eq!(rt; queue.take()?, 30 + i);
    }
    assert_eq!(rt; queue.peek(), None);
    assert_eq!(rt; queue.iter().count(), 0);
    assert_eq!(rt; queue.take(), Err(Refusal::Nothing));
    Ok(())
}

#[test]
fn wraps_around_at_every_size(rt: HostRuntime) -> Result<(), Fail> {
    for n in 1..10u8 {
        let mut places = [0; 9];
        let mut queue = Queue::new(&mut places[..n as usize]);
        assert_eq!(rt; queue.places(), n as usize);
        fill(&rt, &mut queue, n)?;
        go_round(&rt, &mut queue, n)?;
        empty(&rt, &mut queue, n)?;
    }
    Ok(())
}

#[test]
fn no_places_hold_nothing(rt: HostRuntime) -> Result<(), Fail> {
    let mut places: [u8; 0] = [];
    let mut queue = Queue::new(&mut places);
    assert_eq!(rt; queue.places(), 0);
    fill(&rt, &mut queue, 0)?;
    empty(&rt, &mut queue, 0)
}
