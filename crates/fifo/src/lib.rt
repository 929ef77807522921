// A first-in-first-out queue over memory that its user lends, for elements of any type that can be copied.
// Promised: a queue is the list of what it holds, the oldest first. It holds as many as there are places, be it none.
// Putting adds at the end, taking gives the oldest, and a refused call changes nothing. No call asks anything of its caller.
#![tactic(auto)]

pub mod iter;
pub mod ring;
#[cfg(test)]
mod tests;

ghost use Rattle.std.specs.Prelude.{◌≡◌, ◌≤◌, [], ◌∷◌, ◌++◌, length, drop, OnErr, MatchOption};
ghost use Rattle.std.specs.Iterator.{YieldsFirst};
ghost use Rattle.std.specs.Iterator.Runs.{YieldsInOrder};
ghost use Rattle.fifo.specs.Held.{in_ring, queued, places_of, to_come, oldest, Puts, Takes};

use crate::iter::Iter;
use crate::ring::Ring;
use refusal::Refusal;

// The places lent, and the ring of those that hold elements. Every value is a queue. The memory is lent, since the library
// allocates nothing; and clauses see the fields, since a refused call is to leave all of that memory as it was.
#[derive(Drop)]
pub struct Queue<'a, T> {
    places: &'a mut [T],
    ring: Ring,
}

impl<'a, T: Copy> Queue<'a, T> {
    // An empty queue. What the places held before does not matter.
    pub fn new(places: &'a mut [T]) -> Queue<'a, T>
        ensures empty { queued result ≡ [] }
        ensures places { places_of result ≡ length places.old }
    {
        Queue {
            places,
            ring: Ring { head: 0, len: 0 },
        }
    }

    // How many the queue can hold.
    pub fn places(&self) -> usize
        ensures { result ≡ places_of self.now }
    {
        self.places.len()
    }

    // How many it holds.
    pub fn len(&self) -> usize
        ensures value { result ≡ length (queued self.now) }
        ensures most { result ≤ places_of self.now }
    {
        self.ring.len(self.places)
    }

    // What it holds, the oldest first.
    pub fn iter(&self) -> Iter<'_, T>
        ensures holds { to_come result ≡ queued self.now }
        ensures runs { YieldsInOrder (YieldsFirst {A = T} to_come) to_come }
    {
        Iter {
            ring: self.ring,
            places: self.places,
        }
    }

    // What it holds, as two parts of its memory, the older elements first.
    pub fn as_slices(&self) -> (&[T], &[T])
        ensures { result.0.now ++ result.1.now ≡ queued self.now }
    {
        self.ring.parts(self.places)
    }

    // The oldest element, where there is one.
    pub fn peek(&self) -> Option<T>
        ensures { result ≡ oldest (queued self.now) }
    {
        self.get(0)
    }

    // The element that comes k after the oldest, where there is one.
    pub fn get(&self, k: usize) -> Option<T>
        ensures { result ≡ oldest (drop k (queued self.now)) }
    {
        self.ring.get(self.places, k)
    }

    // The oldest element and the ring of the others, where there is one.
    fn split_first(&self) -> Option<(T, Ring)>
        ensures { MatchOption result (queued self.now ≡ []) (λ split. queued self.now ≡ split.0 ∷ in_ring split.1 self.now.places.now) }
    {
        self.ring.split_first(self.places)
    }

    // Takes an element in, as the newest. Refused with 11 where every place is taken.
    pub fn put(&mut self, x: T) -> Result<(), Refusal>
        ensures puts { Puts (queued self.old) (places_of self.old) x result (queued self.new) }
        ensures places { places_of self.new ≡ places_of self.old }
        ensures refused { OnErr result (self.new ≡ self.old) }
    {
        self.ring.put(self.places, x)
    }

    // Gives the oldest element and removes it. Refused with 4 where there is none.
    pub fn take(&mut self) -> Result<T, Refusal>
        ensures takes { Takes (queued self.old) result (queued self.new) }
        ensures places { places_of self.new ≡ places_of self.old }
        ensures refused { OnErr result (self.new ≡ self.old) }
    {
        let (x, ring) = self.split_first().ok_or(Refusal::Nothing)?;
        self.ring = ring;
        Ok(x)
    }
}
