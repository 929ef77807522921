// Rings: the places of a slice, read from a head on and past the last from the first again.
ghost use Rattle.std.specs.Prelude.{◌≡◌, ◌<◌, ◌≤◌, [], ◌∷◌, ◌++◌, length, drop, OnOk, OnErr, IfSome, MatchOption};
ghost use Rattle.fifo.specs.Turned.{At};
ghost use Rattle.fifo.specs.Held.{in_ring, oldest, Puts};

use refusal::Refusal;

// The place that comes k after the head in a ring of n places. A head past the places reads as 0.
pub fn place(head: usize, k: usize, n: usize) -> usize
    ensures at { At head k n result }
    ensures within { k < n → result < n }
{
    if head >= n {
        k
    } else if k < n - head {
        head + k
    } else {
        k - (n - head)
    }
}

// Which places of a slice hold elements: `len` of them, from `head` on. Each call is lent the slice.
// Every value is a ring in every slice: a head past the places reads as 0, and a length past them as full.
#[derive(Clone, Copy)]
pub struct Ring {
    pub head: usize,
    pub len: usize,
}

impl Ring {
    // How many elements it holds.
    pub fn len<T>(&self, places: &[T]) -> usize
        ensures value { result ≡ length (in_ring self.now places.now) }
        ensures most { result ≤ length places.now }
    {
        self.len.min(places.len())
    }

    // The element that comes k after the oldest, where there is one.
    pub fn get<T: Copy>(&self, places: &[T], k: usize) -> Option<T>
        ensures { result ≡ oldest (drop k (in_ring self.now places.now)) }
    {
        if k >= self.len(places) {
            return None;
        }
        Some(places[place(self.head, k, places.len())])
    }

    // What it holds, as two parts of the slice: the older elements lie from the head on, and the newer from the first place on.
    pub fn parts<'p, T>(&self, places: &'p [T]) -> (&'p [T], &'p [T])
        ensures { result.0.now ++ result.1.now ≡ in_ring self.now places.now }
    {
        let (before, from) = places.split_at(self.head.min(places.len()));
        let older = self.len.min(from.len());
        let newer = (self.len - older).min(before.len());
        (&from[..older], &before[..newer])
    }

    // Takes an element in, as the newest. Refused with 11 where every place is taken.
    pub fn put<T: Copy>(&mut self, places: &mut [T], x: T) -> Result<(), Refusal>
        ensures puts { Puts (in_ring self.old places.old) (length places.old) x result (in_ring self.new places.new) }
        ensures places { length places.new ≡ length places.old }
        ensures within { OnOk result (self.new.len ≤ length places.new) }
        ensures refused { OnErr result ((self.new ≡ self.old) × (places.new ≡ places.old)) }
    {
        if self.len >= places.len() {
            return Err(Refusal::QueueFull);
        }
        let i = place(self.head, self.len, places.len());
        places[i] = x;
        self.len += 1;
        Ok(())
    }

    // The oldest element, where it lies, and the ring of the others, where there is one.
    pub fn split_first_ref<'p, T>(&self, places: &'p [T]) -> Option<(&'p T, Ring)>
        ensures splits { MatchOption result (in_ring self.now places.now ≡ []) (λ split. in_ring self.now places.now ≡ split.0.now ∷ in_ring split.1 places.now) }
        ensures within { IfSome result (λ split. split.1.len ≤ length places.now) }
    {
        let len = self.len(places);
        if len == 0 {
            return None;
        }
        let x = &places[place(self.head, 0, places.len())];
        let head = place(self.head, 1, places.len());
        Some((x, Ring { head, len: len - 1 }))
    }

    // The oldest element and the ring of the others, where there is one.
    pub fn split_first<T: Copy>(&self, places: &[T]) -> Option<(T, Ring)>
        ensures splits { MatchOption result (in_ring self.now places.now ≡ []) (λ split. in_ring self.now places.now ≡ split.0 ∷ in_ring split.1 places.now) }
        ensures within { IfSome result (λ split. split.1.len ≤ length places.now) }
    {
        let (x, ring) = self.split_first_ref(places)?;
        Some((*x, ring))
    }
}
