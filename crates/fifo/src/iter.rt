// Going over what a queue holds.
ghost use Rattle.std.specs.Iterator.{YieldsFirst, item_count};
ghost use Rattle.fifo.specs.Held.{to_come};

use crate::ring::Ring;

// The elements that are left, the oldest first.
#[derive(Drop)]
pub struct Iter<'q, T> {
    pub(crate) ring: Ring,
    pub(crate) places: &'q [T],
}

impl<'q, T: Copy> Iterator for Iter<'q, T> {
    type Item = T;

    ghost next_gives = { YieldsFirst to_come };

    ghost remaining = { item_count to_come };

    fn next(&mut self) -> Option<T> {
        let (x, ring) = self.ring.split_first(self.places)?;
        self.ring = ring;
        Some(x)
    }
}
