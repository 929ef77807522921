// Trials that are counted by what they come to.

// What the first came to, how many came to the same, and how many to something else.
#[derive(Clone, Copy)]
#[derive_where(Default)]
pub(crate) struct Tally<T> {
    pub(crate) first: Option<T>,
    pub(crate) same: usize,
    pub(crate) others: usize,
}

impl<T: Copy + PartialEq> Tally<T> {
    // Trials are counted one at a time, as they come from loops in several places.
    pub(crate) fn count(&mut self, made: T) {
        if *self.first.get_or_insert(made) == made {
            self.same = self.same.saturating_add(1);
        } else {
            self.others = self.others.saturating_add(1);
        }
    }
}
