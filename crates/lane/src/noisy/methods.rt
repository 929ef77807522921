// What a noisy lane does.
ghost use Rattle.std.specs.Prelude.{◌≡◌, ◌≤◌};
ghost use Rattle.lane.specs.Plans.{keep_all, plan_of, Plays, SamePlan};
ghost use Rattle.std.proofs.Common.{rules};

use crate::Lane;
use crate::admitting::admit;
use crate::noisy::{Fate, Noisy, PLAN};
use refusal::Refusal;

impl<L: Lane> Noisy<L> {
    // A noisy lane over another, with a plan that keeps every frame.
    pub fn new(below: L) -> Noisy<L>
        ensures below { result.below ≡ below }
        ensures plan { result.plan ≡ keep_all }
        ensures next { result.next ≡ 0 }
    {
        Noisy {
            below,
            plan: [Fate::Keep; PLAN],
            next: 0,
        }
    }

    // Starts a plan from its first entry. Past its end every frame is kept, and entries past the 64th are not used.
    pub fn set_plan(&mut self, entries: &[Fate])
        ensures plan { self.new.plan ≡ plan_of entries.now }
        ensures next { self.new.next ≡ 0 }
        ensures below { self.new.below ≡ self.old.below }
    {
        let used = entries.len().min(PLAN);
        let mut plan = [Fate::Keep; PLAN];
        plan[..used].copy_from_slice(&entries[..used]);
        self.plan = plan;
        self.next = 0;
    }
}

impl<L: Lane> Lane for Noisy<L> {
    const LIMIT: usize = L::LIMIT;

    ghost LIMIT = { L.Lane.LIMIT };

    ghost waiting = { λ s. L.Lane.waiting s.below };

    // it does what its plan says
    ghost puts = { Plays L.Lane.puts };

    // it keeps its plan and the place in it
    ghost takes = { λ s t. SamePlan s t × L.Lane.takes s.below t.below };

    ghost bounds = { Prim.search rules };

    ghost within = { Prim.search rules };

    ghost sized = { Prim.search rules };

    fn count(&self) -> usize {
        self.below.count()
    }

    fn put(&mut self, frame: &[u8]) -> Result<(), Refusal> {
        admit(frame, self.count(), Self::LIMIT)?;
        let place = self.next % PLAN;
        match self.plan[place] {
            Fate::Keep => self.below.put(frame)?,
            Fate::Lose => {}
            Fate::Spoil => self.below.put(&[0])?,
        }
        self.next = (place + 1) % PLAN;
        Ok(())
    }

    fn take(&mut self, buffer: &mut [u8]) -> Result<usize, Refusal> {
        self.below.take(buffer)
    }
}
