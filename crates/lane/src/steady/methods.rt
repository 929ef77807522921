// What a steady lane does.
ghost use Rattle.std.specs.Prelude.{◌≡◌, [], ◌∷◌, ◌++◌};
ghost use Rattle.lane.specs.Slots.{held, frames_of};
ghost use Rattle.std.proofs.Common.{rules, length-take};
ghost use Rattle.std.proofs.lemmas.List.{length-map};
ghost use Rattle.lane.specs.Meaning.{SizedFrame};
ghost use Rattle.std.proofs.lemmas.List.Elements.{All-map};

use crate::admitting::admit;
use crate::steady::{SLOTS, Slot, Steady};
use crate::{FRAME, Lane};
use fifo::ring::Ring;
use refusal::Refusal;

impl Steady {
    // A steady lane in which no frame waits.
    pub fn new() -> Steady
        ensures { frames_of result ≡ [] }
    {
        let slot = Slot {
            bytes: [0; FRAME],
            len: 1,
        };
        Steady {
            slots: [slot; SLOTS],
            ring: Ring { head: 0, len: 0 },
        }
    }
}

impl Lane for Steady {
    const LIMIT: usize = SLOTS;

    ghost LIMIT = { 16 };

    ghost waiting = { frames_of };

    // It always gains the frame put.
    ghost puts = { λ s f t. frames_of t ≡ frames_of s ++ f ∷ [] };

    ghost takes = { λ _ _. Unit {0} };

    ghost bounds = { Prim.search rules };

    ghost within = { λ s. Prim.search (rules, length-map, length-take) };

    ghost sized = { λ s. All-map SizedFrame held _ (λ k d lt. Prim.search rules) };

    fn count(&self) -> usize {
        self.ring.len(&self.slots)
    }

    fn put(&mut self, frame: &[u8]) -> Result<(), Refusal> {
        admit(frame, self.count(), Self::LIMIT)?;
        self.ring.put(&mut self.slots, Slot::of(frame))
    }

    fn take(&mut self, buffer: &mut [u8]) -> Result<usize, Refusal> {
        if buffer.len() < FRAME {
            return Err(Refusal::ShortBuffer);
        }
        let (slot, ring) = self
            .ring
            .split_first_ref(&self.slots)
            .ok_or(Refusal::Nothing)?;
        let n = slot.copy_out(buffer);
        self.ring = ring;
        Ok(n)
    }
}
