// The link's own calls. Clauses see a link by its parts and what waits in its lanes: it has no view of its own, since a plan's promise
// names the lanes themselves.
ghost use Rattle.std.specs.Prelude.{◌≡◌, length};
ghost use Rattle.port.specs.Model.{port_of};
ghost use Rattle.link.specs.Joint.{Joint, port_at, Performs, KeepsDelivering, StartsDelivering};
ghost use Rattle.link.specs.Model.{joint_in, PlansAt};

use crate::Link;
use crate::call::{Call, Outcome};
use crate::performing::perform_at;
use lane::Lane;
use lane::noisy::{Fate, Noisy};
use port::Port;
use refusal::Refusal;
use rules::state::PortId;

impl<'r, 's, 'w, 'x, A: Lane, B: Lane> Link<'r, 's, 'w, 'x, A, B> {
    // Joins two ports by two lanes: a writes `from_a`, and b writes `from_b`.
    pub fn new(a: Port<'r, 'w>, b: Port<'s, 'x>, from_a: A, from_b: B) -> Link<'r, 's, 'w, 'x, A, B>
        ensures joins { joint_in A.Lane.waiting B.Lane.waiting result ≡ record { a = port_of a.entry; b = port_of b.entry; from_a = A.Lane.waiting from_a; from_b = B.Lane.waiting from_b } }
        ensures delivery { StartsDelivering A.Lane.LIMIT B.Lane.LIMIT (joint_in A.Lane.waiting B.Lane.waiting result) }
    {
        Link {
            a,
            b,
            from_a,
            from_b,
        }
    }

    // Does a call at one of the ports, with the load that a submit seals and a buffer for what the other calls copy.
    pub fn perform(
        &mut self,
        at: PortId,
        call: Call,
        load: &[u8],
        buffer: &mut [u8],
    ) -> Result<Outcome, Refusal>
        ensures performs { Performs A.Lane.LIMIT B.Lane.LIMIT at call load.now (joint_in A.Lane.waiting B.Lane.waiting self.old) buffer.old result (joint_in A.Lane.waiting B.Lane.waiting self.new) buffer.new }
        ensures delivery { KeepsDelivering A.Lane.LIMIT B.Lane.LIMIT at load.now (joint_in A.Lane.waiting B.Lane.waiting self.old) result (joint_in A.Lane.waiting B.Lane.waiting self.new) buffer.new }
    {
        match at {
            PortId::A => perform_at(
                &mut self.a,
                &mut self.from_a,
                &mut self.from_b,
                call,
                load,
                buffer,
            ),
            PortId::B => perform_at(
                &mut self.b,
                &mut self.from_b,
                &mut self.from_a,
                call,
                load,
                buffer,
            ),
        }
    }

    // How many packets a port holds.
    pub fn held(&self, at: PortId) -> usize
        ensures { result ≡ length (port_at at (joint_in A.Lane.waiting B.Lane.waiting self.now)).sender.held }
    {
        match at {
            PortId::A => self.a.held(),
            PortId::B => self.b.held(),
        }
    }
}

impl<'r, 's, 'w, 'x, A: Lane, B: Lane> Link<'r, 's, 'w, 'x, Noisy<A>, Noisy<B>> {
    // Starts a plan on the lane that a port writes; ports, frames and the other lane stay.
    pub fn set_plan(&mut self, at: PortId, entries: &[Fate])
        ensures plan { PlansAt at entries.now self.old self.new }
        ensures ports { (self.new.a ≡ self.old.a) × (self.new.b ≡ self.old.b) }
    {
        match at {
            PortId::A => self.from_a.set_plan(entries),
            PortId::B => self.from_b.set_plan(entries),
        }
    }
}
