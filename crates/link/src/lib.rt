// A link of two ports and two lanes, of any two kinds, and the delivery promise of every call at it.
// `Link::perform` does one of the five calls at one of the ports. Promised of each: it answers and leaves what the
// rules say, a refused call changes nothing, and whatever run of calls brought the link where it was, delivery holds
// where it is now: nothing is lost, nothing comes twice or out of order, and a link at rest recovers.
#![tactic(auto)]

pub mod call;
mod joined;
mod performing;

use port::Port;

// Two ports, and the lane that each of them writes and the other reads.
#[derive(Drop)]
pub struct Link<'r, 's, 'w, 'x, A, B> {
    a: Port<'r, 'w>,
    b: Port<'s, 'x>,
    from_a: A,
    from_b: B,
}
