// A line of a script as a value.
ghost use Rattle.std.specs.Prelude.{◌≡◌};
ghost use Rattle.script.specs.Said.{said_by, call_of, port_of};

use crate::call::Call;
use lane::noisy::Fate;
use rules::state::PortId;

// A call at a port: with the load to submit, or with the plan for the lane that the port writes. A plan has 64 entries always,
// and is no list that grows.
#[derive(Debug, Drop)]
pub enum Line {
    Submit(PortId, Vec<u8>),
    Send(PortId),
    Receive(PortId),
    Collect(PortId),
    TimeOut(PortId),
    Plan(PortId, [Fate; 64]),
}

impl Line {
    pub fn call(&self) -> Call
        ensures { result ≡ call_of (said_by self.now) }
    {
        match self {
            Line::Submit(_, _) => Call::Submit,
            Line::Send(_) => Call::Send,
            Line::Receive(_) => Call::Receive,
            Line::Collect(_) => Call::Collect,
            Line::TimeOut(_) => Call::TimeOut,
            Line::Plan(_, _) => Call::Plan,
        }
    }

    pub fn port(&self) -> PortId
        ensures { result ≡ port_of (said_by self.now) }
    {
        match self {
            Line::Submit(port, _) | Line::Plan(port, _) => *port,
            Line::Send(port) | Line::Receive(port) | Line::Collect(port) | Line::TimeOut(port) =>
                *port,
        }
    }
}
