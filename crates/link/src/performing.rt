// One call at one port.
ghost use Rattle.std.specs.Prelude.{length};
ghost use Rattle.port.specs.Model.{port_of};
ghost use Rattle.link.specs.Performing.{Scene, Does};

use crate::call::{Call, Outcome};
use lane::Lane;
use port::Port;
use refusal::Refusal;

// Does a call at a port, which writes the lane `out` and reads the lane `incoming`. Only a submit looks at the load.
// The port and its lanes are three parameters: a struct of three loans would be written out at both ports just as the call is.
// The calls are an enum and no closures, since a script tells them.
pub(crate) fn perform_at<O: Lane, I: Lane>(
    port: &mut Port,
    out: &mut O,
    incoming: &mut I,
    call: Call,
    load: &[u8],
    buffer: &mut [u8],
) -> Result<Outcome, Refusal>
    ensures { Does O.Lane.LIMIT call load.now (record { port = port_of port.entry.now; out = O.Lane.waiting out.old; incoming = I.Lane.waiting incoming.old; buffer = buffer.old }) result (record { port = port_of port.exit.now; out = O.Lane.waiting out.new; incoming = I.Lane.waiting incoming.new; buffer = buffer.new }) }
{
    match call {
        Call::Submit => {
            port.submit(load)?;
            Ok(Outcome::Submitted)
        }
        Call::Send => Ok(Outcome::Sent(port.send(out, buffer)?)),
        Call::Receive => Ok(Outcome::Received(port.receive(incoming, buffer)?)),
        Call::Collect => Ok(Outcome::Collected(port.collect(buffer)?)),
        Call::TimeOut => Ok(Outcome::TimedOut(port.time_out())),
    }
}
