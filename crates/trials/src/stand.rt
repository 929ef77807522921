// A port under trial, with the lane that it reads and the lane that it writes.
// What only prepares a trial is done without a look at its answer: were it refused, the lines after it would differ.
use lane::steady::Steady;
use lane::{FRAME, Lane};
use packet::{header, sealing};
use port::Port;
use refusal::Refusal;
use rules::state::{Received, Sent};
use symbol::Symbol;
use symbol::codes::{Stype0, Stype1};

#[derive(Drop)]
pub(crate) struct Stand<'r, 'w> {
    pub(crate) port: Port<'r, 'w>,
    pub(crate) incoming: Steady,
    pub(crate) out: Steady,
}

impl<'r, 'w> Stand<'r, 'w> {
    // A fresh port with empty lanes.
    pub(crate) fn of(port: Port<'r, 'w>) -> Stand<'r, 'w> {
        Stand {
            port,
            incoming: Steady::new(),
            out: Steady::new(),
        }
    }

    // The port receives the next frame on its lane, by way of a buffer.
    pub(crate) fn receive_by(&mut self, buffer: &mut [u8]) -> Result<Received, Refusal> {
        self.port.receive(&mut self.incoming, buffer)
    }

    // The port sends, by way of a buffer.
    pub(crate) fn send_by(&mut self, buffer: &mut [u8]) -> Result<Sent, Refusal> {
        self.port.send(&mut self.out, buffer)
    }

    // The port receives a frame.
    pub(crate) fn receive(&mut self, frame: &[u8]) -> Result<Received, Refusal> {
        let _ = self.incoming.put(frame);
        self.receive_by(&mut [0; FRAME])
    }

    // The port receives a symbol.
    pub(crate) fn hear(&mut self, symbol: Symbol) -> Result<Received, Refusal> {
        let mut place = [0; 3];
        let _ = symbol.write(&mut place);
        self.receive(&place)
    }

    // The port receives a packet under an ackID.
    pub(crate) fn offer(&mut self, ack_id: u8) -> Result<Received, Refusal> {
        let mut buffer = [0; FRAME];
        let packet = seal(6, ack_id, &mut buffer)?;
        self.receive(packet)
    }

    // The port submits a load of six bytes.
    pub(crate) fn submit(&mut self) -> Result<(), Refusal> {
        self.port.submit(&[0, 1, 2, 3, 4, 5])
    }

    // The port sends, and the frame is taken off its lane: the symbol that it is, if it is one.
    pub(crate) fn tell(&mut self) -> Result<Symbol, Refusal> {
        let mut buffer = [0; FRAME];
        let _ = self.send_by(&mut buffer);
        let n = self.out.take(&mut buffer)?;
        Symbol::read(&buffer[..n])
    }

    // The port submits and sends a packet, which is taken off its lane.
    pub(crate) fn submit_and_send(&mut self) {
        let _ = self.submit();
        let _ = self.tell();
    }
}

// A symbol that says one thing of an ackID, and asks nothing.
pub(crate) fn saying(says: Stype0, ack_id: u8, parameter1: u8) -> Symbol {
    Symbol::of(says, ack_id, parameter1, Stype1::Nop)
}

// Bytes that are not all alike: each is 37 above the one before it, less 256 where it would not fit.
fn bytes() -> [u8; FRAME] {
    let mut bytes = [0; FRAME];
    for (i, b) in bytes.iter_mut().enumerate() {
        *b = ((0xA7 + 37 * i) % 256) as u8;
    }
    bytes
}

// Seals a load of n bytes, stamps its packet with an ackID and answers the packet, which stands at the front of the buffer.
pub(crate) fn seal(n: usize, ack_id: u8, buffer: &mut [u8; FRAME]) -> Result<&mut [u8], Refusal> {
    let length = sealing::seal(&bytes()[..n.min(FRAME)], buffer)?;
    header::stamp(buffer, ack_id)?;
    Ok(&mut buffer[..length])
}
