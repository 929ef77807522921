// The rules of a link of two ports as definitions, and the delivery law proved of every run of such a link.
// There is no port in code here: specs/ says what a port is, what its calls make of it, and what a run is, over any
// wire format and any number of ackIDs. The functions below promise the laws to whoever builds on them.
#![tactic(auto)]

pub mod state;

ghost use Rattle.std.specs.Prelude.{◌≡◌, length};
ghost use Rattle.packet.specs.Facts.{Hold};
ghost use Rattle.rules.specs.Wire.{Lawful};
ghost use Rattle.rules.specs.Delivery.{Delivery};
ghost use Rattle.rules.specs.Serial.{serial, SealsLoads, ReadsNames, SpoilsByUnsound, SerialDelivery};
ghost use Rattle.rules.specs.Facts.{facts};

const FEWEST_ACK_IDS: u8 = 2;

const SERIAL_ACK_IDS: u8 = 32;

const FACTS: u8 = 10;

// The fewest ackIDs with which a link works: with one, no packet could be held.
// Promised with it, for every such number and every lawful wire format: after each call of every run, each packet was
// delivered once and in order, what was not received is still held and no output has failed, and a link at rest recovers.
pub fn fewest_ack_ids() -> u8
    ensures value { result ≡ 2 }
    ensures delivery { Delivery result }
{
    FEWEST_ACK_IDS
}

// The ackIDs of the serial format.
// Promised with it: the serial format is lawful, so that every run of a serial link delivers, and it is the symbol and
// packet crates' format, for which any unsound frame may stand in place of one that a lane spoils.
pub fn serial_ack_ids() -> u8
    ensures value { result ≡ 32 }
    ensures lawful { Lawful result serial }
    ensures seals { SealsLoads }
    ensures names { ReadsNames }
    ensures spoils { SpoilsByUnsound }
    ensures delivery { SerialDelivery result }
{
    SERIAL_ACK_IDS
}

// How many facts of the definitions are listed, the packet crate's of sealed lengths and those of windows; each holds.
pub fn facts_listed() -> u8
    ensures value { (result ≡ 10) × (result ≡ length facts) }
    ensures hold { Hold facts }
{
    let _ = packet::facts::hold();
    FACTS
}
