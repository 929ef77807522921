// The fields of a packet's first two bytes. The ackID is stamped anew at each sending, and no CRC covers it.
// Each field is read in a line of its own: one function of a place, a shift and a mask would be no plainer.
ghost use Rattle.std.specs.Prelude.{◌≡◌, ◌+◌, ◌-◌, ◌*◌, ◌/◌, ◌%◌, ◌<◌, ◌≤◌, [], ◌∷◌, ◌++◌, length};
ghost use Rattle.packet.specs.Crc.{cleared_of};
ghost use Rattle.packet.specs.Header.{ack_id_of, stamped_of, priority_of, tt_of, ftype_of, Stamps, ReadsAckId, SameButAckId};
ghost use Rattle.packet.specs.Soundness.{sound_of};

use refusal::Refusal;

// The ackID: the first five bits. None where there is no byte.
pub fn ack_id(packet: &[u8]) -> Option<u8>
    ensures { result ≡ ack_id_of packet.now }
{
    packet.first().map(|first| *first >> 3)
}

// Sets the first five bits to an ackID and leaves all else. Refused with 8 where it takes more than five bits.
pub fn stamp(packet: &mut [u8], ack_id: u8) -> Result<(), Refusal>
    ensures value { Stamps ack_id packet.old result packet.new }
    ensures reads { ReadsAckId ack_id packet.old result packet.new }
    ensures same { SameButAckId packet.old packet.new }
{
    if ack_id >= 32 {
        return Err(Refusal::WideField);
    }
    if let Some(first) = packet.first_mut() {
        *first = ack_id << 3 | *first & 0b111;
    }
    Ok(())
}

// Sets the first six bits to zero, which no CRC covers, and leaves all else.
pub fn clear(packet: &mut [u8])
    ensures value { packet.new ≡ cleared_of packet.old }
    ensures sound { sound_of packet.new ≡ sound_of packet.old }
{
    if let Some(first) = packet.first_mut() {
        *first &= 0b11;
    }
}

// The priority: the first two bits of byte 1. None where there is no such byte.
pub fn priority(packet: &[u8]) -> Option<u8>
    ensures { result ≡ priority_of packet.now }
{
    packet.get(1).map(|second| *second >> 6)
}

// The tt field: the next two bits.
pub fn tt(packet: &[u8]) -> Option<u8>
    ensures { result ≡ tt_of packet.now }
{
    packet.get(1).map(|second| *second >> 4 & 0b11)
}

// The format type: the last four bits of byte 1.
pub fn ftype(packet: &[u8]) -> Option<u8>
    ensures { result ≡ ftype_of packet.now }
{
    packet.get(1).map(|second| *second & 0b1111)
}
