// Sealed packets of a serial link (RapidIO Part 6, revision 1.3): a load with its CRC, or its two, padded to a multiple of 4.
// Sealing writes a packet to the front of a buffer, the check says whether a packet is sound, opening hands out the
// load as parts of it, and a frame is classified as a symbol, a packet or unsound.
// Promised: what sealing writes, byte for byte; that it is sound; that opening it gives the load back; that the check
// answers exactly the definition of sound; and that stamping an ackID changes no other bit and no soundness.
#![tactic(auto)]

pub mod check;
pub mod crc;
pub mod facts;
pub mod frame;
pub mod header;
pub mod opening;
pub mod sealing;
