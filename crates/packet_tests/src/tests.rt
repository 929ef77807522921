ghost use Rattle.std.specs.Prelude.{◌≡◌, ◌+◌, ◌*◌, ◌<◌, ◌≤◌, length};

use packet::check::is_sound;
use packet::crc;
use packet::sealing::seal;
use refusal::Refusal;
use std::process::Abort;
use std::test::Fail;

// Fills a load with bytes that are not all alike.
fn fill(load: &mut [u8]) {
    for (i, b) in load.iter_mut().enumerate() {
        *b = ((0xA7 + i % 256 * 37) % 256) as u8;
    }
}

// Whether the packet is found sound with one bit turned; the packet itself stays.
fn sound_when_turned(packet: &mut [u8], bit: usize) -> bool
    requires { bit < length packet.old * 8 }
{
    let place = bit / 8;
    let mask = 0x80u8 >> (bit % 8);
    packet[place] ^= mask;
    let sound = is_sound(packet);
    packet[place] ^= mask;
    sound
}

// A turned bit is found, unless it is one of the first six. The bits go by number: while one is turned the whole packet is
// looked at, so no iterator over its bytes can lend it.
fn turned_bits(rt: &impl Abort, packet: &mut [u8])
    requires { length packet.old ≤ 276 }
{
    for bit in 0..packet.len() * 8 {
        let sound = sound_when_turned(packet, bit);
        assert_eq!(rt; sound, bit < 6);
    }
}

// Seals a load to a packet of the stated length and turns each of its bits.
fn turns(rt: &impl Abort, load: &mut [u8], expected: usize) -> Result<(), Fail> {
    let mut buffer = [0xFF; 276];
    fill(load);
    let n = seal(load, &mut buffer)?;
    assert!(rt; n == expected && n <= 276);
    assert!(rt; is_sound(&buffer[0..n]));
    turned_bits(rt, &mut buffer[0..n]);
    Ok(())
}

#[test]
fn known_check_value(rt: HostRuntime) {
    assert_eq!(rt; crc::run(0xFFFF, b"123456789"), 0x29B1);
}

#[test]
fn turned_bits_of_8(rt: HostRuntime) -> Result<(), Fail> {
    turns(&rt, &mut [0; 6], 8)
}

#[test]
fn turned_bits_of_84(rt: HostRuntime) -> Result<(), Fail> {
    turns(&rt, &mut [0; 80], 84)
}

#[test]
fn turned_bits_of_88(rt: HostRuntime) -> Result<(), Fail> {
    turns(&rt, &mut [0; 82], 88)
}

#[test]
fn turned_bits_of_276(rt: HostRuntime) -> Result<(), Fail> {
    turns(&rt, &mut [0; 272], 276)
}

// What sealing a load of n bytes should answer.
fn expected(n: usize) -> Result<usize, Refusal>
    requires { n ≤ 300 }
{
    match n {
        6..=80 if n % 4 == 0 => Ok(n + 4),
        6..=80 if n % 4 == 2 => Ok(n + 2),
        82..=272 if n % 4 == 0 => Ok(n + 4),
        82..=272 if n % 4 == 2 => Ok(n + 6),
        _ => Err(Refusal::LoadLength),
    }
}

fn each_length(rt: &impl Abort, load: &[u8], buffer: &mut [u8])
    requires { length load.now ≡ 300 }
{
    for n in 0..301usize {
        assert_eq!(rt; seal(&load[0..n], buffer), expected(n));
    }
}

#[test]
fn every_length(rt: HostRuntime) {
    each_length(&rt, &[0x5A; 300], &mut [0; 276]);
}

#[test]
fn short_buffer(rt: HostRuntime) {
    assert_eq!(rt; seal(&[0; 6], &mut [0; 275]), Err(Refusal::ShortBuffer));
    assert_eq!(rt; seal(&[0; 5], &mut [0; 275]), Err(Refusal::LoadLength));
}
