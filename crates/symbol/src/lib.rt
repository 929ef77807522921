// Control symbols of a serial link (RapidIO Part 6, revision 1.3): three bytes with six fields.
// Writing takes the five fields before the check and refuses one that does not fit its bits; reading takes bytes
// of any number and refuses all but three that pass their check.
// Promised: fields written are the fields read, and bytes that were read are written again as those bytes.
#![tactic(auto)]

pub mod codes;
#[cfg(test)]
mod tests;

ghost use Rattle.std.specs.Prelude.{◌≡◌, ◌+◌, ◌-◌, ◌*◌, ◌/◌, ◌%◌, ◌<◌, ◌≤◌, ◌++◌, ◌↔◌, IsTrue};
ghost use Rattle.symbol.specs.Division.{took_bit};
ghost use Rattle.symbol.specs.Check.{check_of};
ghost use Rattle.symbol.specs.Layout.{Fits, unchecked_of, written_of, fields_of, read_of, Writes, ReadsBack, Divides, WritesBack};

use refusal::Refusal;

// A control symbol by the five fields before its check.
#[derive(Clone, Copy, Debug, PartialEq, Eq)]
pub struct Symbol {
    pub stype0: u8,
    pub parameter0: u8,
    pub parameter1: u8,
    pub stype1: u8,
    pub cmd: u8,
}

// The check's register, five bits, after one bit more.
fn took_bit(register: u8, bit: u8) -> u8
    requires { (register < 32) × (bit < 2) }
    ensures within { result < 32 }
    ensures value { result ≡ took_bit 5 0b10101 register bit }
{
    let moved = register << 1 & 0b11111;
    if register >> 4 == bit {
        moved
    } else {
        moved ^ 0b10101
    }
}

// The check of a symbol's first nineteen bits.
fn check_of(nineteen: u32) -> u8
    ensures within { result < 32 }
    ensures value { result ≡ check_of nineteen }
{
    let mut register = 0b11111;
    for i in (0..19u32).rev() {
        register = took_bit(register, (nineteen >> i & 1) as u8);
    }
    took_bit(register, 0)
}

impl Symbol {
    // Whether each field has a value that its bits can hold.
    fn fits(self) -> bool
        ensures { IsTrue result ↔ Fits self }
    {
        self.stype0 < 8
            && self.parameter0 < 32
            && self.parameter1 < 32
            && self.stype1 < 8
            && self.cmd < 8
    }

    // The five fields in three bytes, whatever their check.
    fn fields(a: u8, b: u8, c: u8) -> Symbol
        ensures value { result ≡ fields_of a b c }
        ensures fits { Fits result }
    {
        Symbol {
            stype0: a >> 5,
            parameter0: a & 0x1f,
            parameter1: b >> 3,
            stype1: b & 7,
            cmd: c >> 5,
        }
    }

    // The check of the five fields.
    fn check(self) -> u8
        requires { Fits self }
        ensures within { result < 32 }
        ensures value { result ≡ check_of (unchecked_of self) }
    {
        let byte = (self.stype0 as u32) << 5 | self.parameter0 as u32;
        let bytes = (byte << 5 | self.parameter1 as u32) << 3 | self.stype1 as u32;
        check_of(bytes << 3 | self.cmd as u32)
    }

    // Whether `check` is the check of the five fields.
    fn has_check(self, check: u8) -> bool
        requires { Fits self }
        ensures { IsTrue result ↔ (check ≡ check_of (unchecked_of self)) }
    {
        check == self.check()
    }

    // Fills a place of three bytes with the symbol and its check.
    // Refused with 8 where a field is too wide for its bits: the place then stays as it was.
    pub fn write(self, place: &mut [u8; 3]) -> Result<(), Refusal>
        ensures value { Writes self place.old result place.new }
        ensures reads_back { ReadsBack self result place.new }
        ensures divides { Divides self result }
    {
        if !self.fits() {
            return Err(Refusal::WideField);
        }
        let check = self.check();
        *place = [
            self.stype0 << 5 | self.parameter0,
            self.parameter1 << 3 | self.stype1,
            self.cmd << 5 | check,
        ];
        Ok(())
    }

    // Reads a symbol from three bytes that pass their check. Refused with 9 where they do not, or at any other length.
    pub fn read(bytes: &[u8]) -> Result<Symbol, Refusal>
        ensures value { result ≡ read_of bytes.now }
        ensures writes_back { WritesBack bytes.now result }
    {
        match bytes {
            [a, b, c] => {
                let symbol = Symbol::fields(*a, *b, *c);
                if symbol.has_check(*c & 0x1f) {
                    Ok(symbol)
                } else {
                    Err(Refusal::Unsound)
                }
            }
            _ => Err(Refusal::Unsound),
        }
    }
}
