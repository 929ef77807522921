// The check against the standard's parallel equations, and what writing and reading refuse.
use crate::Symbol;
use refusal::Refusal;
use std::process::Abort;
use std::test::Fail;

// How many symbols there are without their check: nineteen bits.
const SYMBOLS: u32 = 1 << 19;

// The symbol whose first nineteen bits are those of `bits`.
fn symbol_of(bits: u32) -> Symbol {
    Symbol {
        stype0: (bits >> 16 & 7) as u8,
        parameter0: (bits >> 11 & 31) as u8,
        parameter1: (bits >> 6 & 31) as u8,
        stype1: (bits >> 3 & 7) as u8,
        cmd: (bits & 7) as u8,
    }
}

// One bit of the check: the exclusive or of the symbol's bits under the mask, bit 0 leftmost, and of 1 where it is inverted.
fn equation(bits: u32, mask: u32, inverted: u32) -> u32 {
    (bits & mask).count_ones() % 2 ^ inverted
}

// The check by the five equations of RapidIO Part 6, revision 1.3, for all nineteen bits at once; the first is the most significant.
fn parallel_check(bits: u32) -> u32 {
    let c0 = equation(bits, 0b110_11100_00101_001_101, 0) & 1;
    let c1 = equation(bits, 0b101_10010_00111_101_011, 1) & 1;
    let c2 = equation(bits, 0b010_11001_00011_110_101, 1) & 1;
    let c3 = equation(bits, 0b011_10000_10100_110_111, 1) & 1;
    let c4 = equation(bits, 0b101_11000_01010_011_011, 0) & 1;
    c0 << 4 | c1 << 3 | c2 << 2 | c3 << 1 | c4
}

// The three bytes of the symbol, as one number.
fn written(bits: u32) -> Result<u32, Fail> {
    let mut place = [0; 3];
    symbol_of(bits).write(&mut place)?;
    Ok(u32::from_be_bytes([0, place[0], place[1], place[2]]))
}

#[test]
fn every_symbol_has_the_parallel_check(rt: HostRuntime) -> Result<(), Fail> {
    for bits in 0..SYMBOLS {
        assert_eq!(rt; written(bits)?, bits << 5 | parallel_check(bits));
    }
    Ok(())
}

// Whether reading refuses the three bytes with each of their bits changed in turn.
fn every_change_is_refused(rt: &impl Abort, bytes: u32) {
    for i in 0..24u32 {
        let [_, a, b, c] = (bytes ^ 1 << i).to_be_bytes();
        assert_eq!(rt; Symbol::read(&[a, b, c]), Err(Refusal::Unsound));
    }
}

#[test]
fn a_changed_bit_is_refused(rt: HostRuntime) -> Result<(), Fail> {
    for bits in 0..SYMBOLS {
        every_change_is_refused(&rt, written(bits)?);
    }
    Ok(())
}

// Whether writing refuses the symbol and leaves the place as it was.
fn is_too_wide(rt: &impl Abort, symbol: Symbol) {
    let mut place = [1, 2, 3];
    assert_eq!(rt; symbol.write(&mut place), Err(Refusal::WideField));
    assert_eq!(rt; place, [1, 2, 3]);
}

#[test]
fn a_field_one_too_wide_is_refused(rt: HostRuntime) {
    let widest = Symbol {
        stype0: 7,
        parameter0: 31,
        parameter1: 31,
        stype1: 7,
        cmd: 7,
    };
    let mut place = [0; 3];
    assert_eq!(rt; widest.write(&mut place), Ok(()));
    is_too_wide(
        &rt,
        Symbol {
            stype0: 8,
            ..widest
        },
    );
    is_too_wide(
        &rt,
        Symbol {
            parameter0: 32,
            ..widest
        },
    );
    is_too_wide(
        &rt,
        Symbol {
            parameter1: 32,
            ..widest
        },
    );
    is_too_wide(
        &rt,
        Symbol {
            stype1: 8,
            ..widest
        },
    );
    is_too_wide(&rt, Symbol { cmd: 8, ..widest });
}

#[test]
fn other_lengths_are_refused(rt: HostRuntime) {
    let bytes = [0; 300];
    for n in 0..300 {
        if n != 3 {
            assert_eq!(rt; Symbol::read(&bytes[0..n]), Err(Refusal::Unsound));
        }
    }
}
