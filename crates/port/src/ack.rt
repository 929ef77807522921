// ackIDs: the numbers that packets go by.
ghost use Rattle.std.specs.Prelude.{◌≡◌, ◌+◌, ◌%◌};

use std::marker::Model;

// How many there are.
pub const ACK_IDS: u8 = 32;

#[derive(Clone, Copy)]
pub struct AckId {
    pub(crate) value: u8,
}

// Clauses see the number, which is below 32.
impl Model for AckId {
    ghost use Rattle.std.specs.Prelude.{ℕ, ◌<◌};

    ghost Value = { ℕ };

    ghost view = { λ a. a.value };

    ghost invariant = { λ a. a.value < 32 };

    ghost inverse = { λ n. record { value = n } };
}

impl AckId {
    pub(crate) fn zero() -> AckId
        ensures { result ≡ 0 }
    {
        AckId { value: 0 }
    }

    // The one that comes after it: 0 after 31.
    pub(crate) fn next(self) -> AckId
        ensures { result ≡ (self + 1) % 32 }
    {
        AckId {
            value: (self.value + 1) % ACK_IDS,
        }
    }
}
