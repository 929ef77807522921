// The codes of a symbol's fields that have a name. A code without one is still read and written, as a number.
// Each enum has its own conversions, since no derive writes them: they are its table.
ghost use Rattle.std.specs.Prelude.{◌≡◌};
ghost use Rattle.refusal.specs.Naming.{Tells, Names};
ghost use Rattle.symbol.specs.Codes.{stype0_of, stype1_of, cmd_of, cause_of, status_of, Means, NamesBoth, symbol_of};

use crate::Symbol;

// A code that has no name.
#[derive(Clone, Copy, Debug, PartialEq, Eq)]
pub struct NoName;

// What a symbol says first: of a packet, or of the port that sends the symbol.
#[derive(Clone, Copy, Debug, PartialEq, Eq)]
pub enum Stype0 {
    Accepted = 0,
    Retry = 1,
    NotAccepted = 2,
    Status = 4,
    Response = 6,
}

impl From<Stype0> for u8 {
    ghost from_gives = { Tells stype0_of };

    fn from(name: Stype0) -> u8 {
        name as u8
    }
}

impl TryFrom<u8> for Stype0 {
    type Error = NoName;

    ghost try_from_gives = { Names stype0_of };

    fn try_from(code: u8) -> Result<Stype0, NoName> {
        match code {
            0 => Ok(Stype0::Accepted),
            1 => Ok(Stype0::Retry),
            2 => Ok(Stype0::NotAccepted),
            4 => Ok(Stype0::Status),
            6 => Ok(Stype0::Response),
            _ => Err(NoName),
        }
    }
}

// What a symbol asks of its receiver: to take packets again after a retry, to answer with its input's state, or nothing.
#[derive(Clone, Copy, Debug, PartialEq, Eq)]
pub enum Stype1 {
    Restart = 3,
    Request = 4,
    Nop = 7,
}

impl From<Stype1> for u8 {
    ghost from_gives = { Tells stype1_of };

    fn from(name: Stype1) -> u8 {
        name as u8
    }
}

impl Stype1 {
    // The command that is sent with it.
    pub fn cmd(self) -> u8
        ensures value { result ≡ cmd_of self }
        ensures means { Means self (stype1_of self) result }
    {
        match self {
            Stype1::Request => 4,
            Stype1::Restart | Stype1::Nop => 0,
        }
    }
}

// The name of the two fields stype1 and cmd, where they have one.
impl TryFrom<(u8, u8)> for Stype1 {
    type Error = NoName;

    ghost try_from_gives = { NamesBoth };

    fn try_from(codes: (u8, u8)) -> Result<Stype1, NoName> {
        match codes {
            (3, _) => Ok(Stype1::Restart),
            (4, 4) => Ok(Stype1::Request),
            (7, _) => Ok(Stype1::Nop),
            _ => Err(NoName),
        }
    }
}

impl Symbol {
    // The symbol that says one thing, with an ackID and a second parameter, and asks another.
    pub fn of(says: Stype0, ack_id: u8, parameter1: u8, asks: Stype1) -> Symbol
        ensures { result ≡ symbol_of says ack_id parameter1 asks }
    {
        Symbol {
            stype0: says.into(),
            parameter0: ack_id,
            parameter1,
            stype1: asks.into(),
            cmd: asks.cmd(),
        }
    }
}

// Why a packet was not accepted.
#[derive(Clone, Copy, Debug, PartialEq, Eq)]
pub enum Cause {
    UnexpectedAckId = 1,
    SymbolCheck = 2,
    PacketCheck = 4,
    InvalidCharacter = 5,
}

impl From<Cause> for u8 {
    ghost from_gives = { Tells cause_of };

    fn from(name: Cause) -> u8 {
        name as u8
    }
}

impl TryFrom<u8> for Cause {
    type Error = NoName;

    ghost try_from_gives = { Names cause_of };

    fn try_from(code: u8) -> Result<Cause, NoName> {
        match code {
            1 => Ok(Cause::UnexpectedAckId),
            2 => Ok(Cause::SymbolCheck),
            4 => Ok(Cause::PacketCheck),
            5 => Ok(Cause::InvalidCharacter),
            _ => Err(NoName),
        }
    }
}

// The state of a port, as a response gives it.
#[derive(Clone, Copy, Debug, PartialEq, Eq)]
pub enum PortStatus {
    Failed = 2,
    RetryStopped = 4,
    ErrorStopped = 5,
    Ready = 16,
}

impl From<PortStatus> for u8 {
    ghost from_gives = { Tells status_of };

    fn from(name: PortStatus) -> u8 {
        name as u8
    }
}

impl TryFrom<u8> for PortStatus {
    type Error = NoName;

    ghost try_from_gives = { Names status_of };

    fn try_from(code: u8) -> Result<PortStatus, NoName> {
        match code {
            2 => Ok(PortStatus::Failed),
            4 => Ok(PortStatus::RetryStopped),
            5 => Ok(PortStatus::ErrorStopped),
            16 => Ok(PortStatus::Ready),
            _ => Err(NoName),
        }
    }
}
