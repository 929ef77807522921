// The calls that a script makes, and the letters of calls, ports and fates.
ghost use Rattle.std.specs.Prelude.{◌≡◌, ℕ, IfErr};
ghost use Rattle.refusal.specs.declared.Refusal.TheVariants.{NoSuchLine};
ghost use Rattle.refusal.specs.Naming.{Names, Tells};
ghost use Rattle.script.specs.Letters.{call_letter, port_letter, fate_letter};

use lane::noisy::Fate;
use refusal::Refusal;
use rules::state::PortId;

// What a line of a script does at a port. A link has an enum of its own for its five calls: a plan is none of them, and scripts are
// read without a link.
#[derive(Clone, Copy, Debug, PartialEq, Eq)]
pub enum Call {
    // seal a load and hold the packet
    Submit,
    // put the next frame onto the lane
    Send,
    // take a frame from the other lane
    Receive,
    // copy out the oldest packet that waits
    Collect,
    // give up waiting for what was sent
    TimeOut,
    // give the lane that the port writes its plan
    Plan,
}

// What a letter of a script tells. It is no `From` and `TryFrom`, since two of the three kinds are other crates' types.
pub trait Letter: Sized {
    ghost letter_of: { Self → ℕ };

    // The letter, which tells nothing else of this kind.
    fn letter(self) -> char
        ensures { Tells letter_of self result };

    // What a letter tells, if it tells one.
    fn of_letter(letter: char) -> Result<Self, Refusal>
        ensures told { Names letter_of letter result }
        ensures refused { IfErr result (λ refusal. refusal ≡ NoSuchLine) };
}

impl Letter for Call {
    ghost letter_of = { call_letter };

    fn letter(self) -> char {
        match self {
            Call::Submit => 'h',
            Call::Send => 's',
            Call::Receive => 'r',
            Call::Collect => 'c',
            Call::TimeOut => 'o',
            Call::Plan => 'p',
        }
    }

    fn of_letter(letter: char) -> Result<Call, Refusal> {
        match letter {
            'h' => Ok(Call::Submit),
            's' => Ok(Call::Send),
            'r' => Ok(Call::Receive),
            'c' => Ok(Call::Collect),
            'o' => Ok(Call::TimeOut),
            'p' => Ok(Call::Plan),
            _ => Err(Refusal::NoSuchLine),
        }
    }
}

impl Letter for PortId {
    ghost letter_of = { port_letter };

    fn letter(self) -> char {
        match self {
            PortId::A => 'a',
            PortId::B => 'b',
        }
    }

    fn of_letter(letter: char) -> Result<PortId, Refusal> {
        match letter {
            'a' => Ok(PortId::A),
            'b' => Ok(PortId::B),
            _ => Err(Refusal::NoSuchLine),
        }
    }
}

impl Letter for Fate {
    ghost letter_of = { fate_letter };

    fn letter(self) -> char {
        match self {
            Fate::Keep => 'k',
            Fate::Lose => 'l',
            Fate::Spoil => 's',
        }
    }

    fn of_letter(letter: char) -> Result<Fate, Refusal> {
        match letter {
            'k' => Ok(Fate::Keep),
            'l' => Ok(Fate::Lose),
            's' => Ok(Fate::Spoil),
            _ => Err(Refusal::NoSuchLine),
        }
    }
}
