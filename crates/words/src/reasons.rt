// Why a line of text says no call.
use numbers::Refusal;

// Each reason of a word or a line has a number from 101 on, so that none can be taken for a number of document 01; a refusal of document 01
// that is told of a line keeps its own.
#[derive(Clone, Copy, Debug, PartialEq, Eq)]
pub enum Reason {
    Unknown,
    Missing,
    TooMany,
    NoClock,
    NoTicket,
    NoLength,
    NoGroups,
    TooLarge,
    Over63,
    Backward,
    NoPool,
    NoUnits,
    NoClient,
    NoReserved,
    NoLimit,
    NoGrace,
    Refused(Refusal),
}

impl From<Refusal> for Reason {
    ghost use Rattle.std.specs.Prelude.{◌≡◌};
    ghost use Rattle.words.specs.declared.reasons.Reason.TheVariants.{Refused};

    ghost from_gives = { λ refusal reason. reason ≡ Refused refusal };

    fn from(refusal: Refusal) -> Reason {
        Reason::Refused(refusal)
    }
}

impl From<Reason> for u8 {
    ghost use Rattle.std.specs.Prelude.{◌≡◌};
    ghost use Rattle.words.specs.Reasons.{reason_number};

    ghost from_gives = { λ reason n. n ≡ reason_number reason };

    fn from(reason: Reason) -> u8 {
        match reason {
            Reason::Unknown => 101,
            Reason::Missing => 102,
            Reason::TooMany => 103,
            Reason::NoClock => 104,
            Reason::NoTicket => 105,
            Reason::NoLength => 106,
            Reason::NoGroups => 107,
            Reason::TooLarge => 108,
            Reason::Over63 => 109,
            Reason::Backward => 110,
            Reason::NoPool => 111,
            Reason::NoUnits => 112,
            Reason::NoClient => 113,
            Reason::NoReserved => 114,
            Reason::NoLimit => 115,
            Reason::NoGrace => 116,
            Reason::Refused(refusal) => u8::from(refusal),
        }
    }
}
