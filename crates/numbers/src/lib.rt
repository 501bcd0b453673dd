// Why a call is turned down, with the number of each reason, and the limits, as in specs/Numbers.antt: their one home in code.
#![tactic(auto)]

ghost use Rattle.std.specs.Prelude.{◌≡◌};
ghost use Rattle.numbers.specs.Refusals.{number_in};

// Why a call is turned down, by the trade's word, with its number.
#[derive(Clone, Copy, Debug, PartialEq, Eq)]
pub enum Refusal {
    Dark = 1,
    OffRig = 2,
    BadLength = 3,
    Backward = 4,
    Late = 5,
    Full = 6,
    Ticketless = 7,
    Unknown = 8,
    NotYetOn = 9,
    AlreadyOn = 10,
    Edition = 11,
    Short = 12,
    Misfit = 13,
    Overlong = 14,
    NoSpace = 15,
    Spots = 16,
    Stranger = 17,
    Over = 18,
    Overbooked = 19,
    Count = 20,
    Grace = 21,
}

impl From<Refusal> for u8 {
    ghost use Rattle.numbers.specs.Refusals.{number_of};

    ghost from_gives = { λ r n. n ≡ number_of r };

    fn from(refusal: Refusal) -> u8 {
        refusal as u8
    }
}

// What a call answers by number: 0 where it is accepted.
pub fn number<T>(answer: &Result<T, Refusal>) -> u8
    ensures { result ≡ number_in answer.now }
{
    match answer {
        Ok(_) => 0,
        Err(refusal) => u8::from(*refusal),
    }
}

// The last clock, the longest length and the longest grace in ticks, how many tickets a table issues, how many claims are pending, how many
// clients there are, the bytes of a load, the claims of a workload.
pub const MOST_CLOCK: u64 = 1_000_000_000_000;

pub const MOST_LENGTH: u32 = 3_600_000;

pub const MOST_GRACE: u32 = 60_000;

pub const MOST_TICKETS: u16 = 65_535;

pub const MOST_PENDING: usize = 64;

pub const MOST_CLIENTS: u8 = 8;

pub const MOST_BYTES: usize = 65_536;

pub const MOST_CLAIMS: u32 = 1_000;
