// The claims table as data: a pending claim, what a claim asks for, the rows that claims and tickets stand in, and what a lookup tells.
#![tactic(auto)]

ghost use Rattle.std.specs.Prelude.{◌≡◌};
ghost use Rattle.rules.specs.Calls.{asking};

mod pending;
mod tickets;

pub use pending::Pending;
pub use tickets::Tickets;

// "A pending claim is either waiting, with a planned start, or on, with the clock of its grant."
#[derive(Clone, Copy, Debug, PartialEq, Eq)]
pub enum Phase {
    Waiting(u64),
    On(u64),
}

// A claim: its set of groups (2^g for group g), its phase, its declared length in ticks, its ticket, the units that it draws from the pool,
// its client (document 02: desk). Fields in this order make it 40 bytes.
#[derive(Clone, Copy)]
pub struct Claim {
    pub groups: u64,
    pub phase: Phase,
    pub length: u32,
    pub ticket: u16,
    pub units: u16,
    pub client: u8,
}

impl Claim {
    ghost use Rattle.rules.specs.Claims.{on, at, with_phase};
    ghost use Rattle.rules.specs.declared.Phase.TheVariants.{Waiting, On};

    pub fn is_on(&self) -> bool
        ensures { result ≡ on self.now }
    {
        matches!(self.phase, Phase::On(_))
    }

    // The planned start of a waiting claim, the grant of an on claim.
    pub fn start_or_grant(&self) -> u64
        ensures { result ≡ at self.now }
    {
        match self.phase {
            Phase::Waiting(at) | Phase::On(at) => at,
        }
    }

    // The claim with another planned start.
    pub fn waiting_from(self, start: u64) -> Claim
        ensures { result ≡ with_phase self (Waiting start) }
    {
        Claim {
            phase: Phase::Waiting(start),
            ..self
        }
    }

    pub fn on_since(self, grant: u64) -> Claim
        ensures { result ≡ with_phase self (On grant) }
    {
        Claim {
            phase: Phase::On(grant),
            ..self
        }
    }
}

// What a claim asks for: a set of groups, a length in ticks, and units of the pool; and which client asks.
#[derive(Clone, Copy)]
pub struct Request {
    pub groups: u64,
    pub length: u32,
    pub units: u16,
    pub client: u8,
}

// What an accepted call answers, beside its grants. `contention` and `bound` are document 01's crowd and ceiling.
#[derive(Clone, Copy)]
pub struct Reply {
    pub ticket: u16,
    pub start: u64,
    pub contention: u64,
    pub bound: u64,
}

// What the rules of one call go by: its clock, the units in the pool (k followspots that do the same work), and the grace, the time in ticks
// that a holder past its promised end is expected to need from the clock on.
#[derive(Clone, Copy)]
pub struct Setting {
    pub clock: u64,
    pub pool: u16,
    pub grace: u32,
}

// A declared client's share of the table: the places reserved for it (document 02: its guarantee), and its limit.
#[derive(Clone, Copy, Debug, PartialEq, Eq)]
pub struct Share {
    pub reserved: u8,
    pub limit: u8,
}

// What a lookup tells of a ticket: not pending (8), waiting with its planned start, or on with its promised end.
#[derive(Clone, Copy)]
pub enum Standing {
    NotPending,
    Waits(u64),
    Holds(u64),
}

// What a lookup tells of two tickets: one of them is not pending (8), the lowest group that both their claims have, or none.
#[derive(Clone, Copy)]
pub enum Common {
    Unknown,
    Shared(usize),
    Apart,
}

// A request of client 1 for groups for a length of time, and nothing else.
pub fn asking(groups: u64, length: u32) -> Request
    ensures { result ≡ asking groups length }
{
    Request {
        groups,
        length,
        units: 0,
        client: 1,
    }
}
