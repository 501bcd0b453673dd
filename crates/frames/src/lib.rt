// The claims of a frame table as data, for dance shows, where everything lasts one beat: the uniform variant of C-RNLP (request P2: a beat
// profile). A row is the claims of one frame; the head row is row 0, and is on.
#![tactic(auto)]

ghost use Rattle.std.specs.Prelude.{◌≡◌};

mod pending;

pub use pending::Pending;

// A claim: its set of groups (2^g for group g), its ticket, and its row, counted from the head. 16 bytes.
#[derive(Clone, Copy)]
pub struct Claim {
    pub groups: u64,
    pub ticket: u16,
    pub row: u16,
}

impl Claim {
    ghost use Rattle.frames.specs.Rows.{on, nearer};

    // Whether it is in the head row.
    pub fn is_on(&self) -> bool
        ensures { result ≡ on self.now }
    {
        self.row == 0
    }

    // The claim one row nearer to the head.
    pub fn nearer(self) -> Claim
        ensures { result ≡ nearer self }
    {
        Claim {
            row: self.row.saturating_sub(1),
            ..self
        }
    }
}
