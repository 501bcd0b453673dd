// The parts of a table.
ghost use Rattle.std.specs.Prelude.{◌≡◌};
ghost use Rattle.rules.specs.Calls.{setting_of};
ghost use Rattle.table.specs.States.{model};

use rules::{Pending, Setting, Share};

#[derive(Clone, Copy)]
pub struct State {
    pub rig: u64,
    pub clock: u64,
    pub pool: u16,
    pub issued: u16,
    pub grace: u32,
    pub shares: [Option<Share>; 8],
    pub pending: Pending,
}

pub(crate) fn setting_of(t: &State) -> Setting
    ensures { result ≡ setting_of (model t.now) }
{
    Setting {
        clock: t.clock,
        pool: t.pool,
        grace: t.grace,
    }
}
