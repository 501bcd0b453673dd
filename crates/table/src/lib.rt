// The claims table: new, declare, set_grace, claim, release, withdraw, clock, lookup, common, free, why. A refused call changes nothing.
// A claim and a clock call pack only where the clock moves and a holder overruns; a release and a withdrawal only where somebody waits, and
// once more where a pending claim draws units, the clock moves and a holder overruns.
// What packing and placing cost is told in `plan`, what a chain costs in `chains`; everything else is a few passes.
#![tactic(auto)]

mod calls;
mod checks;
mod lookups;
mod shares;
mod state;
mod table;

use rules::{Reply, Tickets};
pub use state::State;
pub use table::Table;

// What an accepted call answers: its reply, whose `contention` and `bound` are document 01's crowd and ceiling, and the tickets granted, in
// ascending order.
#[derive(Clone, Copy)]
pub struct Accepted {
    pub reply: Reply,
    pub grants: Tickets,
}
