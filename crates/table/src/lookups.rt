// What is told of the pending claims.
ghost use Rattle.std.specs.Prelude.{◌≡◌, ◌≤◌, position};
ghost use Rattle.std.specs.List.{list_any};
ghost use Rattle.rules.specs.Claims.{at};
ghost use Rattle.rules.specs.Tests.{named};
ghost use Rattle.rules.specs.Calls.{standing, standing_of, common_of, free_of, setting_of};
ghost use Rattle.rules.specs.Chains.{chain_of};
ghost use Rattle.plan.specs.Bounds.{most_at};
ghost use Rattle.table.specs.Outcomes.{past_end, waits, draws, chain_told};
ghost use Rattle.table.specs.States.{model};
ghost use Rattle.table.specs.Valid.{Valid};

use crate::state::{State, setting_of};
use numbers::Refusal;
use rules::{Claim, Common, Pending, Phase, Standing, Tickets};

// The place of the claim of a ticket. Cost: one pass at most.
pub(crate) fn find(pending: &Pending, ticket: u16) -> Option<usize>
    ensures { result ≡ position (named ticket) pending.now }
{
    pending.as_slice().iter().position(|c| c.ticket == ticket)
}

fn standing(c: Claim) -> Standing
    requires { at c ≤ most_at }
    ensures { result ≡ standing c }
{
    match c.phase {
        Phase::Waiting(start) => Standing::Waits(start),
        Phase::On(grant) => Standing::Holds(grant + u64::from(c.length)),
    }
}

// How the claim of a ticket stands. Cost: one pass at most.
pub(crate) fn lookup(t: &State, ticket: u16) -> Standing
    requires { Valid (model t.now) }
    ensures { result ≡ standing_of ticket t.now.pending }
{
    match find(&t.pending, ticket) {
        Some(i) => standing(t.pending.get(i)),
        None => Standing::NotPending,
    }
}

// Which group the claims of two tickets share. Cost: two passes at most.
pub(crate) fn common(t: &State, first: u16, second: u16) -> Common
    requires { Valid (model t.now) }
    ensures { result ≡ common_of first second t.now.pending }
{
    let Some(i) = find(&t.pending, first) else {
        return Common::Unknown;
    };
    let Some(j) = find(&t.pending, second) else {
        return Common::Unknown;
    };
    match groups::common(t.pending.get(i).groups, t.pending.get(j).groups) {
        Some(g) => Common::Shared(g),
        None => Common::Apart,
    }
}

// The units that no claim holds. Cost: one pass.
pub(crate) fn free(t: &State) -> u16
    requires { Valid (model t.now) }
    ensures { result ≡ free_of (model t.now) }
{
    let mut units = t.pool;
    for c in t.pending.as_slice() {
        units -= plan::units_held(*c);
    }
    units
}

// The blocking chain of a ticket that waits. Cost: one pass at most to find it, and one at most for each waiting claim of the chain.
pub(crate) fn why(t: &State, ticket: u16) -> Result<Tickets, Refusal>
    requires { Valid (model t.now) }
    ensures { chain_told result ≡ chain_of (setting_of (model t.now)) ticket t.now.pending }
{
    let Some(i) = find(&t.pending, ticket) else {
        return Err(Refusal::Unknown);
    };
    if t.pending.get(i).is_on() {
        return Err(Refusal::AlreadyOn);
    }
    Ok(chains::chain(&t.pending, setting_of(t), i))
}

// Whether a claim is on with its promised end below the clock.
fn overruns(clock: u64, c: Claim) -> bool
    ensures { result ≡ past_end clock c }
{
    c.is_on() && u64::from(c.length) < clock.saturating_sub(c.start_or_grant())
}

// Whether any claim does so. Cost: one pass at most.
pub(crate) fn anyone_overruns(pending: &Pending, clock: u64) -> bool
    ensures { result ≡ list_any (past_end clock) pending.now }
{
    pending.as_slice().iter().any(|c| overruns(clock, *c))
}

// Whether any claim waits. Cost: one pass at most.
pub(crate) fn anyone_waits(pending: &Pending) -> bool
    ensures { result ≡ list_any waits pending.now }
{
    pending.as_slice().iter().any(|c| !c.is_on())
}

// Whether any claim draws units. Cost: one pass at most.
pub(crate) fn anyone_draws(pending: &Pending) -> bool
    ensures { result ≡ list_any draws pending.now }
{
    pending.as_slice().iter().any(|c| c.units != 0)
}
