// Blocking chains, in code: from a claim to the one that ends at its start, until one is on. For the crate `table` alone, whose `why` hands
// over the row of a table between calls. What a chain is, is defined in the rules' specs/Chains.antt.
#![tactic(auto)]

ghost use Rattle.std.specs.Prelude.{◌≡◌, ◌+◌, ◌≤◌, ◌<◌, ◌++◌, map, ℕ, length, get_or};
ghost use Rattle.rules.specs.Vacant.{vacant};
ghost use Rattle.rules.specs.Lists.{◌∈◌};
ghost use Rattle.rules.specs.Order.{meets};
ghost use Rattle.rules.specs.Invariants.{Settled};
ghost use Rattle.rules.specs.Chains.{link, chain};
ghost use Rattle.plan.specs.Rows.{InRange};

use rules::{Claim, Pending, Setting, Tickets};

// Whether two claims have a group, or the pool, in common. Cost: three tests at most.
fn meets(c: Claim, w: Claim) -> bool
    ensures { result ≡ meets c w }
{
    groups::shares(c.groups, w.groups) || (0 < c.units && 0 < w.units)
}

// The first of the claims that ends at the start of `w` and has a group, or the pool, in common with it; `w` where there is none. They stand by
// ticket, so it is the lowest. Cost: one pass at most, a test of two ends for each.
fn link(claims: &[Claim], v: Setting, w: Claim) -> Claim
    requires { InRange v claims.now }
    ensures { result ≡ link v claims.now w }
{
    for c in claims {
        if plan::end_of(v, *c) == w.start_or_grant() && meets(*c, w) {
            return *c;
        }
    }
    w
}

// Adds the tickets of the chain of a claim of the row, which are few enough. The start falls from claim to claim, so it ends. Cost: one pass
// at most for each waiting claim of the chain.
#[tactic(auto, using(crate::proofs::Following::ends_here))]
fn follow(claims: &[Claim], v: Setting, c: Claim, tickets: &mut Tickets)
    requires { InRange v claims.now × ((q : ℕ) × Settled q v claims.now) × c ∈ claims.now × (length tickets.old + length (chain v claims.now c) ≤ 64) }
    ensures { tickets.new ≡ tickets.old ++ map (λ d. d.ticket) (chain v claims.now c) }
{
    tickets.push(c.ticket);
    if c.is_on() {
        return;
    }
    follow(claims, v, link(claims, v, c), tickets);
}

// The tickets of the blocking chain of the claim at place i. Cost: one pass at most for each waiting claim of the chain.
pub fn chain(pending: &Pending, v: Setting, i: usize) -> Tickets
    requires { InRange v pending.now × ((q : ℕ) × Settled q v pending.now) × (i < length pending.now) }
    ensures { result ≡ map (λ c. c.ticket) (chain v pending.now (get_or pending.now i vacant)) }
{
    let mut tickets = Tickets::new();
    follow(pending.as_slice(), v, pending.get(i), &mut tickets);
    tickets
}
