// Granting, over a packed row: one pass for the groups and the units that are held, and one for those that go on.
// What is granted is defined in rules, specs/Granting.antt; that these passes tell it is `goes-quick` of its proofs.
ghost use Rattle.std.specs.Prelude.{◌≡◌};
ghost use Rattle.rules.specs.Granting.{grant, grants};
ghost use Rattle.rules.specs.Plans.{StartsFrom};
ghost use Rattle.rules.specs.Pool.{held_by};
ghost use Rattle.plan.specs.Rows.{InRange};
ghost use Rattle.plan.specs.Holders.{goes_at};

use rules::{Claim, Pending, Setting, Tickets};

// The units that a claim holds. Cost: a few instructions.
pub fn units_held(c: Claim) -> u16
    ensures { result ≡ held_by c }
{
    if c.is_on() { c.units } else { 0 }
}

// Whether a claim waits, starts at the clock, has no group that is held and draws no more units than are free. Cost: a few instructions.
fn goes(clock: u64, held: u64, free: u16, c: Claim) -> bool
    ensures { result ≡ goes_at clock held free c }
{
    !c.is_on() && c.start_or_grant() == clock && !groups::shares(held, c.groups) && c.units <= free
}

// Grants what no pending claim precedes, by ticket while units are free, and tells the tickets. Cost: two passes over the claims.
pub fn grant(pending: &mut Pending, v: Setting) -> Tickets
    requires { InRange v pending.old × StartsFrom v.clock pending.old }
    ensures granted { pending.new ≡ grant v pending.old }
    ensures tickets { result ≡ grants v pending.old }
{
    let mut held: u64 = 0;
    let mut free = v.pool;
    for c in pending.as_slice() {
        if c.is_on() {
            held = groups::union(held, c.groups);
            free -= c.units;
        }
    }
    let mut tickets = Tickets::new();
    for i in 0..pending.len() {
        let c = pending.get(i);
        if goes(v.clock, held, free, c) {
            free -= c.units;
            pending.set(i, c.on_since(v.clock));
            tickets.push(c.ticket);
        }
    }
    tickets
}
