// The parts of a call that is accepted.
ghost use Rattle.std.specs.Prelude.{◌≡◌, ◌≤◌, ◌<◌, length, Ok};
ghost use Rattle.numbers.specs.Numbers.{most_clock, most_length, most_pending, most_tickets};
ghost use Rattle.rules.specs.Calls.{advance, finish, remove, admit};
ghost use Rattle.rules.specs.Invariants.{Still};
ghost use Rattle.table.specs.Outcomes.{answer_of, number_alone, departed};
ghost use Rattle.table.specs.States.{model};
ghost use Rattle.table.specs.Valid.{Ranged, Valid};

use crate::Accepted;
use crate::lookups::{anyone_draws, anyone_overruns, anyone_waits, find};
use crate::state::{State, setting_of};
use rules::{Claim, Phase, Reply, Request, Tickets};

// An answer that tells nothing but that the call is accepted.
pub(crate) fn accepted() -> Accepted
    ensures { answer_of (Ok result) ≡ number_alone 0 }
{
    Accepted {
        reply: Reply {
            ticket: 0,
            start: 0,
            contention: 0,
            bound: 0,
        },
        grants: Tickets::new(),
    }
}

// Sets the clock, and packs: at the table's own clock, and while nobody overruns, that would change nothing.
// Cost: one pass at most, and that packing.
pub(crate) fn at_clock(t: &mut State, clock: u64)
    requires valid { Valid (model t.old) }
    requires later { t.old.clock ≤ clock }
    requires early { clock ≤ most_clock }
    ensures { model t.new ≡ advance (model t.old) clock }
{
    let packs = t.clock != clock && anyone_overruns(&t.pending, clock);
    t.clock = clock;
    if packs {
        let v = setting_of(t);
        plan::pack(&mut t.pending, v);
    }
}

// Sets the clock of a table from which a claim was taken, and packs: where nobody waits that would change nothing.
// Cost: one pass at most, and that packing.
pub(crate) fn pulled(t: &mut State, clock: u64)
    requires ranged { Ranged (model t.old) }
    requires later { t.old.clock ≤ clock }
    requires early { clock ≤ most_clock }
    ensures { model t.new ≡ advance (model t.old) clock }
{
    let packs = anyone_waits(&t.pending);
    t.clock = clock;
    if packs {
        let v = setting_of(t);
        plan::pack(&mut t.pending, v);
    }
}

// Grants in a table where packing again would change nothing, and answers. Cost: that of granting.
pub(crate) fn finished(t: &mut State, reply: Reply) -> Accepted
    requires ranged { Ranged (model t.old) }
    requires still { Still (model t.old) }
    ensures answer { answer_of (Ok result) ≡ (finish (model t.old) reply).answer }
    ensures table { model t.new ≡ (finish (model t.old) reply).model }
{
    let v = setting_of(t);
    let grants = plan::grant(&mut t.pending, v);
    Accepted { reply, grants }
}

// Takes the claim of a ticket out of a table. Where a pending claim draws units the table is packed first, if a holder overruns.
// Cost: a pass where there is a pool, one to find the claim, one move of those after it, and that packing.
pub(crate) fn removed(t: &mut State, clock: u64, ticket: u16)
    requires valid { Valid (model t.old) }
    requires later { t.old.clock ≤ clock }
    requires early { clock ≤ most_clock }
    ensures { model t.new ≡ remove (departed (model t.old) clock) ticket }
{
    if t.pool != 0 && anyone_draws(&t.pending) {
        at_clock(t, clock);
    }
    if let Some(i) = find(&t.pending, ticket) {
        t.pending.remove(i);
    }
}

// A claim that no test refuses, in a table that is packed. Cost: those of placing and granting.
pub(crate) fn admitted(t: &mut State, ask: Request) -> Accepted
    requires ranged { Ranged (model t.old) }
    requires still { Still (model t.old) }
    requires few { length t.old.pending < most_pending }
    requires spare { t.old.issued < most_tickets }
    requires asked { (1 ≤ ask.length) × (ask.length ≤ most_length) × (ask.units ≤ t.old.pool) }
    ensures answer { answer_of (Ok result) ≡ (admit (model t.old) ask).answer }
    ensures table { model t.new ≡ (admit (model t.old) ask).model }
{
    t.issued += 1;
    let claim = Claim {
        groups: ask.groups,
        phase: Phase::Waiting(t.clock),
        length: ask.length,
        ticket: t.issued,
        units: ask.units,
        client: ask.client,
    };
    let v = setting_of(t);
    let reply = plan::place(&mut t.pending, v, claim);
    finished(t, reply)
}
