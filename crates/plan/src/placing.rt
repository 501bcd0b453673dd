// Placing: the planned start of a new claim beside those of a row, and what its answer counts.
// What is asked is defined in the rules' specs/Placing.antt.
ghost use Rattle.std.specs.Prelude.{◌≡◌, ◌≤◌, ◌<◌, [], ◌∷◌, ◌++◌, length};
ghost use Rattle.numbers.specs.Numbers.{most_clock, most_pending};
ghost use Rattle.rules.specs.Claims.{at, with_phase};
ghost use Rattle.rules.specs.declared.Phase.TheVariants.{Waiting};
ghost use Rattle.rules.specs.Placing.{clear, place, contention, start_bound};
ghost use Rattle.plan.specs.Rows.{Sized, InRange, Capped};
ghost use Rattle.plan.specs.Barring.{bars_by};
ghost use Rattle.plan.specs.Bounds.{most_at};
ghost use Rattle.plan.specs.Rivalry.{RivalPlaces, RivalsOf};

use crate::ends::{end_of, time_left};
use crate::pool::Holds;
use rules::{Claim, Pending, Reply, Setting};

// Whether the claim `c` leaves room for `w` at `s`. Cost: at most four tests.
#[tactic(auto, unfolding(rules::specs::Placing::clear))]
fn clears(v: Setting, c: Claim, w: Claim, s: u64) -> bool
    requires { (at c ≤ most_at) × (s ≤ most_at) × (v.clock ≤ most_clock) }
    ensures { result ≡ clear v w s c }
{
    !groups::shares(c.groups, w.groups)
        || end_of(v, c) <= s
        || (!c.is_on() && s + u64::from(w.length) <= c.start_or_grant())
}

// The units by which `c` bars `w`: all that there can be where they share a group, else those that it draws. Cost: a test of two sets.
fn bars_by(c: Claim, w: Claim) -> u16
    ensures { result ≡ bars_by w c }
{
    if groups::shares(c.groups, w.groups) {
        u16::MAX
    } else {
        c.units
    }
}

// The claims that share a group with a new one: how many they are, the time that they have left, and their places as a set.
#[derive(Clone, Copy)]
struct Rivals {
    count: u64,
    time: u64,
    places: u64,
}

// The rivals of `w`. Cost: one pass over the claims.
fn rivals_of(pending: &[Claim], v: Setting, w: Claim) -> Rivals
    requires { InRange v pending.now }
    ensures { RivalsOf v w pending.now result }
{
    let mut rivals = Rivals {
        count: 0,
        time: 0,
        places: 0,
    };
    for (i, c) in pending.iter().enumerate() {
        if groups::shares(c.groups, w.groups) {
            rivals.count += 1;
            rivals.time += time_left(v, *c);
            rivals.places = groups::union(rivals.places, groups::only(i));
        }
    }
    rivals
}

// The planned start of a claim that draws no units, by the places of its rivals: where one bars a candidate, it bars every start from there to
// its end, which is the next candidate, and none after that; so it is left out from then on.
// Cost: for each candidate a step for each place that is left, at most; a claim bars at most one candidate.
fn start_beside(pending: &[Claim], v: Setting, w: Claim, places: u64) -> u64
    requires { InRange v pending.now × Sized v w × Capped pending.now × (w.units ≡ 0) × RivalPlaces w pending.now places }
    ensures { result ≡ place v pending.now w }
{
    let mut s = v.clock;
    let mut left = places;
    'candidates: loop {
        let mut rest = left;
        while let Some(j) = groups::lowest(rest) {
            let c = pending[j];
            if !clears(v, c, w, s) {
                s = end_of(v, c);
                left = groups::without(left, groups::only(j));
                continue 'candidates;
            }
            rest = groups::others(rest);
        }
        break 'candidates s;
    }
}

// The planned start of a claim that draws units: the holds of those that draw units, and of those that share a group with it as if they drew
// all, are gathered, and its start is the first time with units enough.
// Cost: one pass over n claims, n² insertion steps at most, a few for each claim where starts ascend, and one sweep over the events, at most
// 2 × n.
fn start_with_units(pending: &[Claim], v: Setting, w: Claim) -> u64
    requires { InRange v pending.now × Sized v w × Capped pending.now × (length pending.now < most_pending) × (0 < w.units) }
    ensures { result ≡ place v pending.now w }
{
    let mut holds = Holds::new();
    for c in pending {
        let units = bars_by(*c, w);
        if units != 0 {
            holds.enter(c.start_or_grant(), end_of(v, *c), units);
        }
    }
    holds.enter_first_fit(v.pool, w.units, v.clock, w.length)
}

// Enters a new claim behind the others at its planned start, the least that fits, and tells what it is answered.
// Cost: one pass over n claims; then, for a claim that draws no units, n² / 2 tests of two holds at most, or else another pass, n² insertion
// steps at most, a few for each claim where starts ascend, and one sweep over 2 × n events at most.
pub fn place(pending: &mut Pending, v: Setting, w: Claim) -> Reply
    requires { InRange v pending.old × Sized v w × Capped pending.old × (length pending.old < most_pending) }
    ensures claims { pending.new ≡ pending.old ++ with_phase w (Waiting (place v pending.old w)) ∷ [] }
    ensures reply { result ≡ record { ticket = w.ticket; start = place v pending.old w; contention = contention pending.old w; bound = start_bound v pending.old w } }
{
    let claims = pending.as_slice();
    let rivals = rivals_of(claims, v, w);
    let start = if w.units == 0 {
        start_beside(claims, v, w, rivals.places)
    } else {
        start_with_units(claims, v, w)
    };
    pending.push(w.waiting_from(start));
    let rest = u64::from(w.length) - 1;
    Reply {
        ticket: w.ticket,
        start,
        contention: rivals.count,
        bound: v.clock + rivals.time + rivals.count * rest,
    }
}
