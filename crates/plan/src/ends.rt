// When a claim ends, and the time that it has left. A few instructions each.
ghost use Rattle.std.specs.Prelude.{◌≡◌, ◌≤◌, ◌<◌};
ghost use Rattle.numbers.specs.Numbers.{most_clock};
ghost use Rattle.rules.specs.Claims.{at, end_of, remaining};
ghost use Rattle.plan.specs.Bounds.{most_at};

use rules::{Claim, Phase, Setting};

// The end of a claim.
pub fn end_of(v: Setting, c: Claim) -> u64
    requires { (at c ≤ most_at) × (v.clock ≤ most_clock) }
    ensures { result ≡ end_of v c }
{
    let end = c.start_or_grant() + u64::from(c.length);
    if c.is_on() && end < v.clock {
        v.clock + u64::from(v.grace)
    } else {
        end
    }
}

// The time that a claim has left.
pub fn time_left(v: Setting, c: Claim) -> u64
    requires { (at c ≤ most_at) × (v.clock ≤ most_clock) }
    ensures { result ≡ remaining v c }
{
    match c.phase {
        Phase::Waiting(_) => u64::from(c.length),
        Phase::On(_) => end_of(v, c) - v.clock,
    }
}
