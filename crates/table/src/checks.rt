// The tests of the calls, each call's in their order: the first that fails gives its refusal.
// Their numbers and what each looks at stand in rules, specs/Tests.antt; the tests themselves in `refusals`.
ghost use Rattle.std.specs.Prelude.{◌≡◌};
ghost use Rattle.numbers.specs.Refusals.{number_in};
ghost use Rattle.rules.specs.Calls.{claims, declares, sets_grace, timed, sets_up, tests};
ghost use Rattle.rules.specs.Tests.{first_number};
ghost use Rattle.table.specs.Outcomes.{time_number, phase_number};
ghost use Rattle.table.specs.States.{model};
ghost use Rattle.table.specs.Valid.{Valid};

use crate::shares;
use crate::state::State;
use numbers::Refusal;
use rules::{Request, Standing};

// The tests 5 and 4.
#[tactic(auto, unfolding(crate::specs::Outcomes::time_number, rules::specs::Tests::first_number))]
pub(crate) fn check_time(last: u64, clock: u64) -> Result<(), Refusal>
    ensures { number_in result ≡ time_number last clock }
{
    if refusals::late(clock) {
        return Err(Refusal::Late);
    }
    if refusals::backward(last, clock) {
        return Err(Refusal::Backward);
    }
    Ok(())
}

// The tests 8, 9 and 10 of a release, or else of a withdrawal.
pub(crate) fn check_phase(releasing: bool, standing: Standing) -> Result<(), Refusal>
    ensures { number_in result ≡ phase_number releasing standing }
{
    match standing {
        Standing::NotPending => Err(Refusal::Unknown),
        Standing::Waits(_) if releasing => Err(Refusal::NotYetOn),
        Standing::Holds(_) if !releasing => Err(Refusal::AlreadyOn),
        _ => Ok(()),
    }
}

// The tests of a declaration.
#[tactic(auto, unfolding(rules::specs::Calls::tests, rules::specs::Tests::first_number))]
pub(crate) fn check_declaration(
    t: &State,
    client: u8,
    reserved: u8,
    limit: u8,
) -> Result<(), Refusal>
    ensures { number_in result ≡ first_number (tests (model t.now) (sets_up (declares client reserved limit))) }
{
    if refusals::begun(t.issued) {
        return Err(Refusal::Misfit);
    }
    if refusals::no_client(client) {
        return Err(Refusal::Stranger);
    }
    let share = shares::share_of(&t.shares, client);
    let all = shares::reserved_in_all(&t.shares);
    if refusals::overbooked(share, all, reserved, limit) {
        return Err(Refusal::Overbooked);
    }
    Ok(())
}

// The test of a grace.
#[tactic(auto, unfolding(rules::specs::Calls::tests, rules::specs::Tests::first_number))]
pub(crate) fn check_grace(t: &State, grace: u32) -> Result<(), Refusal>
    ensures { number_in result ≡ first_number (tests (model t.now) (sets_up (sets_grace grace))) }
{
    if refusals::bad_grace(t.issued, grace) {
        return Err(Refusal::Grace);
    }
    Ok(())
}

// The tests of a claim. Cost: one pass at most.
#[tactic(auto, unfolding(rules::specs::Calls::tests, rules::specs::Tests::first_number, crate::specs::Outcomes::time_number, crate::specs::Outcomes::share_number))]
pub(crate) fn check_claim(t: &State, clock: u64, ask: Request) -> Result<(), Refusal>
    requires { Valid (model t.now) }
    ensures { number_in result ≡ first_number (tests (model t.now) (timed clock (claims ask))) }
{
    check_time(t.clock, clock)?;
    let share = shares::share_of(&t.shares, ask.client);
    if refusals::stranger(share) {
        return Err(Refusal::Stranger);
    }
    if refusals::nothing_asked(ask.groups, ask.units) {
        return Err(Refusal::Dark);
    }
    if refusals::off_rig(t.rig, ask.groups) {
        return Err(Refusal::OffRig);
    }
    if refusals::spots(t.pool, ask.units) {
        return Err(Refusal::Spots);
    }
    if refusals::bad_length(ask.length) {
        return Err(Refusal::BadLength);
    }
    shares::check_share(t, ask.client, share.unwrap())?;
    if refusals::ticketless(t.issued) {
        return Err(Refusal::Ticketless);
    }
    Ok(())
}
