// Clients and their shares: what each client has pending, and what is left unfilled of the places reserved.
// What is asked is defined in rules, specs/Shares.antt.
ghost use Rattle.std.specs.Prelude.{◌≡◌, ◌≤◌, Some};
ghost use Rattle.numbers.specs.Refusals.{number_in};
ghost use Rattle.rules.specs.Shares.{share_of, reserved_of, reserved_in_all};
ghost use Rattle.rules.specs.Calls.{clients_of};
ghost use Rattle.table.specs.Counts.{pending_each, number_counted};
ghost use Rattle.table.specs.Outcomes.{share_number};
ghost use Rattle.table.specs.States.{model};
ghost use Rattle.table.specs.Valid.{Valid};

use crate::state::State;
use numbers::Refusal;
use rules::{Claim, Share};

// The share of a client. Cost: a few instructions.
pub(crate) fn share_of(shares: &[Option<Share>; 8], client: u8) -> Option<Share>
    ensures { result ≡ share_of shares.now client }
{
    if refusals::no_client(client) {
        return None;
    }
    shares[usize::from(client - 1)]
}

// The places reserved by a share: none where there is no share.
fn reserved_of(share: Option<Share>) -> usize
    ensures { (result ≡ reserved_of share) × (result ≤ 255) }
{
    match share {
        Some(share) => usize::from(share.reserved),
        None => 0,
    }
}

// The tests 6 and 18 of a claim of a client with a share. What clients have pending decides neither where all places are taken, nor where fewer
// claims are pending in all than are reserved for this one. Cost: one pass at most.
pub(crate) fn check_share(t: &State, client: u8, share: Share) -> Result<(), Refusal>
    requires { Valid (model t.now) × (share_of t.now.shares client ≡ Some share) }
    ensures { number_in result ≡ share_number (model t.now) client }
{
    let count = t.pending.len();
    if refusals::full(count) {
        return Err(Refusal::Full);
    }
    if count < usize::from(share.reserved) {
        return Ok(());
    }
    let each = pending_each(t);
    let own = usize::from(each[usize::from(client - 1)]);
    check_counted(&t.shares, &each, count, own, share)
}

// How many claims each client has pending, client 1 first. Cost: one pass.
fn pending_each(t: &State) -> [u8; 8]
    requires { Valid (model t.now) }
    ensures { result ≡ pending_each (clients_of t.now.pending) }
{
    let mut each = [0u8; 8];
    for c in t.pending.as_slice() {
        each[usize::from(c.client - 1)] += 1;
    }
    each
}

// The tests 6 and 18 of a share by what each client has pending, so many of them its own; so many are pending in all. Of a client that has
// filled its guarantee the others leave unfilled what all do. Cost: eight steps.
fn check_counted(
    shares: &[Option<Share>; 8],
    each: &[u8; 8],
    count: usize,
    own: usize,
    share: Share,
) -> Result<(), Refusal>
    ensures { number_in result ≡ number_counted shares.now each.now count own (Some share) }
{
    let mut unfilled: usize = 0;
    for (i, s) in shares.iter().enumerate() {
        unfilled += reserved_of(*s).saturating_sub(usize::from(each[i]));
    }
    if refusals::full_for(share, own, count, unfilled) {
        return Err(Refusal::Full);
    }
    if refusals::over(share, own) {
        return Err(Refusal::Over);
    }
    Ok(())
}

// All that is reserved. Cost: eight steps.
pub(crate) fn reserved_in_all(shares: &[Option<Share>; 8]) -> usize
    ensures { result ≡ reserved_in_all shares.now }
{
    let mut sum: usize = 0;
    for s in shares {
        sum += reserved_of(*s);
    }
    sum
}
