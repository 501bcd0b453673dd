// The tests of a call in code, each on what it looks at; its number stands with it in rules, specs/Tests.antt. A comparison or two each.
#![tactic(auto)]

ghost use Rattle.std.specs.Prelude.{◌≡◌, Some};
ghost use Rattle.rules.specs.Tests.{late, backward, dark, stranger, no_client, nothing_asked, off_rig, spots, bad_length, full, full_for, over, begun, overbooked, bad_grace, ticketless};

use rules::Share;

pub fn late(clock: u64) -> bool
    ensures { result ≡ (late clock).fails }
{
    numbers::MOST_CLOCK < clock
}

pub fn backward(last: u64, clock: u64) -> bool
    ensures { result ≡ (backward last clock).fails }
{
    clock < last
}

pub fn dark(groups: u64) -> bool
    ensures { result ≡ (dark groups).fails }
{
    groups::empty(groups)
}

pub fn off_rig(rig: u64, groups: u64) -> bool
    ensures { result ≡ (off_rig rig groups).fails }
{
    !groups::within(groups, rig)
}

pub fn nothing_asked(groups: u64, units: u16) -> bool
    ensures { result ≡ (nothing_asked groups units).fails }
{
    groups::empty(groups) && units == 0
}

pub fn spots(pool: u16, units: u16) -> bool
    ensures { result ≡ (spots pool units).fails }
{
    pool < units
}

pub fn bad_length(length: u32) -> bool
    ensures { result ≡ (bad_length length).fails }
{
    length == 0 || numbers::MOST_LENGTH < length
}

pub fn full(pending: usize) -> bool
    ensures { result ≡ (full pending).fails }
{
    numbers::MOST_PENDING <= pending
}

// Of a share and its client's own pending claims; so many are pending in all, and so much is unfilled of the others' guarantees.
pub fn full_for(share: Share, own: usize, pending: usize, unfilled: usize) -> bool
    ensures { result ≡ (full_for (Some share) own pending unfilled).fails }
{
    usize::from(share.reserved) <= own && numbers::MOST_PENDING <= pending.saturating_add(unfilled)
}

pub fn over(share: Share, own: usize) -> bool
    ensures { result ≡ (over (Some share) own).fails }
{
    usize::from(share.limit) <= own
}

pub fn stranger(share: Option<Share>) -> bool
    ensures { result ≡ (stranger share).fails }
{
    share.is_none()
}

// The tests of a declaration.
pub fn begun(issued: u16) -> bool
    ensures { result ≡ (begun issued).fails }
{
    0 < issued
}

pub fn bad_grace(issued: u16, grace: u32) -> bool
    ensures { result ≡ (bad_grace issued grace).fails }
{
    begun(issued) || numbers::MOST_GRACE < grace
}

pub fn no_client(client: u8) -> bool
    ensures { result ≡ (no_client client).fails }
{
    client == 0 || numbers::MOST_CLIENTS < client
}

// Of the share that the client has, if any, and of all that is reserved.
pub fn overbooked(share: Option<Share>, all: usize, reserved: u8, limit: u8) -> bool
    ensures { result ≡ (overbooked share all reserved limit).fails }
{
    numbers::MOST_PENDING < all.saturating_add(usize::from(reserved))
        || limit < reserved
        || numbers::MOST_PENDING < usize::from(limit)
        || share.is_some()
}

pub fn ticketless(issued: u16) -> bool
    ensures { result ≡ (ticketless issued).fails }
{
    numbers::MOST_TICKETS <= issued
}
