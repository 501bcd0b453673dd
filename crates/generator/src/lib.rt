// The workload of a seed and a count: an edition 1 load of so many claims on all 64 groups, with a release after about every other one.
// What it is, is defined in specs/Workload.antt. Claims come from draws; releases from the table that the load so far leaves, which is run
// beside the writing, one call for each record.
#![tactic(auto)]

ghost use Rattle.std.specs.Prelude.{◌≡◌, ◌^◌, ◌<◌};
ghost use Rattle.std.specs.List.{find};
ghost use Rattle.std.specs.Option.{option_map};
ghost use Rattle.rules.specs.Claims.{on};
ghost use Rattle.numerals.specs.Laid.{Put};
ghost use Rattle.numerals.specs.Pages.{Lays};
ghost use Rattle.load.specs.Answers.{written_values};
ghost use Rattle.format.specs.Calls.{claim, release};
ghost use Rattle.lcg.specs.Draws.{state_in};
ghost use Rattle.generator.specs.Workload.{draws_from, groups_for, claim_batch, release_batch, batch_of, lowest_on, workload_of, claims_number, workload_answer, workload_out, workload_values, returned};
ghost use Rattle.generator.specs.Drafts.{RigLaid, Enters, Answers};

use format::{Call, kinds};
use lcg::Generator;
use numbers::Refusal;
use numerals::Page;
use rules::Claim;
use table::Table;

// The draws of one claim, in their order.
#[derive(Clone, Copy, Debug, PartialEq, Eq)]
pub struct Draws {
    pub advance: u32,
    pub first: u32,
    pub second: u32,
    pub length: u32,
    pub last: u32,
}

// What a load so far leaves: the table, and the clock of its last claim.
#[derive(Clone, Copy)]
pub struct Draft {
    pub table: Table,
    pub clock: u64,
}

// Five draws.
#[tactic(auto, unfolding(crate::specs::Workload::draws_from, lcg::specs::Draws::state_in))]
fn next_draws(g: &mut Generator) -> Draws
    ensures { (result ≡ draws_from g.old.state) × (g.new.state ≡ state_in 5 g.old.state) }
{
    Draws {
        advance: g.draw(),
        first: g.draw(),
        second: g.draw(),
        length: g.draw(),
        last: g.draw(),
    }
}

// ---- one claim, and the release that may follow
#[tactic(auto, unfolding(crate::specs::Workload::groups_for))]
fn groups_for(d: Draws) -> u64
    ensures { result ≡ groups_for d }
{
    let first = groups::only((d.first % 64) as usize);
    let second = groups::only((d.second % 64) as usize);
    groups::union(first, second)
}

fn claim_record(clock: u64, groups: u64, length: u32) -> Call
    ensures { result ≡ claim clock groups length }
{
    Call {
        clock,
        groups,
        length,
        ..Call::bare(kinds::CLAIM)
    }
}

fn release_record(clock: u64, ticket: u16) -> Call
    ensures { result ≡ release clock ticket }
{
    Call {
        clock,
        ticket,
        ..Call::bare(kinds::RELEASE)
    }
}

// The ticket of the first claim that is on.
fn first_on(claims: &[Claim]) -> Option<u16>
    ensures { result ≡ option_map (λ c. c.ticket) (find on claims.now) }
{
    claims.iter().find(|c| c.is_on()).map(|c| c.ticket)
}

// The lowest ticket that is on. Cost: a test for each claim up to the first that is on, since tickets ascend.
fn lowest_on(t: &Table) -> Option<u16>
    ensures { result ≡ lowest_on t.now }
{
    first_on(t.pending())
}

fn claimed(page: &mut Page<'_>, w: &mut Draft, d: Draws)
    requires { w.old.clock < 2 ^ 63 }
    ensures { Enters page.old w.old (claim_batch w.old.clock w.old.table d) page.new w.new }
{
    w.clock += u64::from(d.advance % 8);
    let groups = groups_for(d);
    let length = d.length % 1000 + 1;
    load::put_record(page, 1, claim_record(w.clock, groups, length));
    let _ = w.table.claim(w.clock, rules::asking(groups, length));
}

fn released(page: &mut Page<'_>, w: &mut Draft)
    ensures { Enters page.old w.old (release_batch w.old.clock w.old.table) page.new w.new }
{
    if let Some(ticket) = lowest_on(&w.table) {
        load::put_record(page, 1, release_record(w.clock, ticket));
        let _ = w.table.release(w.clock, ticket);
    }
}

// The records of one claim's draws laid after a load, and the table that they leave.
fn entered(page: &mut Page<'_>, w: &mut Draft, d: Draws)
    requires { w.old.clock < 2 ^ 63 }
    ensures { Enters page.old w.old (batch_of w.old.clock w.old.table d) page.new w.new }
{
    claimed(page, w, d);
    if d.last % 2 == 1 {
        released(page, w);
    }
}

// The edition byte and the rig.
fn begun(page: &mut Page<'_>) -> Draft
    ensures { RigLaid page.old page.new result }
{
    let rig = Call {
        groups: u64::MAX,
        ..Call::bare(kinds::RIG)
    };
    page.byte(1);
    load::put_record(page, 1, rig);
    let (table, _) = Table::new(u64::MAX, 0, true);
    Draft { table, clock: 0 }
}

// The workload laid on a page.
fn lay(page: &mut Page<'_>, seed: u32, count: u32)
    ensures { Lays page.old (workload_of seed count) page.new }
{
    let mut g = Generator { state: seed };
    let mut w = begun(page);
    for _ in 0..count {
        let d = next_draws(&mut g);
        entered(page, &mut w, d);
    }
}

// The workload laid over a buffer, as far as that goes, and its length.
fn lay_over(out: &mut [u8], seed: u32, count: u32) -> usize
    ensures { Put out.old 0 (workload_of seed count) result out.new }
{
    let mut page = Page::new(out);
    lay(&mut page, seed, count);
    page.at
}

// A workload for a buffer that may be too short: laid in a buffer of its own, which the longest goes into, and copied where it goes in.
fn copied(seed: u32, count: u32, out: &mut [u8]) -> Result<usize, Refusal>
    requires { claims_number count ≡ 0 }
    ensures { Answers seed count out.old result out.new }
{
    let mut own = [0; 36012];
    let n = lay_over(&mut own, seed, count);
    if out.len() < n {
        return Err(Refusal::NoSpace);
    }
    out[..n].copy_from_slice(&own[..n]);
    Ok(n)
}

// The workload at the start of a lent buffer, and its length; 20 for a count outside 1 to 1,000, then 15, and the buffer is untouched.
// Cost: one call of the table for each record. Where the buffer has under 12 + 36 * count bytes the load is copied once.
#[tactic(auto, unfolding(crate::specs::Workload::claims_number, crate::specs::Workload::workload_number, crate::specs::Workload::workload_answer, crate::specs::Workload::workload_out, crate::specs::Workload::workload_values))]
pub fn workload(seed: u32, count: u32, out: &mut [u8]) -> Result<usize, Refusal>
    ensures answer { result ≡ workload_answer seed count out.old }
    ensures buffer { out.new ≡ workload_out seed count out.old }
    ensures values { written_values result ≡ workload_values seed count out.old }
{
    if count == 0 || numbers::MOST_CLAIMS < count {
        return Err(Refusal::Count);
    }
    if out.len() < 12 + 36 * (count as usize) {
        return copied(seed, count, out);
    }
    Ok(lay_over(out, seed, count))
}

// The same for C: the length, or the number. No workload is as short as a number.
#[unsafe(no_mangle)]
pub extern "C" fn belgwyth_workload(seed: u32, count: u32, out: &mut [u8]) -> usize
    ensures answer { result ≡ returned (workload_answer seed count out.old) }
    ensures buffer { out.new ≡ workload_out seed count out.old }
{
    match workload(seed, count, out) {
        Ok(n) => n,
        Err(refusal) => usize::from(u8::from(refusal)),
    }
}
