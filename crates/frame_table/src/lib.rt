// The frame table in code: new, claim, release. A claim costs one pass over the pending claims and a few instructions, a release a pass to
// find its claim and one over the claims behind it, and a pass more where it empties the head row. A table is 1,048 bytes.
#![tactic(auto)]

ghost use Rattle.std.specs.Prelude.{◌≡◌, ◌≤◌, ◌<◌, length, remove, position, IfOk};
ghost use Rattle.std.specs.List.{list_any};
ghost use Rattle.numbers.specs.Refusals.{number_in};
ghost use Rattle.rules.specs.Lists.{keep};
ghost use Rattle.rules.specs.Tests.{first_number};
ghost use Rattle.frames.specs.Rows.{on, named, row_for, turned, head_tickets, turned_on};
ghost use Rattle.frames.specs.Calls.{Call, new, step, tests, lacking, admit};
ghost use Rattle.frame_table.specs.Valid.{HasRoom, Valid};
ghost use Rattle.frame_table.specs.Answers.{answer_of, accepted};
ghost use Rattle.frame_table.specs.Parts.{WithRow, FreeRow, RivalsOf};

use frames::{Claim, Pending};
use numbers::Refusal;
use rules::Tickets;
use std::marker::Model;

// What an accepted call answers: the claim's ticket, its row, counted from the head, its contention (the request's crowd), and the tickets
// granted, in ascending order.
#[derive(Clone, Copy)]
pub struct Accepted {
    pub ticket: u16,
    pub row: u16,
    pub contention: u16,
    pub grants: Tickets,
}

// A rig, how many tickets are issued, and the pending claims in ascending order of ticket.
#[derive(Clone, Copy)]
pub struct Table {
    rig: u64,
    issued: u16,
    pending: Pending,
}

impl Model for Table {
    ghost use Rattle.frames.specs.Calls.{Model};

    ghost Value = { Model };

    ghost use Rattle.frame_table.specs.Valid.{model, inside, Valid};

    ghost view = { model };

    ghost invariant = { λ t. Valid (model t) };

    ghost inverse = { inside };
}

impl Table {
    // A table with nothing pending. A rig without groups is refused (1), and gives a table without groups.
    #[tactic(auto, unfolding(frames::specs::Calls::new))]
    pub fn new(rig: u64) -> (Table, Result<Accepted, Refusal>)
        ensures table { result.0 ≡ (new rig).model }
        ensures answer { answer_of result.1 ≡ (new rig).answer }
    {
        let table = Table {
            rig,
            issued: 0,
            pending: Pending::new(),
        };
        if groups::empty(rig) {
            return (table, Err(Refusal::Dark));
        }
        let nothing = Accepted {
            ticket: 0,
            row: 0,
            contention: 0,
            grants: Tickets::new(),
        };
        (table, Ok(nothing))
    }

    // The table of such parts.
    pub fn of(rig: u64, issued: u16, pending: Pending) -> Table
        requires { Valid (record { rig = rig; issued = issued; pending = pending }) }
        ensures { result ≡ record { rig = rig; issued = issued; pending = pending } }
    {
        Table {
            rig,
            issued,
            pending,
        }
    }

    // The rig's groups.
    pub fn rig(&self) -> u64
        ensures { result ≡ self.now.rig }
    {
        self.rig
    }

    // How many tickets are issued.
    pub fn issued(&self) -> u16
        ensures { result ≡ self.now.issued }
    {
        self.issued // the last ticket
    }

    // How many claims are in the head row. Cost: one pass.
    pub fn held(&self) -> usize
        ensures { result ≡ length (keep on self.now.pending) }
    {
        let claims = self.pending.as_slice();
        claims.iter().filter(|c| c.is_on()).count()
    }

    // The pending claims, in ascending order of ticket; and what holds of every table.
    pub fn pending(&self) -> &[Claim]
        ensures claims { result.now ≡ self.now.pending }
        ensures valid { Valid self.now }
    {
        self.pending.as_slice()
    }

    // Claims groups for a beat. Refused: 1, 2, 6, 7.
    pub fn claim(&mut self, groups: u64) -> Result<Accepted, Refusal>
        ensures table { self.new ≡ (step self.old (Call.claim groups)).model }
        ensures answer { answer_of result ≡ (step self.old (Call.claim groups)).answer }
    {
        self.test_claim(groups)?;
        Ok(self.admit(groups))
    }

    // Takes away a claim that is on. Where it was the last of the head row, the next row becomes the head and goes on. Refused: 8, 9.
    pub fn release(&mut self, ticket: u16) -> Result<Accepted, Refusal>
        ensures table { self.new ≡ (step self.old (Call.release ticket)).model }
        ensures answer { answer_of result ≡ (step self.old (Call.release ticket)).answer }
    {
        let place = self.test_release(ticket)?;
        self.pending.remove(place);
        let grants = turn(&mut self.pending);
        Ok(Accepted {
            ticket,
            row: 0,
            contention: 0,
            grants,
        })
    }

    // The first of its tests that a claim fails.
    #[tactic(auto, unfolding(frames::specs::Calls::tests, rules::specs::Tests::first_number))]
    fn test_claim(&self, groups: u64) -> Result<(), Refusal>
        ensures { number_in result ≡ first_number (tests self.now (Call.claim groups)) }
    {
        if refusals::dark(groups) {
            return Err(Refusal::Dark);
        }
        if refusals::off_rig(self.rig, groups) {
            return Err(Refusal::OffRig);
        }
        if refusals::full(self.pending.len()) {
            return Err(Refusal::Full);
        }
        if refusals::ticketless(self.issued) {
            return Err(Refusal::Ticketless);
        }
        Ok(())
    }

    // The first of its tests that a release fails, or the place of the ticket's claim.
    fn test_release(&self, ticket: u16) -> Result<usize, Refusal>
        ensures number { number_in result ≡ first_number (tests self.now (Call.release ticket)) }
        ensures place { IfOk result (λ i. (i < length self.now.pending) × (remove self.now.pending i ≡ lacking ticket self.now.pending)) }
    {
        let Some(place) = place_of(&self.pending, ticket) else {
            return Err(Refusal::Unknown);
        };
        if !self.pending.get(place).is_on() {
            return Err(Refusal::NotYetOn);
        }
        Ok(place)
    }

    // A claim that no test refuses gets the next ticket and its row.
    fn admit(&mut self, groups: u64) -> Accepted
        requires { HasRoom self.old }
        ensures table { self.new ≡ (admit self.old groups).model }
        ensures answer { accepted result ≡ (admit self.old groups).answer }
    {
        let rivals = gather(self.pending.as_slice(), groups);
        let row = if self.pending.is_empty() {
            0
        } else {
            free_row(rivals.rows)
        };
        let ticket = self.issued + 1;
        let claim = Claim {
            groups,
            ticket,
            row,
        };
        self.issued = ticket;
        self.pending.push(claim);
        let mut grants = Tickets::new();
        if claim.is_on() {
            grants.push(ticket);
        }
        Accepted {
            ticket,
            row,
            contention: rivals.count,
            grants,
        }
    }
}

// ── the row of a new claim ──

// The rows behind the head as a set, row r standing for group r - 1: those in which a claim shares a group, with one row more.
fn with_row(rows: u64, row: u16) -> u64
    ensures { WithRow rows row result }
{
    if row == 0 {
        return rows;
    }
    let g = usize::from(row - 1);
    groups::union(rows, groups::only(g))
}

// The first row behind the head that is not in such a set, 65 where all are. Cost: a few instructions.
fn free_row(rows: u64) -> u16
    ensures { FreeRow rows result }
{
    match groups::lowest_missing(rows) {
        Some(g) => g as u16 + 1,
        None => 65,
    }
}

// The pending claims that share a group with a set: their rows behind the head, and how many they are.
#[derive(Clone, Copy)]
pub struct Rivals {
    pub rows: u64,
    pub count: u16,
}

// Cost: one pass. A word for the rows and not one for each row: nothing is cleared, and the first free row is found at once.
fn gather(pending: &[Claim], groups: u64) -> Rivals
    requires { length pending.now ≤ 64 }
    ensures { RivalsOf pending.now groups result }
{
    let mut rows: u64 = 0;
    let mut count: u16 = 0;
    for c in pending {
        if groups::shares(c.groups, groups) {
            rows = with_row(rows, c.row);
            count += 1;
        }
    }
    Rivals { rows, count }
}

// ── a release ──

// The place of the claim with a ticket.
fn place_of(pending: &Pending, ticket: u16) -> Option<usize>
    ensures { result ≡ position (named ticket) pending.now }
{
    pending.as_slice().iter().position(|c| c.ticket == ticket)
}

// Whether a claim is in the head row.
fn some_on(pending: &Pending) -> bool
    ensures { result ≡ list_any on pending.now }
{
    pending.as_slice().iter().any(Claim::is_on)
}

// The tickets of the head row.
fn head_tickets(pending: &[Claim]) -> Tickets
    requires { length pending.now ≤ 64 }
    ensures { result ≡ head_tickets pending.now }
{
    let mut grants = Tickets::new();
    for c in pending {
        if c.is_on() {
            grants.push(c.ticket);
        }
    }
    grants
}

// Where the head row has emptied, the next row becomes the head and goes on.
#[tactic(auto, using(crate::proofs::Releasing::stays_on, crate::proofs::Releasing::none_granted))]
fn turn(pending: &mut Pending) -> Tickets
    ensures pending { pending.new ≡ turned pending.old }
    ensures grants { result ≡ turned_on pending.old }
{
    if some_on(pending) {
        return Tickets::new();
    }
    for i in 0..pending.len() {
        pending.set(i, pending.get(i).nearer());
    }
    head_tickets(pending.as_slice())
}
