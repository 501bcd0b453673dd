// The table, seen in contracts as the model of the rules, and its calls.
ghost use Rattle.std.specs.Prelude.{◌≡◌, ◌≤◌, length};
ghost use Rattle.rules.specs.Calls.{claims, releases, withdraws, moves_clock, at_pool, declares, sets_grace, timed, looks, sets_up, step, blank, new, standing_values, standing_of, lookup_gives, common_values, common_of, common_gives, free_of, setting_of};
ghost use Rattle.rules.specs.Chains.{chain_of};
ghost use Rattle.table.specs.Outcomes.{answer_of, chain_told, leaving};
ghost use Rattle.table.specs.States.{model};
ghost use Rattle.table.specs.Valid.{Valid};

use crate::calls::{accepted, admitted, at_clock, finished, pulled, removed};
use crate::checks::{check_claim, check_declaration, check_grace, check_phase, check_time};
use crate::state::State;
use crate::{Accepted, lookups};
use numbers::Refusal;
use rules::{Claim, Common, Pending, Reply, Request, Share, Standing, Tickets};
use std::marker::Model;

#[derive(Clone, Copy)]
pub struct Table {
    state: State,
}

impl Model for Table {
    ghost use Rattle.rules.specs.Calls.{Model};
    ghost use Rattle.table.specs.States.{model, parts};
    ghost use Rattle.table.specs.Valid.{Valid};

    ghost Value = { Model };

    ghost view = { λ t. model t.state };

    ghost invariant = { λ t. Valid (model t.state) };

    ghost inverse = { λ m. record { state = parts m } };
}

impl Table {
    // A table with nothing pending, at clock 0, and so many units in its pool. Client 1 alone is declared, with all places, as for loads of
    // editions 1 and 2, or nobody is. A rig without groups is refused (1), and then has no units.
    #[tactic(auto, unfolding(rules::specs::Calls::new))]
    pub fn new(rig: u64, pool: u16, alone: bool) -> (Table, Result<Accepted, Refusal>)
        ensures table { result.0 ≡ (new rig pool alone).model }
        ensures answer { answer_of result.1 ≡ (new rig pool alone).answer }
        ensures valid { Valid result.0 }
    {
        if groups::empty(rig) {
            return (Table::blank(0, 0, alone), Err(Refusal::Dark));
        }
        (Table::blank(rig, pool, alone), Ok(accepted()))
    }

    // The table of such parts.
    pub fn of(state: State) -> Table
        requires { Valid (model state) }
        ensures { result ≡ model state }
    {
        Table { state }
    }

    fn blank(rig: u64, pool: u16, alone: bool) -> Table
        ensures table { result ≡ blank rig pool alone }
        ensures valid { Valid result }
    {
        let whole = numbers::MOST_PENDING as u8;
        let first = alone.then_some(Share {
            reserved: whole,
            limit: whole,
        });
        Table {
            state: State {
                rig,
                clock: 0,
                pool,
                issued: 0,
                grace: 0,
                shares: [first, None, None, None, None, None, None, None],
                pending: Pending::new(),
            },
        }
    }

    // Moves the clock. Refused: 5, 4.
    pub fn clock(&mut self, clock: u64) -> Result<Accepted, Refusal>
        ensures answer { answer_of result ≡ (step self.old (timed clock moves_clock)).answer }
        ensures table { self.new ≡ (step self.old (timed clock moves_clock)).model }
    {
        check_time(self.state.clock, clock)?;
        at_clock(&mut self.state, clock);
        let reply = Reply {
            ticket: 0,
            start: clock,
            contention: 0,
            bound: 0,
        };
        Ok(finished(&mut self.state, reply))
    }

    // Takes away the claim of a ticket: a release, or else a withdrawal. Refused as these are.
    fn leave(&mut self, releasing: bool, clock: u64, ticket: u16) -> Result<Accepted, Refusal>
        ensures answer { answer_of result ≡ (step self.old (leaving releasing clock ticket)).answer }
        ensures table { self.new ≡ (step self.old (leaving releasing clock ticket)).model }
    {
        check_time(self.state.clock, clock)?;
        let standing = lookups::lookup(&self.state, ticket);
        check_phase(releasing, standing)?;
        removed(&mut self.state, clock, ticket);
        pulled(&mut self.state, clock);
        let reply = Reply {
            ticket,
            start: clock,
            contention: 0,
            bound: 0,
        };
        Ok(finished(&mut self.state, reply))
    }

    // Takes away a claim that is on. Refused: 5, 4, 8, 9.
    pub fn release(&mut self, clock: u64, ticket: u16) -> Result<Accepted, Refusal>
        ensures answer { answer_of result ≡ (step self.old (timed clock (releases ticket))).answer }
        ensures table { self.new ≡ (step self.old (timed clock (releases ticket))).model }
    {
        self.leave(true, clock, ticket)
    }

    // Takes away a claim that waits. Refused: 5, 4, 8, 10.
    pub fn withdraw(&mut self, clock: u64, ticket: u16) -> Result<Accepted, Refusal>
        ensures answer { answer_of result ≡ (step self.old (timed clock (withdraws ticket))).answer }
        ensures table { self.new ≡ (step self.old (timed clock (withdraws ticket))).model }
    {
        self.leave(false, clock, ticket)
    }

    // Declares a client, with its guarantee and its limit. Refused: 13, 17, 19.
    pub fn declare(&mut self, client: u8, reserved: u8, limit: u8) -> Result<Accepted, Refusal>
        ensures answer { answer_of result ≡ (step self.old (sets_up (declares client reserved limit))).answer }
        ensures table { self.new ≡ (step self.old (sets_up (declares client reserved limit))).model }
    {
        check_declaration(&self.state, client, reserved, limit)?;
        self.state.shares[usize::from(client - 1)] = Some(Share { reserved, limit });
        Ok(accepted())
    }

    // Sets the time that a holder past its promised end is expected to need from the clock on. Refused: 21.
    pub fn set_grace(&mut self, grace: u32) -> Result<Accepted, Refusal>
        ensures answer { answer_of result ≡ (step self.old (sets_up (sets_grace grace))).answer }
        ensures table { self.new ≡ (step self.old (sets_up (sets_grace grace))).model }
    {
        check_grace(&self.state, grace)?;
        self.state.grace = grace;
        Ok(accepted())
    }

    // Claims what is asked for. Refused: 5, 4, 17, 1, 2, 16, 3, 6, 18, 7.
    pub fn claim(&mut self, clock: u64, ask: Request) -> Result<Accepted, Refusal>
        ensures answer { answer_of result ≡ (step self.old (timed clock (claims ask))).answer }
        ensures table { self.new ≡ (step self.old (timed clock (claims ask))).model }
    {
        check_claim(&self.state, clock, ask)?;
        at_clock(&mut self.state, clock);
        Ok(admitted(&mut self.state, ask))
    }

    // How the claim of a ticket stands. Cost: one pass at most.
    pub fn lookup(&self, ticket: u16) -> Standing
        ensures { (result ≡ standing_of ticket self.now.pending) × (standing_values result ≡ lookup_gives self.now ticket) }
    {
        lookups::lookup(&self.state, ticket)
    }

    // Which group the claims of two tickets share: 8 if either is not pending. Cost: two passes at most.
    pub fn common(&self, first: u16, second: u16) -> Common
        ensures { (result ≡ common_of first second self.now.pending) × (common_values result ≡ common_gives self.now first second) }
    {
        lookups::common(&self.state, first, second)
    }

    // The units that no claim holds. Cost: one pass.
    pub fn free(&self) -> u16
        ensures { (result ≡ free_of self.now) × (0 ≡ (step self.now (looks at_pool)).answer.number) }
    {
        lookups::free(&self.state)
    }

    // The blocking chain of a ticket that waits: 8 if it is not pending, 10 if it is on. Cost: one pass at most to find it, and one at most for
    // each waiting claim of the chain.
    pub fn why(&self, ticket: u16) -> Result<Tickets, Refusal>
        ensures told { chain_told result ≡ chain_of (setting_of self.now) ticket self.now.pending }
        ensures few { length (chain_told result).tickets ≤ 64 }
    {
        lookups::why(&self.state, ticket)
    }

    // The groups of the rig.
    pub fn rig(&self) -> u64
        ensures { result ≡ self.now.rig }
    {
        self.state.rig
    }

    // The units in the pool.
    pub fn pool(&self) -> u16
        ensures { result ≡ self.now.pool }
    {
        self.state.pool
    }

    // The tickets issued.
    pub fn issued(&self) -> u16
        ensures { result ≡ self.now.issued }
    {
        self.state.issued
    }

    // The clock.
    pub fn now(&self) -> u64
        ensures { result ≡ self.now.clock }
    {
        self.state.clock
    }

    // The grace.
    pub fn grace(&self) -> u32
        ensures { result ≡ self.now.grace }
    {
        self.state.grace
    }

    // The shares of clients 1 to 8: none where one is not declared.
    pub fn shares(&self) -> &[Option<Share>]
        ensures { result.now ≡ self.now.shares }
    {
        &self.state.shares
    }

    // The pending claims, in ascending order of ticket; and what holds of every table.
    pub fn pending(&self) -> &[Claim]
        ensures claims { result.now ≡ self.now.pending }
        ensures valid { Valid self.now }
    {
        self.state.pending.as_slice()
    }
}
