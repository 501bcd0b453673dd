// What a load does to a table: each record is a call of it. And the table that they leave, with the stop that ends them early, if any.
#![tactic(auto)]

ghost use Rattle.std.specs.Prelude.{◌≡◌, ◌≤◌, length};
ghost use Rattle.numbers.specs.Numbers.{most_bytes};
ghost use Rattle.numerals.specs.Pages.{Lays};
ghost use Rattle.format.specs.Records.{record_of};
ghost use Rattle.load.specs.Reading.{walk};
ghost use Rattle.table.specs.Outcomes.{answer_of};
ghost use Rattle.replay.specs.Records.{alone_in, step_of, ending, unrigged};
ghost use Rattle.replay.specs.Replay.{replay_in, replay_of, replay_told};
ghost use Rattle.replay.specs.StopLine.{stop_line};

use format::{Call, kinds};
use numbers::Refusal;
use numerals::Page;
use rules::Request;
use table::{Accepted, Table};

// ── a record ──

// What a record does to a table, by its kind: the call of the table that it says. `alone` is for the rig: client 1 alone is declared.
#[tactic(auto, unfolding(crate::specs::Records::step_of, crate::specs::Records::says_call))]
pub fn act(table: &mut Table, alone: bool, call: Call) -> Result<Accepted, Refusal>
    ensures answer { answer_of result ≡ (step_of alone table.old (record_of call)).answer }
    ensures table { table.new ≡ (step_of alone table.old (record_of call)).model }
{
    match call.kind {
        kinds::RIG => {
            let (rigged, answer) = Table::new(call.groups, call.pool, alone);
            *table = rigged;
            answer
        }
        kinds::CLAIM => {
            let ask = Request {
                groups: call.groups,
                length: call.length,
                units: call.units,
                client: call.client,
            };
            table.claim(call.clock, ask)
        }
        kinds::RELEASE => table.release(call.clock, call.ticket),
        kinds::WITHDRAW => table.withdraw(call.clock, call.ticket),
        kinds::DECLARATION => table.declare(call.client, call.reserved, call.limit),
        kinds::GRACE => table.set_grace(call.grace),
        _ => table.clock(call.clock),
    }
}

// Whether a load is of an edition without declarations, in which client 1 alone is declared.
#[tactic(auto, unfolding(crate::specs::Records::alone_in))]
pub fn alone_in(load: &[u8]) -> bool
    ensures { result ≡ alone_in load.now }
{
    match load.first() {
        Some(edition) => *edition < 3,
        None => true,
    }
}

// ── the stop ──

// The numbers that end a load early: a dark rig's, and those from the edition to an overlong load.
const DARK: u8 = Refusal::Dark as u8;

const EDITION: u8 = Refusal::Edition as u8;

const OVERLONG: u8 = Refusal::Overlong as u8;

// The number by which a record ends the load early, 0 for none.
#[tactic(auto, unfolding(crate::specs::Records::ending))]
pub fn ending_of(k: u64, number: u8) -> u8
    ensures { result ≡ ending k number }
{
    match number {
        DARK if k == 1 => number,
        EDITION..=OVERLONG => number,
        _ => 0,
    }
}

// Its line.
pub fn put_stop(page: &mut Page<'_>, number: u8, k: u64)
    ensures { Lays page.old (stop_line number k) page.new }
{
    page.bytes(b"stop ");
    page.pair(number as u64, k, b'\n');
}

// ── the table that a load leaves ──

// Why a load stops before its end, and at which record: 0 before the first.
#[derive(Clone, Copy, Debug, PartialEq, Eq)]
pub struct Stop {
    pub refusal: Refusal,
    pub record: u64,
}

// The table that a load leaves, and the stop of one that is not read to its end.
#[derive(Clone, Copy)]
pub struct Replayed {
    pub table: Table,
    pub stop: Option<Stop>,
}

// The table before the rig.
#[tactic(auto, using(table::proofs::Promised::new_none))]
pub fn unrigged() -> Table
    ensures { result ≡ unrigged }
{
    let (table, _) = Table::new(0, 0, true);
    table
}

// The records of a load that opens. What ends it early leaves the table as it was: a dark rig the one before it.
fn replay_records(load: &[u8]) -> Replayed
    requires { length load.now ≤ most_bytes }
    ensures { replay_told result ≡ replay_in (alone_in load.now) 1 unrigged (walk load.now 1) }
{
    let alone = alone_in(load);
    let mut table = unrigged();
    let mut at = 1;
    let mut record = 1;
    loop {
        match load::record_at(load, at) {
            Ok(Some(item)) => {
                match act(&mut table, alone, item.call) {
                    Err(refusal) if ending_of(record, u8::from(refusal)) != 0 => {
                        if record == 1 {
                            table = unrigged();
                        }
                        return Replayed {
                            table,
                            stop: Some(Stop { refusal, record }),
                        };
                    }
                    _ => {
                        at = item.next;
                        record += 1;
                    }
                }
            }
            Ok(None) => return Replayed { table, stop: None },
            Err(refusal) => {
                return Replayed {
                    table,
                    stop: Some(Stop { refusal, record }),
                };
            }
        }
    }
}

// What a load leaves. Cost: one call of the table for each record.
pub fn replay(load: &[u8]) -> Replayed
    ensures { replay_told result ≡ replay_of load.now }
{
    match load::check_open(load) {
        Ok(()) => replay_records(load),
        Err(refusal) => Replayed {
            table: unrigged(),
            stop: Some(Stop { refusal, record: 0 }),
        },
    }
}
