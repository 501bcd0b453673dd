// The answers as text, laid on a page. Their texts are defined in specs/Answers.antt.
ghost use Rattle.std.specs.Prelude.{◌≡◌};
ghost use Rattle.numbers.specs.Refusals.{number_of};
ghost use Rattle.numerals.specs.Pages.{Lays};
ghost use Rattle.rules.specs.Calls.{setting_of, standing_values};
ghost use Rattle.table.specs.Valid.{Valid};
ghost use Rattle.replay.specs.Replay.{replay_told};
ghost use Rattle.question.specs.Answers.{absent_of, answer_text, common_text, free_text, holds_text, is_on_text, lookup_text, sentence_of, standing_text, text_from, tickets_text, waits_text, why_text, worded};
ghost use Rattle.question.specs.Told.{any_stop, start_told, tickets_told, unexplained};

use crate::questions::Question;
use numbers::Refusal;
use numerals::Page;
use replay::{Replayed, Stop};
use rules::{Common, Standing};
use table::Table;

// The number of a ticket that is not pending.
const UNKNOWN: u8 = Refusal::Unknown as u8;

// What holds of every table, as it tells it with its claims. No step at all.
pub(crate) fn settle(table: &Table)
    ensures { Valid table.now }
{
    let _ = table.pending();
}

fn put_number(page: &mut Page<'_>, words: &[u8], value: u64)
    ensures { Lays page.old (worded words.now value) page.new }
{
    page.bytes(words);
    page.decimal(value);
}

// ---- lookup
fn put_standing(page: &mut Page<'_>, standing: Standing)
    ensures { Lays page.old (standing_text standing) page.new }
{
    match standing {
        Standing::NotPending => page.bytes(b" is not pending"),
        Standing::Waits(start) => put_number(page, b" waits, start ", start),
        Standing::Holds(end) => put_number(page, b" is on, promised end ", end),
    }
}

fn put_lookup(page: &mut Page<'_>, ticket: u16, standing: Standing)
    ensures { Lays page.old (lookup_text ticket standing) page.new }
{
    put_number(page, b"ticket ", ticket as u64);
    put_standing(page, standing);
}

// ---- why
fn put_waits(page: &mut Page<'_>, ticket: u16, link: u16, start: u64)
    ensures { Lays page.old (waits_text ticket link start) page.new }
{
    page.decimal(ticket as u64);
    put_number(page, b" waits for ", link as u64);
    put_number(page, b" until ", start);
    page.bytes(b", ");
}

fn put_holds(page: &mut Page<'_>, ticket: u16, end: u64)
    ensures { Lays page.old (holds_text ticket end) page.new }
{
    page.decimal(ticket as u64);
    put_number(page, b" is on until ", end);
}

fn put_is_on(page: &mut Page<'_>, ticket: u16)
    ensures { Lays page.old (is_on_text ticket) page.new }
{
    put_number(page, b"ticket ", ticket as u64);
    page.bytes(b" is on");
}

// The planned start of a claim that waits; 0 of any other.
fn start_of(standing: Standing) -> u64
    ensures { result ≡ (standing_values standing).start }
{
    match standing {
        Standing::Waits(start) => start,
        Standing::NotPending | Standing::Holds(_) => 0,
    }
}

// The tickets of a chain, each with its start, and the last with its end, the start before it. Cost: one lookup for each that waits.
fn put_chain(page: &mut Page<'_>, table: &Table, tickets: &[u16])
    ensures { Lays page.old (tickets_told (start_told table.now.pending) 0 tickets.now) page.new }
{
    let [first, links @ ..] = tickets else {
        return;
    };
    let mut ticket = *first;
    let mut end = 0;
    for link in links {
        end = start_of(table.lookup(ticket));
        put_waits(page, ticket, *link, end);
        ticket = *link;
    }
    put_holds(page, ticket, end);
}

// Of a ticket that is told no chain: it is not pending, or it is on.
fn put_unexplained(page: &mut Page<'_>, ticket: u16, refusal: Refusal)
    ensures { Lays page.old (unexplained ticket (number_of refusal)) page.new }
{
    if u8::from(refusal) == UNKNOWN {
        put_lookup(page, ticket, Standing::NotPending);
    } else {
        put_is_on(page, ticket);
    }
}

fn put_why(page: &mut Page<'_>, table: &Table, ticket: u16)
    ensures { Lays page.old (why_text (setting_of table.now) table.now.pending ticket) page.new }
{
    settle(table);
    match table.why(ticket) {
        Ok(tickets) => {
            page.bytes(b"ticket ");
            put_chain(page, table, tickets.as_slice());
        }
        Err(refusal) => put_unexplained(page, ticket, refusal),
    }
}

// ---- common
fn put_tickets(page: &mut Page<'_>, first: u16, second: u16)
    ensures { Lays page.old (tickets_text first second) page.new }
{
    put_number(page, b"tickets ", first as u64);
    put_number(page, b" and ", second as u64);
}

// The first of two tickets that is not pending, by how the first stands.
fn absent(first: u16, second: u16, standing: Standing) -> u16
    ensures { result ≡ absent_of first second standing }
{
    match standing {
        Standing::NotPending => first,
        Standing::Waits(_) | Standing::Holds(_) => second,
    }
}

fn put_common(page: &mut Page<'_>, first: u16, second: u16, standing: Standing, common: Common)
    ensures { Lays page.old (common_text first second standing common) page.new }
{
    match common {
        Common::Unknown => {
            let ticket = absent(first, second, standing);
            put_lookup(page, ticket, Standing::NotPending);
        }
        Common::Shared(group) => {
            put_tickets(page, first, second);
            put_number(page, b" share group ", group as u64);
        }
        Common::Apart => {
            put_tickets(page, first, second);
            page.bytes(b" share no group");
        }
    }
}

// ---- free
fn put_free(page: &mut Page<'_>, free: u16, pool: u16)
    ensures { Lays page.old (free_text free pool) page.new }
{
    page.decimal(free as u64);
    put_number(page, b" of ", pool as u64);
    page.bytes(b" units free");
}

// ---- the answers
fn put_sentence(page: &mut Page<'_>, table: &Table, question: Question)
    ensures { Lays page.old (sentence_of table.now question) page.new }
{
    match question {
        Question::Lookup(ticket) => put_lookup(page, ticket, table.lookup(ticket)),
        Question::Why(ticket) => put_why(page, table, ticket),
        Question::Common(first, second) => put_common(
            page,
            first,
            second,
            table.lookup(first),
            table.common(first, second),
        ),
        Question::Free => put_free(page, table.free(), table.pool()),
    }
}

// The sentence and a line feed.
fn put_answer(page: &mut Page<'_>, table: &Table, question: Question)
    ensures { Lays page.old (answer_text table.now question) page.new }
{
    put_sentence(page, table, question);
    page.byte(b'\n');
}

// The load's stop line, if any.
fn put_any_stop(page: &mut Page<'_>, stop: Option<Stop>)
    ensures { Lays page.old (any_stop stop) page.new }
{
    match stop {
        Some(stop) => replay::put_stop(page, u8::from(stop.refusal), stop.record),
        None => {}
    }
}

// What is printed for a load, from what it leaves.
pub(crate) fn put_text(page: &mut Page<'_>, left: &Replayed, question: Question)
    ensures { Lays page.old (text_from (replay_told left.now) question) page.new }
{
    put_any_stop(page, left.stop);
    put_answer(page, &left.table, question);
}
