// Prints whole answers, for comparison with the second program: for each record of a load on standard input its number, ticket, start,
// contention and start bound, then the units free, how each pending ticket stands, which group two of them share, and why each waits. A
// listing prints less.
#![tactic(auto)]

use numbers::Refusal;
use numerals::Page;
use rules::{Common, Standing};
use table::{Accepted, Table};

// What is laid, in one write. A write that fails is not told.
fn print(rt: &impl Print, page: &Page<'_>) {
    if let Some(text) = page.out.get(..page.at) {
        let _ = rt.write_all(text);
    }
}

// ---- the answer and how the tickets stand
fn put_answer(page: &mut Page<'_>, record: u64, answer: &Result<Accepted, Refusal>) {
    page.pair(record, u64::from(numbers::number(answer)), b' ');
    match answer {
        Ok(accepted) => {
            let reply = accepted.reply;
            page.pair(u64::from(reply.ticket), reply.start, b' ');
            page.pair(reply.contention, reply.bound, b'\n');
        }
        Err(_) => page.bytes(b"0 0 0 0\n"),
    }
}

fn put_standing(page: &mut Page<'_>, ticket: u16, standing: Standing) {
    match standing {
        Standing::NotPending => {}
        Standing::Waits(start) => {
            page.bytes(b"waits ");
            page.pair(u64::from(ticket), start, b'\n');
        }
        Standing::Holds(end) => {
            page.bytes(b"holds ");
            page.pair(u64::from(ticket), end, b'\n');
        }
    }
}

// Every ticket issued so far is looked up.
fn put_standings(page: &mut Page<'_>, table: &Table) {
    for ticket in 1..=table.issued() {
        put_standing(page, ticket, table.lookup(ticket));
    }
}

// A record's answer, the units free, and its tickets: at most 64 are pending, so they go into this room.
fn print_answer(rt: &impl Print, record: u64, answer: &Result<Accepted, Refusal>, table: &Table) {
    let mut room = [0; 4096];
    let mut page = Page::new(&mut room);
    put_answer(&mut page, record, answer);
    page.bytes(b"free ");
    page.column(u64::from(table.free()), b'\n');
    put_standings(&mut page, table);
    print(rt, &page);
}

// ---- shared groups
fn put_pair(page: &mut Page<'_>, table: &Table, first: u16, second: u16) {
    page.bytes(b"common ");
    page.pair(u64::from(first), u64::from(second), b' ');
    match table.common(first, second) {
        Common::Unknown => page.bytes(b"unknown\n"),
        Common::Shared(group) => page.column(group as u64, b'\n'),
        Common::Apart => page.bytes(b"none\n"),
    }
}

// Whether the claims at two places are asked about: all of a small table; of others each with itself and the next, and the first with all.
fn asked(count: usize, i: usize, j: usize) -> bool {
    count <= 8 || i == 0 || (i <= j && j - i <= 1)
}

// A ticket that is never pending, before, after and with itself; then every claim. At most 193 pairs, a line of 23 bytes for each, go into
// this room.
fn print_pairs(rt: &impl Print, table: &Table) {
    let mut room = [0; 8192];
    let mut page = Page::new(&mut room);
    let last = table.issued();
    put_pair(&mut page, table, 0, last);
    put_pair(&mut page, table, last, 0);
    put_pair(&mut page, table, 0, 0);
    let pending = table.pending();
    for (i, first) in pending.iter().enumerate() {
        for (j, second) in pending.iter().enumerate() {
            if asked(pending.len(), i, j) {
                put_pair(&mut page, table, first.ticket, second.ticket);
            }
        }
    }
    print(rt, &page);
}

// ---- chains
// A ticket's chain: its number, how many tickets are in it, and these.
fn put_chain(page: &mut Page<'_>, table: &Table, ticket: u16) {
    page.bytes(b"why ");
    match table.why(ticket) {
        Ok(tickets) => {
            page.pair(u64::from(ticket), 0, b' ');
            page.decimal(tickets.len() as u64);
            for link in tickets.as_slice() {
                page.byte(b' ');
                page.decimal(u64::from(*link));
            }
            page.byte(b'\n');
        }
        Err(refusal) => {
            page.pair(u64::from(ticket), u64::from(u8::from(refusal)), b' ');
            page.bytes(b"0\n");
        }
    }
}

// Every claim; then a ticket that is never pending. At most 65 chains, a line of 399 bytes for each, go into this room.
fn print_chains(rt: &impl Print, table: &Table) {
    let mut room = [0; 32768];
    let mut page = Page::new(&mut room);
    for claim in table.pending() {
        put_chain(&mut page, table, claim.ticket);
    }
    put_chain(&mut page, table, 0);
    print(rt, &page);
}

// The records to the load's end or the first refusal of the reader; a rig without groups and a declaration that comes late end them too. A
// load has fewer records than bytes.
fn print_records(rt: &impl Print, load: &[u8]) {
    let alone = replay::alone_in(load);
    let mut table = replay::unrigged();
    let mut at = 1;
    for record in 1..65536 {
        let Ok(Some(item)) = load::record_at(load, at) else {
            break;
        };
        let answer = replay::act(&mut table, alone, item.call);
        print_answer(rt, record, &answer, &table);
        print_pairs(rt, &table);
        print_chains(rt, &table);
        if replay::ending_of(record, numbers::number(&answer)) != 0 {
            break;
        }
        at = item.next;
    }
}

fn run(rt: &(impl Input + Print + Eprint + Alloc), mut room: [u8; 65537]) {
    let Some(n) = streams::read_input(rt, b"try_answers", &mut room) else {
        return;
    };
    let load = &room[..n];
    if load::check_open(load).is_ok() {
        print_records(rt, load);
    }
}

fn main(rt: HostRuntime) {
    run(&rt, [0; 65537]);
}
