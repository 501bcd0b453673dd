// Runs the plots of document 01, "Plots to try", on the table, and prints a line for each: for every call its answer (number, ticket,
// start, crowd, ceiling, then "on" with the tickets granted), for every look what it tells. Then it issues every ticket that a table has,
// claim and release in turn, and shows what comes then. Last two clients with shares, and a grace.
#![tactic(auto)]

use numbers::Refusal;
use rules::{Request, Standing, Tickets};
use table::{Accepted, Table};

// A write that fails is not told.
fn say(rt: &impl Print, text: &str) {
    let _ = rt.print(text);
}

fn number(rt: &impl Print, n: u64) {
    let _ = print!(rt; " {n}");
}

fn plot(rt: &impl Print, n: u64) {
    let _ = print!(rt; "{n}:");
}

fn grants(rt: &impl Print, granted: &Tickets) {
    if granted.is_empty() {
        return;
    }
    say(rt, " on");
    for ticket in granted.as_slice() {
        number(rt, u64::from(*ticket));
    }
}

fn answer(rt: &impl Print, answer: &Result<Accepted, Refusal>) {
    number(rt, u64::from(numbers::number(answer)));
    match answer {
        Ok(accepted) => {
            number(rt, u64::from(accepted.reply.ticket));
            number(rt, accepted.reply.start);
            number(rt, accepted.reply.contention);
            number(rt, accepted.reply.bound);
            grants(rt, &accepted.grants);
        }
        Err(_) => say(rt, " 0 0 0 0"),
    }
    say(rt, ";");
}

// ── calls that are shown ──

fn claim(rt: &impl Print, t: &mut Table, clock: u64, groups: u64, length: u32) {
    answer(rt, &t.claim(clock, rules::asking(groups, length)));
}

fn release(rt: &impl Print, t: &mut Table, clock: u64, ticket: u16) {
    answer(rt, &t.release(clock, ticket));
}

fn withdraw(rt: &impl Print, t: &mut Table, clock: u64, ticket: u16) {
    answer(rt, &t.withdraw(clock, ticket));
}

fn clock(rt: &impl Print, t: &mut Table, clock: u64) {
    answer(rt, &t.clock(clock));
}

fn look(rt: &impl Print, t: &Table, ticket: u16) {
    number(rt, u64::from(ticket));
    match t.lookup(ticket) {
        Standing::NotPending => say(rt, " 8"),
        Standing::Waits(start) => {
            say(rt, " waits");
            number(rt, start);
        }
        Standing::Holds(end) => {
            say(rt, " on until");
            number(rt, end);
        }
    }
    say(rt, ";");
}

fn end(rt: &impl Print) {
    say(rt, "\n");
}

// ── calls that are not ──

fn rig(groups: u64) -> Table {
    let (t, _) = Table::new(groups, 0, true);
    t
}

fn quiet(t: &mut Table, groups: u64, length: u32) {
    let _ = t.claim(0, rules::asking(groups, length));
}

// Two claims at clock 0, and "S is three claims at clock 0".
fn two_on(t: &mut Table) {
    quiet(t, 0x8, 10);
    quiet(t, 0xC, 10);
}

fn three_on(t: &mut Table) {
    two_on(t);
    quiet(t, 0x6, 11);
}

fn three() -> Table {
    let mut t = rig(0xF);
    three_on(&mut t);
    t
}

// ── the plots ──

fn plots_1_to_4(rt: &impl Print) {
    let mut t = rig(0xF);
    plot(rt, 1);
    claim(rt, &mut t, 0, 0x8, 10);
    end(rt);
    plot(rt, 2);
    claim(rt, &mut t, 0, 0xC, 10);
    end(rt);
    plot(rt, 3);
    claim(rt, &mut t, 0, 0x6, 11);
    end(rt);
    let mut u = rig(0xF);
    two_on(&mut u);
    plot(rt, 4);
    claim(rt, &mut u, 0, 0x6, 10);
    end(rt);
}

fn plots_5_to_8(rt: &impl Print) {
    let mut t = three();
    plot(rt, 5);
    claim(rt, &mut t, 0, 0x3, 20);
    end(rt);
    let mut u = three();
    plot(rt, 6);
    claim(rt, &mut u, 0, 0x3, 21);
    end(rt);
    plot(rt, 7);
    release(rt, &mut t, 4, 1);
    look(rt, &t, 3);
    end(rt);
    let mut v = three();
    plot(rt, 8);
    release(rt, &mut v, 4, 1);
    look(rt, &v, 3);
    end(rt);
}

fn plots_9_and_10(rt: &impl Print) {
    let mut t = three();
    plot(rt, 9);
    withdraw(rt, &mut t, 0, 2);
    end(rt);
    let mut u = three();
    plot(rt, 10);
    clock(rt, &mut u, 12);
    look(rt, &u, 2);
    look(rt, &u, 3);
    clock(rt, &mut u, 11);
    clock(rt, &mut u, 12);
    end(rt);
}

fn plots_11_and_12(rt: &impl Print) {
    let mut t = rig(0xF);
    plot(rt, 11);
    claim(rt, &mut t, 0, 0x10, 1);
    claim(rt, &mut t, 0, 0x1, 3_600_000);
    claim(rt, &mut t, 0, 0x1, 3_600_001);
    claim(rt, &mut t, 0, 0x1, 0);
    end(rt);
    let mut s = three();
    plot(rt, 12);
    release(rt, &mut s, 0, 2);
    withdraw(rt, &mut s, 0, 1);
    release(rt, &mut s, 0, 0);
    withdraw(rt, &mut s, 0, 0);
    end(rt);
}

// 64 claims of one group, of which the first is on.
fn full() -> Table {
    let mut t = rig(0xF);
    for _ in 0..64 {
        quiet(&mut t, 0x1, 10);
    }
    t
}

fn plots_13_and_14(rt: &impl Print) {
    let mut t = full();
    plot(rt, 13);
    claim(rt, &mut t, 0, 0x2, 5);
    release(rt, &mut t, 0, 1);
    claim(rt, &mut t, 0, 0x2, 5);
    end(rt);
    let mut u = rig(0xF);
    plot(rt, 14);
    clock(rt, &mut u, 5);
    claim(rt, &mut u, 4, 0, 1);
    end(rt);
}

// ── every ticket issued ──

fn line(rt: &impl Print, text: &str, n: u64) {
    let _ = println!(rt; "{text}{n}");
}

// The table after 65,535 claims, each released at once.
fn exhausted() -> Table {
    let mut t = rig(0x1);
    for _ in 0..65_535 {
        if let Ok(accepted) = t.claim(0, rules::asking(0x1, 1)) {
            let _ = t.release(0, accepted.reply.ticket);
        }
    }
    t
}

// No load is long enough to issue every ticket.
fn tickets(rt: &impl Print) {
    let mut t = exhausted();
    line(rt, "tickets issued: ", u64::from(t.issued()));
    line(rt, "claims pending: ", t.pending().len() as u64);
    let claimed = t.claim(0, rules::asking(0x1, 1));
    line(rt, "a claim more: ", u64::from(numbers::number(&claimed)));
    let released = t.release(0, 65_535);
    line(
        rt,
        "release of the last ticket: ",
        u64::from(numbers::number(&released)),
    );
    let moved = t.clock(7);
    line(rt, "a clock call: ", u64::from(numbers::number(&moved)));
}

// ── clients with shares ──

fn declare(rt: &impl Print, t: &mut Table, client: u8, reserved: u8, limit: u8) {
    let declared = t.declare(client, reserved, limit);
    number(rt, u64::from(numbers::number(&declared)));
}

// 40 claims of a client, and their numbers.
fn forty(rt: &impl Print, t: &mut Table, client: u8) {
    let ask = Request {
        groups: 0x1,
        length: 10,
        units: 0,
        client,
    };
    for _ in 0..40 {
        let claimed = t.claim(0, ask);
        number(rt, u64::from(numbers::number(&claimed)));
    }
    end(rt);
}

// Two clients with 32 places reserved each ask for 40; then a declaration, which comes late.
fn desks(rt: &impl Print) {
    let (mut t, _) = Table::new(0xF, 0, false);
    say(rt, "desks 1 and 2, 32 and 32:");
    declare(rt, &mut t, 1, 32, 64);
    declare(rt, &mut t, 2, 32, 32);
    end(rt);
    say(rt, "desk 1:");
    forty(rt, &mut t, 1);
    say(rt, "desk 2:");
    forty(rt, &mut t, 2);
    say(rt, "desk 3:");
    declare(rt, &mut t, 3, 0, 0);
    end(rt);
}

// ── a grace ──

fn set_grace(rt: &impl Print, t: &mut Table, grace: u32) {
    answer(rt, &t.set_grace(grace));
}

fn looks(rt: &impl Print, t: &Table) {
    look(rt, t, 1);
    look(rt, t, 2);
    look(rt, t, 3);
    end(rt);
}

// S with a grace of 5: no grace at the promised end of ticket 1, then a grace after the clock, until its release.
fn graces(rt: &impl Print) {
    let mut t = rig(0xF);
    say(rt, "graces of 60001, 60000 and 5:");
    set_grace(rt, &mut t, 60_001);
    set_grace(rt, &mut t, 60_000);
    set_grace(rt, &mut t, 5);
    end(rt);
    three_on(&mut t);
    say(rt, "S at clock 10:");
    clock(rt, &mut t, 10);
    looks(rt, &t);
    say(rt, "at clock 12:");
    clock(rt, &mut t, 12);
    looks(rt, &t);
    let mut later = t;
    say(rt, "at clock 14:");
    clock(rt, &mut later, 14);
    looks(rt, &later);
    say(rt, "a grace of 5:");
    set_grace(rt, &mut t, 5);
    end(rt);
    say(rt, "a claim, and the release at clock 13:");
    claim(rt, &mut t, 12, 0x8, 3);
    release(rt, &mut t, 13, 1);
    looks(rt, &t);
}

fn main(rt: HostRuntime) {
    plots_1_to_4(&rt);
    plots_5_to_8(&rt);
    plots_9_and_10(&rt);
    plots_11_and_12(&rt);
    plots_13_and_14(&rt);
    tickets(&rt);
    desks(&rt);
    graces(&rt);
}
