// Places a claim in a nearly full table again and again, for counting instructions: 63 claims pending, each of two groups of 16; every
// byte on standard input stands for 100 claims, each in a copy of the table, made at clock 0, or, where the first byte is 'o', at a clock
// past the holders' promised ends. Prints the sum of the starts.
#![tactic(auto)]

use table::Table;

// The set of the groups a and b, of 16.
fn pair(a: u64, b: u64) -> u64 {
    (1u64 << (a % 16)) | (1u64 << (b % 16))
}

fn pending() -> Table {
    let (mut t, _) = Table::new(0xFFFF, 0, true);
    for i in 0..63 {
        let k = u64::from(i);
        let ask = rules::asking(pair(k, k * 7 + 3), 100 + i * 13 % 50);
        let _ = t.claim(0, ask);
    }
    t
}

// The start of a claim in a copy of the table.
fn start(t: &Table, clock: u64, groups: u64) -> u64 {
    let mut copy = *t;
    match copy.claim(clock, rules::asking(groups, 40)) {
        Ok(accepted) => accepted.reply.start,
        Err(_) => 0,
    }
}

fn hundred(t: &Table, clock: u64, from: u64) -> u64 {
    let mut sum = from;
    for i in 0..100 {
        sum = sum.wrapping_add(start(t, clock, pair(i, i * 5 + 1)));
    }
    sum
}

fn main(rt: HostRuntime) {
    let mut input = [0u8; 4096];
    let Some(bytes) = streams::read_input(&rt, b"claim_bench", &mut input) else {
        return;
    };
    let t = pending();
    let clock = if input[0] == b'o' { 200 } else { 0 };
    let mut sum = 0;
    for _ in 0..bytes {
        sum = hundred(&t, clock, sum);
    }
    let _ = println!(rt; "{sum}");
}
