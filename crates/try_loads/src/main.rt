// Runs the reader and the writer of loads on standard input and prints what they answer, for comparison with the second program: the scan;
// each record's position and length, and the stop; the writer's answer to each call so read, written again one after the other; and its
// answers to seven more calls on the load itself (a rig and a clock, then a rig with a pool and a claim with units, which edition 1 cannot
// carry, then a claim of client 2, a declaration and a grace, which editions 1 and 2 cannot), each with room for any load and with room for
// one byte, with whether the lent buffer kept its bytes.
#![tactic(auto)]

ghost use Rattle.std.specs.Prelude.{◌≡◌, length};

use format::{Call, kinds};
use numbers::Refusal;
use reader::Reader;

// The first n bytes, or all where there are fewer.
fn first(s: &[u8], n: usize) -> &[u8] {
    s.get(..n).unwrap_or(s)
}

// The number of an answer: 0 where it is no refusal.
fn number(answer: Result<(), Refusal>) -> u8 {
    match answer {
        Ok(()) => 0,
        Err(refusal) => u8::from(refusal),
    }
}

// ---- reading
fn scan(rt: &impl Print, load: &[u8]) {
    let scanned = reader::scan(load);
    let _ = println!(rt; "scan {} {}", scanned.records, number(scanned.stop));
}

// The records from the first on, and where the reader stops. A load has fewer records than bytes.
fn records(rt: &impl Print, load: &[u8]) {
    let mut reader = Reader::opened(load);
    for _ in 0..65536 {
        match reader.next() {
            Ok(Some(_)) => {
                let _ = println!(rt; "record {} {}", reader.at, reader.shown().len());
                reader = reader.advanced();
            }
            Ok(None) => {
                let _ = println!(rt; "stop {} 0", reader.at);
                return;
            }
            Err(refusal) => {
                let _ = println!(rt; "stop {} {}", reader.at, u8::from(refusal));
                return;
            }
        }
    }
}

// ---- writing
// The writer's answer in a line. Gives the new length, 0 where it is a refusal.
fn tell(rt: &impl Print, answer: Result<usize, Refusal>) -> usize {
    match answer {
        Ok(length) => {
            let _ = println!(rt; "append 0 {length}");
            length
        }
        Err(refusal) => {
            let _ = println!(rt; "append {} 0", u8::from(refusal));
            0
        }
    }
}

// The calls of a load, written again after its edition byte: from one buffer into the other, and back.
fn rewrite(rt: &impl Print, load: &[u8], a: &mut [u8], b: &mut [u8]) {
    let mut n = numerals::put_bytes(a, 0, first(load, 1));
    let mut at = 1;
    let mut even = true;
    for _ in 0..65536 {
        let Ok(Some(item)) = reader::item_at(load, at) else {
            break;
        };
        let answer = if even {
            load::append(first(a, n), item.call, b)
        } else {
            load::append(first(b, n), item.call, a)
        };
        n = tell(rt, answer);
        at = item.next;
        even = !even;
    }
    let written = if even { first(a, n) } else { first(b, n) };
    let _ = println!(rt; "same {}", u8::from(first(load, at) == written));
}

// A lent buffer with room for any load, each byte 170.
fn lent() -> [u8; 65536]
    ensures { 65536 ≡ length result }
{
    [170; 65536]
}

fn attempt(rt: &impl Print, load: &[u8], call: Call, out: &mut [u8]) {
    let before = lent();
    tell(rt, load::append(load, call, out));
    let _ = println!(rt; "kept {}", u8::from(&*out == first(&before, out.len())));
}

// A call appended to the load as it stands, with room for any load and with room for one byte.
fn attempts(rt: &impl Print, load: &[u8], call: Call) {
    attempt(rt, load, call, &mut lent());
    attempt(rt, load, call, &mut [170u8; 1]);
}

fn rewritten(rt: &impl Print, load: &[u8]) {
    rewrite(rt, load, &mut lent(), &mut lent());
}

fn print(rt: &impl Print, load: &[u8]) {
    scan(rt, load);
    records(rt, load);
    if load::check_open(load).is_ok() {
        rewritten(rt, load);
    }
    let rig = Call {
        groups: 15,
        ..Call::bare(kinds::RIG)
    };
    attempts(rt, load, rig);
    attempts(
        rt,
        load,
        Call {
            clock: 1,
            ..Call::bare(kinds::CLOCK)
        },
    );
    attempts(rt, load, Call { pool: 3, ..rig });
    let claim = Call {
        clock: 1,
        groups: 1,
        length: 1,
        ..Call::bare(kinds::CLAIM)
    };
    attempts(rt, load, Call { units: 2, ..claim });
    attempts(rt, load, Call { client: 2, ..claim });
    attempts(
        rt,
        load,
        Call {
            client: 2,
            reserved: 3,
            limit: 4,
            ..Call::bare(kinds::DECLARATION)
        },
    );
    attempts(
        rt,
        load,
        Call {
            grace: 60000,
            ..Call::bare(kinds::GRACE)
        },
    );
}

// `room` is for the longest load and one byte more. A write that fails is not told.
fn run(rt: &(impl Input + Print + Eprint + Alloc), mut room: [u8; 65537]) {
    if let Some(n) = streams::read_input(rt, b"try_loads", &mut room) {
        print(rt, &room[..n]);
    }
}

fn main(rt: HostRuntime) {
    run(&rt, [0; 65537]);
}
