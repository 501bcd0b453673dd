// Writes the workload of a seed and a count, its two arguments, to standard output. A wrong argument is told on standard error, and then
// nothing is written.
#![tactic(auto)]

use std::env::Env;
use words::Reason;

const WRONG_SEED: &[u8] = b"seed is not a number from 0 to 4294967295\n";

const WRONG_COUNT: &[u8] = b"count is not a number from 1 to 1000\n";

// The number that an argument says, in decimal and up to 4,294,967,295; or none.
fn argument(rt: &impl Env, i: usize) -> Option<u32> {
    let mut text = [0; 4096];
    let n = rt.arg(i, &mut text).ok()?;
    let value = words::number(
        &text[..n],
        10,
        u64::from(u32::MAX),
        Reason::Unknown,
        Reason::TooLarge,
    )
    .ok()?;
    u32::try_from(value).ok()
}

fn write(rt: &(impl Print + Eprint + Alloc), seed: u32, count: u32) {
    let mut load = [0; 65536];
    match generator::workload(seed, count, &mut load) {
        Ok(n) => {
            streams::write_output(rt, b"workload", &load[..n]);
        }
        Err(_) => streams::tell(rt, WRONG_COUNT),
    }
}

fn main(rt: HostRuntime) {
    if !streams::has_argument(&rt, 2) || streams::has_argument(&rt, 3) {
        streams::tell_usage(&rt, b"workload SEED COUNT > LOAD");
        return;
    }
    let Some(seed) = argument(&rt, 1) else {
        streams::tell(&rt, WRONG_SEED);
        return;
    };
    let Some(count) = argument(&rt, 2) else {
        streams::tell(&rt, WRONG_COUNT);
        return;
    };
    write(&rt, seed, count);
}
