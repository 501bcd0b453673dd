// Answers a question about the table that a load leaves. The question stands in the arguments, the load on standard input. A wrong question
// is told on standard error, with the questions there are, and nothing is read.
#![tactic(auto)]

ghost use Rattle.std.specs.Prelude.{◌≤◌, length};

use question::AskError;
use std::env::Env;

// A space behind what a line has so far, if it has anything: the place after it.
fn spaced(line: &mut [u8], at: usize) -> usize {
    if at == 0 {
        return 0;
    }
    numerals::put_byte(line, at, b' ')
}

// The arguments joined by single spaces at the start of a line: its length. Where they do not go in it is empty, and asks nothing.
fn joined(rt: &impl Env, line: &mut [u8]) -> usize
    ensures { result ≤ length line.new }
{
    let mut n: usize = 0;
    for i in 1..usize::MAX {
        if !streams::has_argument(rt, i) {
            break;
        }
        let at = spaced(line, n);
        if line.len() < at {
            return 0;
        }
        let Ok(size) = rt.arg(i, &mut line[at..]) else {
            return 0;
        };
        n = at + size;
    }
    n
}

fn tell_usage(rt: &impl Eprint) {
    streams::tell_usage(
        rt,
        b"ask lookup TICKET < LOAD\n       ask common TICKET TICKET < LOAD\n       ask free < LOAD\n       ask why TICKET < LOAD",
    );
}

// `text` is for any answer: the longest, a blocking chain of 64, is within 5,175 bytes.
fn print(rt: &(impl Print + Eprint + Alloc), load: &[u8], line: &[u8]) {
    let mut text = [0u8; 5175];
    match question::answer(load, line, &mut text) {
        Ok(n) => {
            streams::write_output(rt, b"ask", &text[..n]);
        }
        Err(AskError::NoSuch) => tell_usage(rt),
        Err(AskError::NoRoom) => {}
    }
}

// `room` is for the longest load and one byte more.
fn run(rt: &(impl Input + Print + Eprint + Alloc), line: &[u8], mut room: [u8; 65537]) {
    if question::question_of(line).is_none() {
        tell_usage(rt);
        return;
    }
    let Some(n) = streams::read_input(rt, b"ask", &mut room) else {
        return;
    };
    print(rt, &room[..n], line);
}

fn main(rt: HostRuntime) {
    let mut line = [0u8; 4096];
    let n = joined(&rt, &mut line);
    run(&rt, &line[..n], [0; 65537]);
}
