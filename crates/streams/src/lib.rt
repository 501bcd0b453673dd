// A program's standard input, standard output and arguments. What fails is told on standard error, by the program's name. No contract can
// say what is read or written.
#![tactic(auto)]

ghost use Rattle.std.specs.Prelude.{◌≡◌, ◌+◌, ◌≤◌, length, take, IfOk, IfSome};

use std::env::{Env, FillError};
use std::fmt;
use std::io::{Error, Read, Result};

// One read behind the first bytes of a buffer: how many more it has, 0 at the end of the input.
fn read_more(from: &mut impl Read, room: &mut [u8], done: usize) -> Result<usize>
    requires { done ≤ length room.old }
    ensures { IfOk result (λ more. done + more ≤ length room.new) }
{
    from.read(&mut room[done..])
}

// Reads standard input to the start of a lent buffer until it ends or the buffer is full: how much was read. A read that fails is told, and
// nothing counts as read, whatever stands in the buffer. Cost: one read for each part that the system hands over, straight into its place.
pub fn read_input(
    rt: &(impl std::io::Input + Eprint + Alloc),
    name: &[u8],
    room: &mut [u8],
) -> Option<usize>
    ensures within { IfSome result (λ n. n ≤ length room.new) }
    ensures prefix { IfSome result (λ n. n ≡ length (take n room.new)) }
{
    let mut from = rt.reader();
    let mut done: usize = 0;
    while done < room.len() {
        match read_more(&mut from, room, done) {
            Ok(0) => break,
            Ok(more) => {
                done += more;
            }
            Err(error) => {
                tell_error(rt, name, "standard input", error);
                return None;
            }
        }
    }
    Some(done)
}

// Writes bytes to standard output: whether all were written. A write that fails is told.
pub fn write_output(rt: &(impl Print + Eprint + Alloc), name: &[u8], bytes: &[u8]) -> bool {
    match rt.write_all(bytes) {
        Ok(()) => true,
        Err(error) => {
            tell_error(rt, name, "standard output", error);
            false
        }
    }
}

// What an error says, without its number: `Is a directory` of `Is a directory (os error 21)`.
fn words_of(said: &str) -> &str {
    match said.split_once(" (os error ") {
        Some((words, _number)) => words,
        None => said,
    }
}

// `NAME: standard input: Is a directory`. Without memory for the words they stand there with their number.
fn tell_error(rt: &(impl Eprint + Alloc), name: &[u8], stream: &str, error: Error) {
    let name = Ascii(name);
    let _ = match format!(in rt.alloc(); "{error}") {
        Ok(said) => eprintln!(rt; "{name}: {stream}: {}", words_of(said.as_str())),
        Err(_) => eprintln!(rt; "{name}: {stream}: {error}"),
    };
}

// Bytes of ASCII, as they are printed.
#[derive(Drop)]
struct Ascii<'a>(&'a [u8]);

impl fmt::Display for Ascii<'_> {
    fn fmt<W: fmt::Write>(&self, f: &mut fmt::Formatter<W>) -> fmt::Result {
        for byte in self.0 {
            f.write_char(char::from(*byte))?;
        }
        Ok(())
    }
}

// Says a text on standard error, which has bytes of ASCII alone.
pub fn tell(rt: &impl Eprint, text: &[u8]) {
    let _ = rt.eprint(Ascii(text));
}

// Tells how a program is used on standard error.
pub fn tell_usage(rt: &impl Eprint, usage: &[u8]) {
    let usage = Ascii(usage);
    let _ = eprintln!(rt; "usage: {usage}");
}

// Whether there is an argument at a place; that of the first is 1.
pub fn has_argument(rt: &impl Env, place: usize) -> bool {
    !matches!(rt.arg(place, &mut []), Err(FillError::NotPresent))
}

// Whether a program that takes no arguments was given some, which is told by how it is used.
pub fn has_arguments(rt: &(impl Env + Eprint), usage: &[u8]) -> bool {
    if !has_argument(rt, 1) {
        return false;
    }
    tell_usage(rt, usage);
    true
}
