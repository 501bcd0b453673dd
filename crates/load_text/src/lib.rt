// Loads as text, a line for each call: `make` has a text to a load, `report` tells the line that is wrong, `show` has a load to its text,
// `parse_line` and `put_line` one line. No public function asks anything of its slices. What a line says is defined in specs/Parsing.antt,
// the load that lines make in specs/Making.antt, the lines of a load in specs/Lines.antt, and the forms of lines in specs/Forms.antt.
#![tactic(auto)]

ghost use Rattle.std.specs.Prelude.{◌≡◌, length};
ghost use Rattle.load_text.specs.Answers.{made_values};
ghost use Rattle.load_text.specs.Parsing.{line_says};
ghost use Rattle.load_text.specs.Making.{Starts, Adds, Gathers, made_of, made_out, make_values};

mod parse;
mod print;
mod reports;
mod texts;

use numbers::Refusal;
use numerals::Page;
use parse::Head;
pub use parse::parse_line;
pub use print::{put_line, show};
pub use reports::report;
use words::Reason;

// The first line of a text that is wrong, counted from 1, and the number of what is; or 15, at line 0.
#[derive(Clone, Copy, Debug, PartialEq, Eq)]
pub struct Mistake {
    pub line: u64,
    pub number: u8,
}

// The heading of a text: its edition, the lines that it takes up, and the text behind them.
#[derive(Clone, Copy)]
pub(crate) struct Start<'a> {
    pub edition: u8,
    pub lines: u64,
    pub rest: &'a [u8],
}

pub(crate) fn heading(text: &[u8]) -> Result<Start<'_>, Mistake>
    ensures { Starts text.now result }
{
    let mut rest = text;
    let mut line: u64 = 0;
    while let Some((said, behind)) = words::next_line(rest) {
        line += 1;
        match parse::head_line(said) {
            Ok(Head::Silent) => {
                rest = behind;
            }
            Ok(Head::Edition(edition)) => {
                return Ok(Start {
                    edition,
                    lines: line,
                    rest: behind,
                });
            }
            Ok(Head::Other) => {
                return Ok(Start {
                    edition: 1,
                    lines: 0,
                    rest: text,
                });
            }
            Err(reason) => {
                return Err(Mistake {
                    line,
                    number: u8::from(reason),
                });
            }
        }
    }
    Ok(Start {
        edition: 1,
        lines: 0,
        rest: text,
    })
}

// The record of a line, laid behind a load of an edition; or what is wrong with the line, and nothing is laid.
fn add(page: &mut Page<'_>, edition: u8, line: &[u8]) -> Result<(), Reason>
    ensures { Adds edition page.old (line_says edition line.now) result page.new }
{
    if let Some(call) = parse::parse_line(edition, line)? {
        load::check_growth(edition, page.at, call, numbers::MOST_BYTES)?;
        load::put_record(page, edition, call);
    }
    Ok(())
}

// The load that a text makes, laid over a buffer as far as that goes.
fn gather(text: &[u8], out: &mut [u8]) -> Result<usize, Mistake>
    ensures { Gathers text.now out.old result out.new }
{
    let start = heading(text)?;
    if let Err(refusal) = load::check_open(&[start.edition]) {
        return Err(Mistake {
            line: start.lines,
            number: u8::from(refusal),
        });
    }
    let mut page = Page::new(out);
    page.byte(start.edition);
    let mut rest = start.rest;
    let mut line = start.lines;
    while let Some((said, behind)) = words::next_line(rest) {
        line += 1;
        if let Err(reason) = add(&mut page, start.edition, said) {
            return Err(Mistake {
                line,
                number: u8::from(reason),
            });
        }
        rest = behind;
    }
    Ok(page.at)
}

// Room for any load.
fn room() -> [u8; 65536]
    ensures { 65536 ≡ length result }
{
    [0; 65536]
}

// The load that a text makes, at the start of a lent buffer. It reads as the calls that the lines say: MadeReads in specs/Making.antt.
// Cost: one pass over the text into a buffer of its own, of 65,536 bytes, and a copy of the load.
pub fn make(text: &[u8], out: &mut [u8]) -> Result<usize, Mistake>
    ensures answer { result ≡ made_of text.now out.old }
    ensures buffer { out.new ≡ made_out text.now out.old }
    ensures values { made_values result ≡ make_values text.now out.old }
{
    let mut load = room();
    let size = gather(text, &mut load)?;
    if out.len() < size {
        return Err(Mistake {
            line: 0,
            number: u8::from(Refusal::NoSpace),
        });
    }
    numerals::put_bytes(out, 0, &load[..size]);
    Ok(size)
}
