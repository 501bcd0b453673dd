// Questions about the table that a load leaves: `answer` has the text for a load and a line that asks. No public function asks anything
// of its slices. What a line asks is defined in specs/Questions.antt, what is answered in specs/Answers.antt.
#![tactic(auto)]

ghost use Rattle.std.specs.Prelude.{◌≡◌, length};
ghost use Rattle.numerals.specs.Laid.{laid};
ghost use Rattle.question.specs.Answers.{answer_values, asked_of, asked_out, asked_values, text_from};
ghost use Rattle.replay.specs.Replay.{replay_told};

mod questions;
mod sentences;

use numerals::Page;
pub use questions::{Question, question_of};
use replay::Replayed;
use sentences::{put_text, settle};

// Why nothing is answered: the line asks no question; or the text does not go in (15).
#[derive(Clone, Copy, Debug, PartialEq, Eq)]
pub enum AskError {
    NoSuch,
    NoRoom,
}

// The text of an answer laid over a buffer, as far as that goes, and its length.
fn run(left: &Replayed, question: Question, out: &mut [u8]) -> usize
    ensures { (result ≡ length (text_from (replay_told left.now) question)) × (out.new ≡ laid out.old 0 (text_from (replay_told left.now) question)) }
{
    settle(&left.table);
    let mut page = Page::new(out);
    put_text(&mut page, left, question);
    page.at
}

// The answer to a line about the table that a load leaves, at the start of a lent buffer: its length, at most 5,175 bytes.
// Cost: one call of the table for each record. The answer is counted first, so what it takes to tell is taken twice: at most a chain and a
// lookup for each of its tickets.
pub fn answer(load: &[u8], line: &[u8], out: &mut [u8]) -> Result<usize, AskError>
    ensures answer { result ≡ asked_of load.now line.now out.old }
    ensures buffer { out.new ≡ asked_out load.now line.now out.old }
    ensures values { asked_values result ≡ answer_values load.now line.now out.old }
{
    let Some(question) = question_of(line) else {
        return Err(AskError::NoSuch);
    };
    let left = replay::replay(load);
    let mut scrap = [0u8; 1];
    if out.len() < run(&left, question, &mut scrap) {
        return Err(AskError::NoRoom);
    }
    Ok(run(&left, question, out))
}
