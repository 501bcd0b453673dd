// Dance shows as text, a line for each call of a frame table: `parse_line` has what a line says, `survey` the first line of a text that is
// wrong, and `report` tells it. Lines, words, sets of groups and reasons are those of the planner's text. No function asks anything of its
// slices. What a line says is defined in specs/Lines.antt, what is wrong with a text in specs/Shows.antt, the forms of lines in
// specs/Forms.antt.
#![tactic(auto)]

ghost use Rattle.std.specs.Prelude.{◌≡◌, ◌≤◌, length};
ghost use Rattle.numbers.specs.Numbers.{most_tickets};
ghost use Rattle.numbers.specs.Refusals.{number_in};
ghost use Rattle.words.specs.Parts.{words_in};
ghost use Rattle.words.specs.Reports.{reported};
ghost use Rattle.dance_text.specs.Forms.{form_of, named_form};
ghost use Rattle.dance_text.specs.Lines.{line_says, line_values, call_named, parse_values, word_says, words_say};
ghost use Rattle.dance_text.specs.Shows.{Behind, misplaced, survey_of};

use numbers::Refusal;
use words::sets::groups_of;
use words::{Reason, Reported};

// A call of a dance show: a new rig, a claim of groups, a release of a ticket.
#[derive(Clone, Copy, Debug, PartialEq, Eq)]
pub enum Call {
    Rig(u64),
    Claim(u64),
    Release(u16),
}

// What a word names.
#[derive(Clone, Copy, Debug, PartialEq, Eq)]
enum Name {
    NewRig,
    NewClaim,
    EndClaim,
}

// ---- a line
// The call that a word names.
fn call_named(word: &[u8]) -> Option<Name>
    ensures { result ≡ call_named word.now }
{
    if check::same(word, b"rig") {
        return Some(Name::NewRig);
    }
    if check::same(word, b"claim") {
        return Some(Name::NewClaim);
    }
    if check::same(word, b"release") {
        return Some(Name::EndClaim);
    }
    None
}

// What the word after a call's name says.
fn word_says(name: Name, word: &[u8]) -> Result<Call, Reason>
    ensures { result ≡ word_says name word.now }
{
    match name {
        Name::NewRig => Ok(Call::Rig(groups_of(word)?)),
        Name::NewClaim => Ok(Call::Claim(groups_of(word)?)),
        Name::EndClaim => {
            let ticket = words::number(word, 10, 65535, Reason::NoTicket, Reason::TooLarge)?;
            Ok(Call::Release(ticket as u16))
        }
    }
}

// What the words after a call's name say. How many there are is judged before what they say.
fn words_say(name: Name, behind: &[u8]) -> Result<Call, Reason>
    ensures { result ≡ words_say name (words_in behind.now) }
{
    let Some((word, rest)) = words::next_word(behind) else {
        return Err(Reason::Missing);
    };
    if words::next_word(rest).is_some() {
        return Err(Reason::TooMany);
    }
    word_says(name, word)
}

// A line of a dance show, without its line feed: its first word names the call. None of a line that says nothing.
pub fn parse_line(line: &[u8]) -> Result<Option<Call>, Reason>
    ensures { (result ≡ line_says line.now) × (line_values result ≡ parse_values line.now) }
{
    if line.is_empty() {
        return Ok(None);
    }
    let Some((word, behind)) = words::next_word(words::said(line)) else {
        return Ok(None);
    };
    let Some(name) = call_named(word) else {
        return Err(Reason::Unknown);
    };
    Ok(Some(words_say(name, behind)?))
}

// ---- a text
// The first call is the rig and no other is; `begun` where a call stands before this one.
fn in_place(begun: bool, call: Call) -> Result<(), Refusal>
    ensures { number_in result ≡ misplaced begun call }
{
    if matches!(call, Call::Rig(_)) == begun {
        return Err(Refusal::Misfit);
    }
    Ok(())
}

// What a line says behind others; `begun` where one of them says a call.
fn line_behind(begun: bool, line: &[u8]) -> Result<Option<Call>, Reason>
    ensures { Behind begun (line_says line.now) result }
{
    let said = parse_line(line)?;
    if let Some(call) = said {
        in_place(begun, call)?;
    }
    Ok(said)
}

// The first line of a text that is wrong, counted from 1, and the number of what is.
#[derive(Clone, Copy, Debug, PartialEq, Eq)]
pub struct Mistake {
    pub line: u64,
    pub number: u8,
}

// How many calls the lines of a text say. Cost: one pass over the text, which parses each line.
pub fn survey(text: &[u8]) -> Result<u64, Mistake>
    ensures { result ≡ survey_of text.now }
{
    let mut rest = text;
    let mut line: u64 = 0;
    let mut calls: u64 = 0;
    while let Some((said, behind)) = words::next_line(rest) {
        line += 1;
        match line_behind(0 < calls, said) {
            Ok(Some(_)) => {
                calls += 1;
            }
            Ok(None) => {}
            Err(reason) => {
                return Err(Mistake {
                    line,
                    number: u8::from(reason),
                });
            }
        }
        rest = behind;
    }
    Ok(calls)
}

// ---- reports
// What is wrong with a line, with the form of a call.
fn with_form(line: u64, reason: u8, name: Option<Name>) -> Reported
    ensures { (result ≡ reported line reason (named_form name)) × (result.length ≤ length result.text) }
{
    let form: &[u8] = match name {
        Some(Name::NewRig) => b"rig GROUPS",
        Some(Name::NewClaim) => b"claim GROUPS",
        Some(Name::EndClaim) => b"release TICKET",
        None => b"",
    };
    words::report(line, reason, form)
}

// What is wrong with a line of a text, by the line's number and its reason as `survey` has them. Cost: where the reason wants a form, one
// pass over the lines before it and up to three over the line.
pub fn report(text: &[u8], line: u64, reason: u8) -> Reported
    ensures { (result ≡ reported line reason (form_of text.now line reason)) × (result.length ≤ length result.text) }
{
    if !words::wants_form(reason) {
        return words::report(line, reason, b"");
    }
    let name = call_named(words::first_said(text, line));
    with_form(line, reason, name)
}
