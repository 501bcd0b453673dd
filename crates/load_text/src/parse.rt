// A line of text to a call, and the first line of a show to its edition. What a line says is defined in specs/Parsing.antt.
ghost use Rattle.std.specs.Prelude.{◌≡◌, Ok};
ghost use Rattle.format.specs.Format.{field_number, fields_of};
ghost use Rattle.format.specs.Calls.{bare};
ghost use Rattle.words.specs.Parts.{words_in};
ghost use Rattle.words.specs.declared.reasons.Reason.TheVariants.{TooLarge};
ghost use Rattle.words.specs.Words.{number_in};
ghost use Rattle.load_text.specs.Answers.{parsed_values};
ghost use Rattle.load_text.specs.Parsing.{edition_in, field_in, filled_in, head_says, line_says, parse_values, with_field};

use crate::texts::{is_edition, kind_named};
use format::{Call, Field};
use numbers::Refusal;
use words::sets::groups_of;
use words::{Reason, next_word};

// ---- fields
// The number in decimal that a word says.
fn decimal(word: &[u8], most: u64, none: Reason) -> Result<u64, Reason>
    ensures { result ≡ number_in 10 most none TooLarge word.now }
{
    words::number(word, 10, most, none, Reason::TooLarge)
}

// What a word says as a field.
#[tactic(auto, unfolding(crate::specs::Parsing::field_in, crate::specs::Parsing::no_reason, crate::specs::Parsing::no_reasons, format::specs::Format::field_width, format::specs::Format::field_widths))]
fn field_in(field: Field, word: &[u8]) -> Result<u64, Reason>
    ensures { result ≡ field_in (field_number field) word.now }
{
    match field {
        Field::Clock => decimal(word, 18446744073709551615, Reason::NoClock),
        Field::Groups => groups_of(word),
        Field::Length => decimal(word, 4294967295, Reason::NoLength),
        Field::Ticket => decimal(word, 65535, Reason::NoTicket),
        Field::Pool => decimal(word, 65535, Reason::NoPool),
        Field::Units => decimal(word, 65535, Reason::NoUnits),
        Field::Client => decimal(word, 255, Reason::NoClient),
        Field::Reserved => decimal(word, 255, Reason::NoReserved),
        Field::Limit => decimal(word, 255, Reason::NoLimit),
        Field::Grace => decimal(word, 4294967295, Reason::NoGrace),
    }
}

// A call with what a word says in a field; the first word that is wrong decides.
fn with_word(said: Result<Call, Reason>, field: Field, word: &[u8]) -> Result<Call, Reason>
    ensures { result ≡ with_field (field_number field) (field_in (field_number field) word.now) said }
{
    let mut call = said?;
    call.set(field, field_in(field, word)?);
    Ok(call)
}

// The call of a kind by the words behind its name. How many there are is judged before what they say.
fn fill(edition: u8, kind: u8, words: &[u8]) -> Result<Call, Reason>
    ensures { result ≡ filled_in (fields_of edition kind) (words_in words.now) (Ok (bare kind)) }
{
    let mut said = Ok(Call::bare(kind));
    let mut rest = words;
    for field in format::fields_of(edition, kind) {
        let Some((word, behind)) = next_word(rest) else {
            return Err(Reason::Missing);
        };
        said = with_word(said, *field, word);
        rest = behind;
    }
    if next_word(rest).is_some() {
        return Err(Reason::TooMany);
    }
    said
}

// ---- lines
// A line of a show of an edition, without its line feed: its first word names the call. None of a line that says nothing.
pub fn parse_line(edition: u8, line: &[u8]) -> Result<Option<Call>, Reason>
    ensures { (result ≡ line_says edition line.now) × (parsed_values result ≡ parse_values edition line.now) }
{
    let Some((word, behind)) = next_word(words::said(line)) else {
        return Ok(None);
    };
    let Some(kind) = kind_named(edition, word) else {
        return Err(Reason::Unknown);
    };
    Ok(Some(fill(edition, kind, behind)?))
}

// ---- the edition
// What a line says as the first of a show: nothing, its edition, or something else.
#[derive(Clone, Copy, Debug, PartialEq, Eq)]
pub(crate) enum Head {
    Silent,
    Edition(u8),
    Other,
}

// The edition by the words behind `edition`.
fn edition_in(words: &[u8]) -> Result<u8, Reason>
    ensures { result ≡ edition_in (words_in words.now) }
{
    let Some((word, behind)) = next_word(words) else {
        return Err(Reason::Missing);
    };
    if next_word(behind).is_some() {
        return Err(Reason::TooMany);
    }
    let none = Reason::Refused(Refusal::Edition);
    let edition = words::number(word, 10, 255, none, none)?;
    Ok(edition as u8)
}

// The same line as the first of a show.
pub(crate) fn head_line(line: &[u8]) -> Result<Head, Reason>
    ensures { result ≡ head_says line.now }
{
    let Some((word, behind)) = next_word(words::said(line)) else {
        return Ok(Head::Silent);
    };
    if is_edition(word) {
        return Ok(Head::Edition(edition_in(behind)?));
    }
    Ok(Head::Other)
}
