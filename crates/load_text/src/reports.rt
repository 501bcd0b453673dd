// What is told of a line of a show that is wrong, with the form of the line where it has too few or too many words. proofs/Forms holds the
// code's words against specs/Forms.antt.
ghost use Rattle.std.specs.Prelude.{◌≡◌, ◌≤◌, length};
ghost use Rattle.numerals.specs.Pages.{Lays};
ghost use Rattle.format.specs.Format.{field_number, fields_of};
ghost use Rattle.words.specs.Reports.{reported};
ghost use Rattle.load_text.specs.Forms.{field_word, fields_form, form_of, kind_form, word_form};

use crate::heading;
use crate::texts::{is_edition, kind_named, put_name};
use format::Field;
use numerals::Page;
use words::Reported;

// The word of a field.
#[tactic(auto, unfolding(crate::specs::Forms::field_word, crate::specs::Forms::field_words))]
fn field_word(field: Field) -> &'static [u8]
    ensures { result.now ≡ field_word (field_number field) }
{
    match field {
        Field::Clock => b"CLOCK",
        Field::Groups => b"GROUPS",
        Field::Length => b"LENGTH",
        Field::Ticket => b"TICKET",
        Field::Pool => b"POOL",
        Field::Units => b"UNITS",
        Field::Client => b"DESK",
        Field::Reserved => b"GUARANTEE",
        Field::Limit => b"LIMIT",
        Field::Grace => b"TICKS",
    }
}

// The words of the fields that a kind has in an edition, each after a space.
fn put_field_words(page: &mut Page<'_>, edition: u8, kind: u8)
    ensures { Lays page.old (fields_form (fields_of edition kind)) page.new }
{
    for field in format::fields_of(edition, kind) {
        page.byte(b' ');
        page.bytes(field_word(*field));
    }
}

fn put_kind(page: &mut Page<'_>, edition: u8, kind: u8)
    ensures { Lays page.old (kind_form edition kind) page.new }
{
    put_name(page, edition, kind);
    put_field_words(page, edition, kind);
}

// The form of a line by its first word.
fn put_form(page: &mut Page<'_>, edition: u8, word: &[u8])
    ensures { Lays page.old (word_form edition word.now) page.new }
{
    if is_edition(word) {
        page.bytes(b"edition NUMBER");
    } else if let Some(kind) = kind_named(edition, word) {
        put_kind(page, edition, kind);
    }
}

// What is wrong with a line, with the form of a line that begins with a word.
fn with_form(line: u64, reason: u8, edition: u8, word: &[u8]) -> Reported
    ensures { (result ≡ reported line reason (word_form edition word.now)) × (result.length ≤ length result.text) }
{
    let mut form = [0u8; 64];
    let mut page = Page::new(&mut form);
    put_form(&mut page, edition, word);
    let size = page.at;
    words::report(line, reason, &form[..size])
}

// What is wrong with a line of a text, by the line's number and its reason as `make` has them. Cost: where the reason wants a form, one pass
// over the text's heading, one over the lines before the wrong one and up to three over that.
pub fn report(text: &[u8], line: u64, reason: u8) -> Reported
    ensures { (result ≡ reported line reason (form_of text.now line reason)) × (result.length ≤ length result.text) }
{
    if !words::wants_form(reason) {
        return words::report(line, reason, b"");
    }
    let edition = match heading(text) {
        Ok(start) => start.edition,
        Err(_) => 1,
    };
    with_form(line, reason, edition, words::first_said(text, line))
}
