// Calls and refusals as lines. The private functions lay them on a page, and so count them on one byte; those for a lent buffer answer 15
// and leave it as it is where the whole does not go in.
ghost use Rattle.std.specs.Prelude.{◌≡◌, ◌||◌, ◌++◌, ◌≤◌, leb, length};
ghost use Rattle.numerals.specs.Laid.{lent_out};
ghost use Rattle.numerals.specs.Pages.{Lays};
ghost use Rattle.numerals.specs.Texts.{bytes};
ghost use Rattle.format.specs.Format.{field_number, fields_of};
ghost use Rattle.load.specs.Answers.{written_values};
ghost use Rattle.load.specs.Reading.{edition_of, walk, open_number};
ghost use Rattle.load_text.specs.Lines.{glyph_of, hex_up_to, word_of, fields_text, fields_most, line_of, Brief, stop_line, rest_of, header_of, text_of, printed, print_values};

use crate::texts::put_name;
use format::{Call, Field};
use numbers::Refusal;
use numerals::Page;

// A digit of base 16, upper case.
#[tactic(auto, unfolding(crate::specs::Lines::glyph_of))]
fn glyph(d: u64) -> u8
    ensures { result ≡ glyph_of d }
{
    let k = (d % 16) as u8;
    if k < 10 { b'0' + k } else { b'A' - 10 + k }
}

// A number in hex without zeros in front, at most k + 1 digits.
fn put_digits(page: &mut Page<'_>, value: u64, k: usize)
    ensures { Lays page.old (hex_up_to k value) page.new }
{
    if 0 < k && 16 <= value {
        put_digits(page, value / 16, k - 1);
    }
    page.byte(glyph(value));
}

// A value as a word after a space: a set of groups in hex, any other in decimal.
fn put_word(page: &mut Page<'_>, field: Field, value: u64)
    ensures { Lays page.old (bytes " " ++ word_of (field_number field) value) page.new }
{
    page.byte(b' ');
    match field {
        Field::Groups => put_digits(page, value, 15),
        _ => page.decimal(value),
    }
}

// The fields that a call has in an edition, and a line feed.
fn put_fields(page: &mut Page<'_>, edition: u8, call: Call)
    ensures laid { Lays page.old (fields_text (fields_of edition call.kind) call) page.new }
    ensures brief { length (fields_text (fields_of edition call.kind) call) ≤ fields_most (fields_of edition call.kind) }
{
    for field in format::fields_of(edition, call.kind) {
        put_word(page, *field, call.value_of(*field));
    }
    page.byte(b'\n');
}

// A call as a line of a show of an edition.
fn put_call(page: &mut Page<'_>, edition: u8, call: Call)
    ensures laid { Lays page.old (line_of edition call) page.new }
    ensures brief { Brief edition call }
{
    put_name(page, edition, call.kind);
    put_fields(page, edition, call);
}

// The same at the start of a lent buffer. Cost: the line is counted first.
pub fn put_line(edition: u8, call: Call, out: &mut [u8]) -> Result<usize, Refusal>
    ensures answer { result ≡ printed (line_of edition call) out.old }
    ensures buffer { out.new ≡ lent_out (line_of edition call) out.old }
    ensures values { written_values result ≡ print_values (line_of edition call) out.old }
{
    let mut scrap = [0u8; 1];
    let mut count = Page::new(&mut scrap);
    put_call(&mut count, edition, call);
    if out.len() < count.at {
        return Err(Refusal::NoSpace);
    }
    let mut page = Page::new(out);
    put_call(&mut page, edition, call);
    Ok(page.at)
}

fn put_stop(page: &mut Page<'_>, number: u8, k: u64)
    ensures { Lays page.old (stop_line number k) page.new }
{
    page.bytes(b"# stop ");
    page.pair(number as u64, k, b'\n');
}

// The records that a reader gives of a load that opens, to its end or to the first that is refused.
fn put_records(page: &mut Page<'_>, load: &[u8])
    requires { open_number load.now ≡ 0 }
    ensures laid { Lays page.old (rest_of (edition_of load.now) 1 (walk load.now 1)) page.new }
    ensures brief { length (rest_of (edition_of load.now) 1 (walk load.now 1)) ≤ 196654 }
{
    let edition = load[0];
    let mut at = 1;
    let mut k: u64 = 1;
    loop {
        match reader::item_at(load, at) {
            Ok(Some(item)) => {
                put_call(page, edition, item.call);
                at = item.next;
                k += 1;
            }
            Ok(None) => return,
            Err(refusal) => {
                put_stop(page, u8::from(refusal), k);
                return;
            }
        }
    }
}

// The first line of a show of an edition.
fn put_header(page: &mut Page<'_>, edition: u8)
    ensures { Lays page.old (header_of edition) page.new }
{
    if edition == 1 {
        page.bytes(b"# edition 1\n");
    } else {
        page.bytes(b"edition ");
        page.column(edition as u64, b'\n');
    }
}

// A load as text. No text has more than 196,666 bytes: a line has at most three for each byte of its record.
fn put_text(page: &mut Page<'_>, load: &[u8])
    ensures laid { Lays page.old (text_of load.now) page.new }
    ensures brief { length (text_of load.now) ≤ 196666 }
{
    match load::check_open(load) {
        Ok(()) => {
            put_header(page, load[0]);
            put_records(page, load);
        }
        Err(refusal) => put_stop(page, u8::from(refusal), 0),
    }
}

// Whether so much room is room for any text, or for that of a load.
fn goes_into(load: &[u8], room: usize) -> bool
    ensures { result ≡ (leb 196666 room || leb (length (text_of load.now)) room) }
{
    if 196666 <= room {
        return true;
    }
    let mut scrap = [0u8; 1];
    let mut count = Page::new(&mut scrap);
    put_text(&mut count, load);
    count.at <= room
}

// A load as text at the start of a lent buffer. Cost: one pass over the load; two where the buffer has under 196,666 bytes.
pub fn show(load: &[u8], out: &mut [u8]) -> Result<usize, Refusal>
    ensures answer { result ≡ printed (text_of load.now) out.old }
    ensures buffer { out.new ≡ lent_out (text_of load.now) out.old }
    ensures values { written_values result ≡ print_values (text_of load.now) out.old }
{
    if !goes_into(load, out.len()) {
        return Err(Refusal::NoSpace);
    }
    let mut page = Page::new(out);
    put_text(&mut page, load);
    Ok(page.at)
}
