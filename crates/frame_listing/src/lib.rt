// The listing of a dance show: its calls run on a frame table, and each prints what it answers. `listing` has it for any text and buffer,
// and tells the first line that is wrong; `belgwyth_beat` is the same for C. `first_part` and `next_part` have it in parts, for a buffer
// shorter than the listing. What is printed is defined in specs/Text.antt, parts in specs/InParts.antt.
#![tactic(auto)]

ghost use Rattle.std.specs.Prelude.{◌≡◌, ◌≤◌, ◌<◌, leb, length};
ghost use Rattle.numerals.specs.Laid.{Put};
ghost use Rattle.numerals.specs.Pages.{Lays};
ghost use Rattle.dance_text.specs.Shows.{said_in, calls_in};
ghost use Rattle.frame_listing.specs.Lines.{line_of, on_line, on_lines};
ghost use Rattle.frame_table.specs.Answers.{answer_of};
ghost use Rattle.frame_listing.specs.Text.{step_of, stops, entry_of, text_of, room_for, listed_of, listed_values, listing_values, listed_out, beat_of};
ghost use Rattle.frame_listing.specs.InParts.{part_of, part_out, part_behind, start, first_part, next_part, Ready, Reached};

use dance_text::{Call, Mistake};
use frame_table::{Accepted, Table};
use numbers::Refusal;
use numerals::Page;

// The number where a listing does not go in.
const NO_SPACE: u8 = Refusal::NoSpace as u8;

// ── lines ──

fn put_line(page: &mut Page<'_>, k: u64, number: u8, ticket: u16, row: u16, contention: u16)
    ensures { Lays page.old (line_of k number ticket row contention) page.new }
{
    page.pair(k, number as u64, b' ');
    page.pair(ticket as u64, row as u64, b' ');
    page.column(contention as u64, b'\n');
}

fn put_grant(page: &mut Page<'_>, ticket: u16)
    ensures { Lays page.old (on_line ticket) page.new }
{
    page.bytes(b"on ");
    page.column(ticket as u64, b'\n');
}

fn put_grants(page: &mut Page<'_>, grants: &[u16])
    ensures { Lays page.old (on_lines grants.now) page.new }
{
    for ticket in grants {
        put_grant(page, *ticket);
    }
}

// The lines of call k.
fn put_entry(page: &mut Page<'_>, k: u64, answer: &Result<Accepted, Refusal>)
    ensures { Lays page.old (entry_of k (answer_of answer.now)) page.new }
{
    match answer {
        Ok(a) => {
            put_line(page, k, 0, a.ticket, a.row, a.contention);
            put_grants(page, a.grants.as_slice());
        }
        Err(refusal) => put_line(page, k, u8::from(*refusal), 0, 0, 0),
    }
}

// ── calls ──

// A call made of a table.
fn make(table: &mut Table, call: Call) -> Result<Accepted, Refusal>
    ensures table { table.new ≡ (step_of table.old call).model }
    ensures answer { answer_of result ≡ (step_of table.old call).answer }
{
    match call {
        Call::Rig(g) => {
            let (new, answer) = Table::new(g);
            *table = new;
            answer
        }
        Call::Claim(g) => table.claim(g),
        Call::Release(ticket) => table.release(ticket),
    }
}

// Whether a call with its answer ends the listing: a rig that is refused.
fn stops_at(call: Call, answer: &Result<Accepted, Refusal>) -> bool
    ensures { result ≡ stops call (answer_of answer.now).number }
{
    matches!(call, Call::Rig(_)) && answer.is_err()
}

// A part of a listing: its count of bytes; and where the next begins: the place in the text, the number of the next call, and the table. Where
// the place is not before the text's end the listing has ended.
#[derive(Clone, Copy)]
pub struct Part {
    pub length: usize,
    pub at: usize,
    pub call: u64,
    pub table: Table,
}

// Behind this the first part begins.
fn start() -> Part
    ensures { (result ≡ start) × Ready result }
{
    let (table, _) = Table::new(0);
    Part {
        length: 0,
        at: 0,
        call: 1,
        table,
    }
}

// The bytes of `head`, and the lines of the calls behind part p until the text ends or more bytes are laid than a limit. A rig that is refused
// ends the text.
fn put_calls(text: &[u8], out: &mut [u8], head: &[u8], p: Part, limit: usize) -> Part
    requires { Ready p × (length head.now ≤ 33) }
    ensures { Reached text.now out.old head.now p limit result out.new }
{
    let mut page = Page::new(out);
    page.bytes(head);
    let mut table = p.table;
    let mut at = p.at;
    let mut k = p.call;
    while at < text.len() && page.at <= limit {
        let end = words::place(text, b'\n', at);
        let said = dance_text::parse_line(&text[at..end]).unwrap_or(None);
        at = end + 1;
        if let Some(call) = said {
            let answer = make(&mut table, call);
            if stops_at(call, &answer) {
                page.bytes(b"stop 1 1\n");
                at = text.len();
            } else {
                put_entry(&mut page, k, &answer);
                k += 1;
            }
        }
    }
    Part {
        length: page.at,
        at,
        call: k,
        table,
    }
}

// The whole listing laid over a buffer, as far as that goes, and its length.
fn run(text: &[u8], out: &mut [u8]) -> usize
    ensures { Put out.old 0 (text_of text.now) result out.new }
{
    put_calls(
        text,
        out,
        b"rec answer ticket row contention\n",
        start(),
        usize::MAX,
    )
    .length
}

// Room that the listing of every show of so many calls goes into: the header and a stop line, and for each call a line and an `on` line.
fn room_for(calls: u64) -> usize
    ensures { result ≡ room_for calls }
{
    if 100_000_000_000_000_000 < calls {
        return usize::MAX;
    }
    42 + 129 * calls as usize
}

// Whether the listing goes into so much room. Where the count of calls does not tell, it is counted, on a buffer that takes one byte; the
// count stops at the greatest usize, which is more than any room.
fn goes_into(text: &[u8], calls: u64, room: usize) -> bool
    requires { (calls ≡ length (calls_in (said_in text.now))) × (room < 18446744073709551615) }
    ensures { result ≡ leb (length (text_of text.now)) room }
{
    if room_for(calls) <= room {
        return true;
    }
    let mut scrap = [0u8; 1];
    run(text, &mut scrap) <= room
}

// The listing of a dance show at the start of a lent buffer: its length; or the first line that is wrong, or 15 at line 0 where the listing
// does not go in. Cost: two passes over the text, and a call of the table for each call of the show; two calls where the buffer has under
// 42 + 129 * (count of calls) bytes.
#[tactic(auto, unfolding(crate::specs::Text::listed_of, crate::specs::Text::listed_out, crate::specs::Text::listing_values))]
pub fn listing(text: &[u8], out: &mut [u8]) -> Result<usize, Mistake>
    ensures answer { result ≡ listed_of text.now out.old }
    ensures buffer { out.new ≡ listed_out text.now out.old }
    ensures values { listed_values result ≡ listing_values text.now out.old }
{
    let calls = dance_text::survey(text)?;
    if goes_into(text, calls, out.len()) {
        return Ok(run(text, out));
    }
    Err(Mistake {
        line: 0,
        number: NO_SPACE,
    })
}

// The same for C: the count of bytes written; 15 where the listing does not go in; 0 where a line is wrong.
#[unsafe(no_mangle)]
pub extern "C" fn belgwyth_beat(text: &[u8], out: &mut [u8]) -> usize
    ensures answer { result ≡ beat_of (listing_values text.now out.old) }
    ensures buffer { out.new ≡ listed_out text.now out.old }
{
    match listing(text, out) {
        Ok(n) => n,
        Err(mistake) if mistake.line == 0 => usize::from(mistake.number),
        Err(_) => 0,
    }
}

// ── in parts ──

// The part behind p, with `head` in front. The limit leaves room for the lines of one call, which have 1,641 bytes at most.
fn part_behind(text: &[u8], out: &mut [u8], head: &[u8], p: Part) -> Part
    requires { Ready p × (length head.now ≤ 33) }
    ensures answer { result ≡ part_of (part_behind text.now head.now p (length out.old)) }
    ensures buffer { out.new ≡ part_out (part_behind text.now head.now p (length out.old)) out.old }
    ensures ready { Ready result × (result.length ≤ length out.old) }
{
    if out.len() < 1674 {
        return Part { length: 0, ..p };
    }
    let limit = out.len() - 1641;
    put_calls(text, out, head, p, limit)
}

// The first part of the listing of a dance show, with the header, at the start of a lent buffer. A buffer under 1,674 bytes gets nothing, and
// the part's length is 0. Lines that are wrong are passed over: `dance_text::survey` tells them. Cost: one pass over the text of the part, and a
// call of the table for each of its calls.
pub fn first_part(text: &[u8], out: &mut [u8]) -> Part
    ensures answer { result ≡ part_of (first_part text.now (length out.old)) }
    ensures buffer { out.new ≡ part_out (first_part text.now (length out.old)) out.old }
    ensures ready { Ready result × (result.length ≤ length out.old) }
{
    part_behind(text, out, b"rec answer ticket row contention\n", start())
}

// The part behind p, which is a part of the same text that `first_part` or `next_part` answered. A buffer under 1,674 bytes gets nothing, and
// the part ends where p does. Cost: as that of the first part.
pub fn next_part(text: &[u8], p: Part, out: &mut [u8]) -> Part
    requires { Ready p }
    ensures answer { result ≡ part_of (next_part text.now p (length out.old)) }
    ensures buffer { out.new ≡ part_out (next_part text.now p (length out.old)) out.old }
    ensures ready { Ready result × (result.length ≤ length out.old) }
{
    part_behind(text, out, b"", p)
}
