// Loads: opening a load, reading the record at a position, testing a whole load, and appending a record.
// All calls take any bytes and any values. A load is a slice of the caller's; nothing is copied to read it.
#![tactic(auto)]

ghost use Rattle.std.specs.Prelude.{◌≡◌};
ghost use Rattle.numbers.specs.Refusals.{number_in};
ghost use Rattle.numerals.specs.Pages.{Lays};
ghost use Rattle.format.specs.Format.{widths};
ghost use Rattle.format.specs.Calls.{call_of, values_of};
ghost use Rattle.format.specs.Records.{record_of};
ghost use Rattle.load.specs.Answers.{item_values, written_values};
ghost use Rattle.load.specs.Bytes.{call_bytes, field_bytes, field_values};
ghost use Rattle.load.specs.Reading.{is_in_place, open_number, misfit, item_at, record_values, load_number};
ghost use Rattle.load.specs.Writing.{grow_number, append_number, append_answer, append_values, append_out};

use format::{Call, kinds};
use numbers::Refusal;
use numerals::Page;

// A record: its call, and the position after it.
#[derive(Clone, Copy, Debug, PartialEq, Eq)]
pub struct Item {
    pub call: Call,
    pub next: usize,
}

// ---- reading
// A load opens, or it is turned down by 14, 12 where it is empty, or 11. Looks at the length and the first byte alone.
#[tactic(auto, unfolding(crate::specs::Reading::open_number))]
pub fn check_open(load: &[u8]) -> Result<(), Refusal>
    ensures { number_in result ≡ open_number load.now }
{
    if numbers::MOST_BYTES < load.len() {
        return Err(Refusal::Overlong);
    }
    match load.first() {
        None => Err(Refusal::Short),
        Some(edition) if format::known(*edition) => Ok(()),
        Some(_) => Err(Refusal::Edition),
    }
}

// A rig is first, and nothing else is.
fn placed(kind: u8, at: usize) -> bool
    ensures { result ≡ is_in_place kind at }
{
    (kind == kinds::RIG) == (at == 1)
}

// A record of n bytes at a position is not as its kind, which has no members, and its place ask: 13.
#[tactic(auto, using(format::proofs::Records::with_none), unfolding(crate::specs::Reading::misfit))]
fn misfits(edition: u8, at: usize, n: usize, kind: u8) -> bool
    ensures { result ≡ misfit edition at n kind 0 }
{
    !format::has_kind(edition, kind) || n != format::length_of(edition, kind) || !placed(kind, at)
}

// The call that the fields of a record, at the start of some bytes, say. The bytes after them are not looked at. Cost: a few instructions for each field.
fn call_of(edition: u8, kind: u8, bytes: &[u8]) -> Call
    ensures { result ≡ call_of edition kind (field_values (widths edition kind) bytes.now) }
{
    let mut call = Call::bare(kind);
    let mut at = 0;
    for field in format::fields_of(edition, kind) {
        let width = field.width();
        call.set(*field, numerals::number(bytes, at, width));
        at += width;
    }
    call
}

// What stands at a position of a load: a record's call, the end, or 12 or 13. The first record stands at 1. Reads that record alone,
// whatever the load's length.
pub fn record_at(load: &[u8], at: usize) -> Result<Option<Item>, Refusal>
    ensures { (result ≡ item_at load.now at) × (item_values at result ≡ record_values load.now at) }
{
    let size = load.len();
    if size <= at {
        return Ok(None);
    }
    let left = size - at;
    if left < 2 {
        return Err(Refusal::Short);
    }
    let n = usize::from(numerals::be16(load, at));
    if left - 2 < n {
        return Err(Refusal::Short);
    }
    if n == 0 {
        return Err(Refusal::Misfit);
    }
    let edition = load[0];
    let kind = load[at + 2];
    if misfits(edition, at, n, kind) {
        return Err(Refusal::Misfit);
    }
    let call = call_of(edition, kind, &load[at + 3..]);
    Ok(Some(Item {
        call,
        next: at + (2 + n),
    }))
}

// The test of a load: its opening, then each record once, up to the end or the first refusal.
pub fn check_load(load: &[u8]) -> Result<(), Refusal>
    ensures { number_in result ≡ load_number load.now }
{
    check_open(load)?;
    let mut at = 1;
    while let Some(item) = record_at(load, at)? {
        at = item.next;
    }
    Ok(())
}

// ---- writing
// A call can be appended to a load of an edition and a size that reads to its end, in so much room; or it is turned down by 13, 14 or 15.
pub fn check_growth(edition: u8, size: usize, call: Call, room: usize) -> Result<(), Refusal>
    ensures { number_in result ≡ grow_number edition size (record_of call) room }
{
    if !placed(call.kind, size) || !format::carries(edition, call) {
        return Err(Refusal::Misfit);
    }
    let whole = size.saturating_add(2 + format::length_of(edition, call.kind));
    if numbers::MOST_BYTES < whole {
        return Err(Refusal::Overlong);
    }
    if room < whole {
        return Err(Refusal::NoSpace);
    }
    Ok(())
}

// The same for any load, which is tested whole: its own refusal comes first.
fn check_append(load: &[u8], call: Call, room: usize) -> Result<(), Refusal>
    ensures { number_in result ≡ append_number load.now (record_of call) room }
{
    check_load(load)?;
    check_growth(load[0], load.len(), call, room)
}

// The fields of a call, one after the other.
fn put_fields(page: &mut Page<'_>, edition: u8, call: Call)
    ensures { Lays page.old (field_bytes (widths edition call.kind) (values_of edition call)) page.new }
{
    for field in format::fields_of(edition, call.kind) {
        page.big(field.width(), call.value_of(*field));
    }
}

// A record of an edition: length, kind, fields.
pub fn put_record(page: &mut Page<'_>, edition: u8, call: Call)
    ensures { Lays page.old (call_bytes edition call) page.new }
{
    let length = format::length_of(edition, call.kind);
    page.big(2, length as u64);
    page.byte(call.kind);
    put_fields(page, edition, call);
}

// Puts the load with one record more at the start of the buffer and answers the new length; the buffer's later bytes stay. Turned down, the
// whole buffer stays. Reads the load once to test it and once to copy it.
pub fn append(load: &[u8], call: Call, out: &mut [u8]) -> Result<usize, Refusal>
    ensures answer { result ≡ append_answer load.now (record_of call) out.old }
    ensures buffer { out.new ≡ append_out load.now (record_of call) out.old }
    ensures values { written_values result ≡ append_values load.now (record_of call) out.old }
{
    check_append(load, call, out.len())?;
    let mut page = Page::new(out);
    page.bytes(load);
    put_record(&mut page, load[0], call);
    Ok(page.at)
}
