// A reader keeps the load that it was opened on, and its position. It tests that load: one that does not open gives its refusal at every
// position, which costs three comparisons a record. The work is done by three functions on a slice and a position; over the struct that
// holds the slice stand thin methods.
#![tactic(auto)]

ghost use Rattle.std.specs.Prelude.{◌≡◌, length};
ghost use Rattle.numbers.specs.Refusals.{number_in};
ghost use Rattle.load.specs.Answers.{item_values};
ghost use Rattle.load.specs.Reading.{reading};
ghost use Rattle.reader.specs.Items.{item_of, read_values, position_after};
ghost use Rattle.reader.specs.Shown.{record_part, record_start, further};

use load::Item;
use numbers::Refusal;

// What a reader of a load answers at a position: 14, 12 or 11 for a load that does not open; else what stands there.
pub fn item_at(load: &[u8], at: usize) -> Result<Option<Item>, Refusal>
    ensures { (result ≡ item_of load.now at) × (item_values at result ≡ read_values load.now at) }
{
    load::check_open(load)?;
    load::record_at(load, at)
}

// The record at a position, with its length bytes, where it lies in the load; the empty part at the load's start where there is none.
pub fn part_at(load: &[u8], at: usize) -> &[u8]
    ensures { (result.now ≡ record_part load.now at)
        × (result.ref_ptr ≡ further load.entry.ref_ptr (record_start load.now at)) }
{
    match item_at(load, at) {
        Ok(Some(item)) => &load[at..item.next],
        Ok(None) => &load[..0],
        Err(_) => &load[..0],
    }
}

// The position after the record at a position; the same position where there is none.
pub fn position_after(load: &[u8], at: usize) -> usize
    ensures { result ≡ position_after load.now at }
{
    match item_at(load, at) {
        Ok(Some(item)) => item.next,
        Ok(None) => at,
        Err(_) => at,
    }
}

#[derive(Clone, Copy)]
pub struct Reader<'a> {
    pub load: &'a [u8],
    pub at: usize,
}

impl<'a> Reader<'a> {
    // A reader of a load, after its edition byte.
    pub fn opened(load: &'a [u8]) -> Reader<'a>
        ensures { (result.load ≡ load.entry) × (result.at ≡ 1) }
    {
        Reader { load, at: 1 }
    }

    // What the reader answers at its position: a call with the next position, the end, or a refusal.
    pub fn next(self) -> Result<Option<Item>, Refusal>
        ensures { (result ≡ item_of self.entry.load.now self.entry.at)
            × (item_values self.entry.at result ≡ read_values self.entry.load.now self.entry.at) }
    {
        item_at(self.load, self.at)
    }

    // The record at the position, as that part of the caller's load.
    pub fn shown(self) -> &'a [u8]
        ensures { (result.now ≡ record_part self.entry.load.now self.entry.at)
            × (result.ref_ptr ≡ further self.entry.load.ref_ptr (record_start self.entry.load.now self.entry.at)) }
    {
        part_at(self.load, self.at)
    }

    // The reader after the record; at the end and at a refusal it keeps its position.
    pub fn advanced(self) -> Reader<'a>
        ensures { (result.load ≡ self.entry.load) × (result.at ≡ position_after self.entry.load.now self.entry.at) }
    {
        Reader {
            at: position_after(self.load, self.at),
            ..self
        }
    }
}

// What a reader gives of a load, from its opening to its stop: how many records, and whether it stops at the end or at a refusal.
#[derive(Clone, Copy)]
pub struct Scanned {
    pub records: usize,
    pub stop: Result<(), Refusal>,
}

// A reader is opened on the load, asked, and moved on until it stops.
pub fn scan(load: &[u8]) -> Scanned
    ensures { (result.records ≡ length (reading load.now).records) × (number_in result.stop ≡ (reading load.now).stop) }
{
    let mut reader = Reader::opened(load);
    let mut records = 0;
    loop {
        match reader.next() {
            Ok(Some(_)) => {
                records += 1;
                reader = reader.advanced();
            }
            Ok(None) => {
                return Scanned {
                    records,
                    stop: Ok(()),
                };
            }
            Err(refusal) => {
                return Scanned {
                    records,
                    stop: Err(refusal),
                };
            }
        }
    }
}
