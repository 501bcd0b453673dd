// The load format: the kinds of each edition with their fields and lengths, and a call by its fields. All calls take any values.
#![tactic(auto)]

ghost use Rattle.std.specs.Prelude.{◌%◌, ◌^◌, ◌<◌, ◌≡◌};
ghost use Rattle.format.specs.Format.{known, has_kind, field_number, field_width, length_of, least_length};
ghost use Rattle.format.specs.Calls.{value_of, with_value, bare, kept};
ghost use Rattle.format.specs.Records.{record_of, carries};

pub mod fields;
pub mod kinds;

pub use fields::{Field, fields_of};

// One record of a load: its kind, and a value for each field that some kind has. A field that its kind lacks is 0, but for the client
// (document 02: desk): a record without one is client 1's. `reserved` is document 02's guarantee; `grace` is the grace in ticks.
#[derive(Clone, Copy, Debug, PartialEq, Eq)]
pub struct Call {
    pub kind: u8,
    pub clock: u64,
    pub groups: u64,
    pub length: u32,
    pub ticket: u16,
    pub pool: u16,
    pub units: u16,
    pub client: u8,
    pub reserved: u8,
    pub limit: u8,
    pub grace: u32,
}

// ---- lengths
// The length of a record: its kind byte and its fields. 0 for a kind that the edition lacks.
#[tactic(auto, unfolding(crate::specs::Format::length_of, crate::specs::Format::has_kind, crate::specs::Format::has_in, crate::specs::Format::fields_of, crate::specs::Format::row_in, crate::specs::Format::format, crate::specs::Format::length_in, crate::specs::Format::total, crate::specs::Format::field_width, crate::specs::Format::field_widths))]
pub fn length_of(edition: u8, kind: u8) -> usize
    ensures { result ≡ length_of edition kind }
{
    match edition {
        1 => match kind {
            kinds::RIG => 9,
            kinds::CLAIM => 21,
            kinds::RELEASE => 11,
            kinds::WITHDRAW => 11,
            kinds::CLOCK => 9,
            _ => 0,
        },
        2 => match kind {
            kinds::RIG => 11,
            kinds::CLAIM => 23,
            kinds::RELEASE => 11,
            kinds::WITHDRAW => 11,
            kinds::CLOCK => 9,
            _ => 0,
        },
        3 => match kind {
            kinds::RIG => 11,
            kinds::CLAIM => 24,
            kinds::RELEASE => 11,
            kinds::WITHDRAW => 11,
            kinds::CLOCK => 9,
            kinds::DECLARATION => 4,
            kinds::GRACE => 5,
            _ => 0,
        },
        _ => 0,
    }
}

// Whether an edition has a kind: its records then have a length, since they have a kind byte.
pub fn has_kind(edition: u8, kind: u8) -> bool
    ensures { result ≡ has_kind edition kind }
{
    0 < length_of(edition, kind)
}

// The least length of a whole record, its two length bytes included.
pub fn least_length() -> usize
    ensures { (result ≡ least_length) × (0 < result) }
{
    6
}

// The editions that there are have a rig, which every load begins with.
pub fn known(edition: u8) -> bool
    ensures { result ≡ known edition }
{
    has_kind(edition, kinds::RIG)
}

// ---- calls
impl Call {
    // A call of a kind with no values: each field is as where a record lacks it.
    #[tactic(auto, unfolding(crate::specs::Calls::bare, crate::specs::Calls::made, crate::specs::Format::default, crate::specs::Format::defaults))]
    pub fn bare(kind: u8) -> Call
        ensures { result ≡ bare kind }
    {
        Call {
            kind,
            clock: 0,
            groups: 0,
            length: 0,
            ticket: 0,
            pool: 0,
            units: 0,
            client: 1,
            reserved: 0,
            limit: 0,
            grace: 0,
        }
    }

    // The value of a field.
    #[tactic(auto, unfolding(crate::specs::Calls::value_of, crate::specs::Calls::numbers, crate::specs::Format::field_width, crate::specs::Format::field_widths))]
    pub fn value_of(self, field: Field) -> u64
        ensures { (result ≡ value_of (field_number field) self) × (result < 256 ^ field_width (field_number field)) }
    {
        match field {
            Field::Clock => self.clock,
            Field::Groups => self.groups,
            Field::Length => u64::from(self.length),
            Field::Ticket => u64::from(self.ticket),
            Field::Pool => u64::from(self.pool),
            Field::Units => u64::from(self.units),
            Field::Client => u64::from(self.client),
            Field::Reserved => u64::from(self.reserved),
            Field::Limit => u64::from(self.limit),
            Field::Grace => u64::from(self.grace),
        }
    }

    // Puts a value into a field: as much of it as goes into the field's width.
    #[tactic(auto, unfolding(crate::specs::Calls::with_value, crate::specs::Calls::made, crate::specs::Calls::numbers, crate::specs::Format::field_width, crate::specs::Format::field_widths))]
    pub fn set(&mut self, field: Field, value: u64)
        ensures { self.new ≡ with_value (field_number field) (value % 256 ^ field_width (field_number field)) self.old }
    {
        match field {
            Field::Clock => self.clock = value,
            Field::Groups => self.groups = value,
            Field::Length => self.length = (value % 4294967296) as u32,
            Field::Ticket => self.ticket = (value % 65536) as u16,
            Field::Pool => self.pool = (value % 65536) as u16,
            Field::Units => self.units = (value % 65536) as u16,
            Field::Client => self.client = (value % 256) as u8,
            Field::Reserved => self.reserved = (value % 256) as u8,
            Field::Limit => self.limit = (value % 256) as u8,
            Field::Grace => self.grace = (value % 4294967296) as u32,
        }
    }
}

// The value of a field by its number, 0 for the kind; 0 where there is no such field.
#[tactic(auto, unfolding(crate::specs::Calls::value_of, crate::specs::Calls::numbers, crate::specs::Format::field_width, crate::specs::Format::field_widths))]
pub fn value_of(call: Call, field: u8) -> u64
    ensures { (result ≡ value_of field call) × (result < 256 ^ field_width field) }
{
    match Field::of_number(field) {
        Some(named) => call.value_of(named),
        None if field == 0 => u64::from(call.kind),
        None => 0,
    }
}

// The call with a value in a field, by its number: as much of it as goes into the field's width.
#[tactic(auto, unfolding(crate::specs::Calls::with_value, crate::specs::Calls::made, crate::specs::Calls::numbers, crate::specs::Format::field_width, crate::specs::Format::field_widths))]
pub fn with_value(call: Call, field: u8, value: u64) -> Call
    ensures { result ≡ with_value field (value % 256 ^ field_width field) call }
{
    let mut made = call;
    match Field::of_number(field) {
        Some(named) => made.set(named, value),
        None if field == 0 => made.kind = (value % 256) as u8,
        None => {}
    }
    made
}

// What an edition keeps of a call: the fields that it lacks become as in `bare`. Cost: a few instructions for each field.
fn kept(edition: u8, call: Call) -> Call
    ensures { result ≡ kept edition call }
{
    let mut kept = Call::bare(call.kind);
    for field in fields_of(edition, call.kind) {
        kept.set(*field, call.value_of(*field));
    }
    kept
}

// Whether an edition can carry a call, as a record without members: it has the kind, and every field that it lacks is as in `bare`.
pub fn carries(edition: u8, call: Call) -> bool
    ensures { result ≡ carries edition (record_of call) }
{
    has_kind(edition, call.kind) && kept(edition, call) == call
}
