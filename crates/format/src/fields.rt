// The fields of records, as in specs/Format.antt: their one home in code. The kind byte, which every record has, is none of them.
ghost use Rattle.std.specs.Prelude.{◌≡◌, ◌≤◌, ◌<◌, ◌-◌, map, take, drop, MatchOption};
ghost use Rattle.format.specs.Format.{field_count, field_number, field_width, fields_of, laid_fields};

use crate::kinds;

#[derive(Clone, Copy, Debug, PartialEq, Eq)]
pub enum Field {
    Clock,
    Groups,
    Length,
    Ticket,
    Pool,
    Units,
    // Document 02: desk.
    Client,
    // Document 02: guarantee.
    Reserved,
    Limit,
    Grace,
}

impl Field {
    // The field of a number; none for the kind byte's, and from 11 on.
    pub(crate) fn of_number(number: u8) -> Option<Field>
        ensures { MatchOption result (0 < number → field_count ≤ number) (λ f. field_number f ≡ number) }
    {
        match number {
            0 => None,
            1 => Some(Field::Clock),
            2 => Some(Field::Groups),
            3 => Some(Field::Length),
            4 => Some(Field::Ticket),
            5 => Some(Field::Pool),
            6 => Some(Field::Units),
            7 => Some(Field::Client),
            8 => Some(Field::Reserved),
            9 => Some(Field::Limit),
            10 => Some(Field::Grace),
            _ => None,
        }
    }

    // Its width in bytes.
    #[tactic(auto, unfolding(crate::specs::Format::field_width, crate::specs::Format::field_widths))]
    pub fn width(self) -> usize
        ensures { result ≡ field_width (field_number self) }
    {
        match self {
            Field::Clock => 8,
            Field::Groups => 8,
            Field::Length => 4,
            Field::Ticket => 2,
            Field::Pool => 2,
            Field::Units => 2,
            Field::Client => 1,
            Field::Reserved => 1,
            Field::Limit => 1,
            Field::Grace => 4,
        }
    }
}

// The fields of all rows: each row is a part of them.
const LAID: [Field; 12] = [
    Field::Clock,
    Field::Groups,
    Field::Length,
    Field::Units,
    Field::Client,
    Field::Reserved,
    Field::Limit,
    Field::Clock,
    Field::Ticket,
    Field::Groups,
    Field::Pool,
    Field::Grace,
];

// A part of them by its places: a function of its own, so that what tells the rows apart is numbers and not addresses, and a library for C
// has no data that is written.
#[inline(never)]
fn part(from: usize, to: usize) -> &'static [Field]
    requires { (from ≤ to) × (to ≤ 12) }
    ensures { map field_number result.now ≡ take (to - from) (drop from laid_fields) }
{
    &LAID[from..to]
}

// The fields of a kind of an edition in their order; none for a kind that the edition lacks. Every kind of an edition is listed, so that
// they are one read of a table.
#[tactic(auto, unfolding(crate::specs::Format::fields_of, crate::specs::Format::row_in, crate::specs::Format::format))]
pub fn fields_of(edition: u8, kind: u8) -> &'static [Field]
    ensures { map field_number result.now ≡ fields_of edition kind }
{
    match edition {
        1 => match kind {
            kinds::RIG => part(1, 2),
            kinds::CLAIM => part(0, 3),
            kinds::RELEASE => part(7, 9),
            kinds::WITHDRAW => part(7, 9),
            kinds::CLOCK => part(0, 1),
            _ => &[],
        },
        // The rig has its pool and the claim its units at the end.
        2 => match kind {
            kinds::RIG => part(9, 11),
            kinds::CLAIM => part(0, 4),
            kinds::RELEASE => part(7, 9),
            kinds::WITHDRAW => part(7, 9),
            kinds::CLOCK => part(0, 1),
            _ => &[],
        },
        // The claim has its client at the end, a client is declared, and there is a grace.
        3 => match kind {
            kinds::RIG => part(9, 11),
            kinds::CLAIM => part(0, 5),
            kinds::RELEASE => part(7, 9),
            kinds::WITHDRAW => part(7, 9),
            kinds::CLOCK => part(0, 1),
            kinds::DECLARATION => part(4, 7),
            kinds::GRACE => part(11, 12),
            _ => &[],
        },
        _ => &[],
    }
}
