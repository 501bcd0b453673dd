// Sets of groups as 64-bit words: each question is answered for all 64 groups at once.
// What is asked is defined in specs/Groups.antt; proofs/Groups.antt has its laws, and proofs/Words.antt what joins it to words.
#![tactic(auto)]

ghost use Rattle.std.specs.Prelude.{◌≡◌};
ghost use Rattle.groups.specs.Groups.{common, shares, empty, within, union, without, only, lowest, lowest_missing, others};

// The lowest group that two sets have in common, or none. Cost: an instruction on 64 bits, a comparison and one more instruction.
pub fn common(a: u64, b: u64) -> Option<usize>
    ensures { result ≡ common a b }
{
    lowest(a & b)
}

// Whether two sets have a group in common. Cost: an instruction on 64 bits and a comparison: the compiler leaves out the search.
#[tactic(auto, unfolding(crate::specs::Groups::shares))]
pub fn shares(a: u64, b: u64) -> bool
    ensures { result ≡ shares a b }
{
    common(a, b).is_some()
}

// Whether no group is in a set. Cost: one comparison.
pub fn empty(a: u64) -> bool
    ensures { result ≡ empty a }
{
    a == 0
}

// Whether every group of `a` is in `b`. Cost: one instruction on 64 bits and a comparison.
pub fn within(a: u64, b: u64) -> bool
    ensures { result ≡ within a b }
{
    a & b == a
}

// The groups of either set. Cost: one instruction on 64 bits.
pub fn union(a: u64, b: u64) -> u64
    ensures { result ≡ union a b }
{
    a | b
}

// The groups of `a` that are not in `b`. Cost: two instructions on 64 bits.
pub fn without(a: u64, b: u64) -> u64
    ensures { result ≡ without a b }
{
    a ^ (a & b)
}

// The set of one group, that of none for a number that is no group. Cost: a comparison and one instruction on 64 bits.
pub fn only(g: usize) -> u64
    ensures { result ≡ only g }
{
    if 63 < g {
        return 0;
    }
    1u64 << g
}

// The lowest group of a set, or none. Cost: a comparison and one instruction.
pub fn lowest(a: u64) -> Option<usize>
    ensures { result ≡ lowest a }
{
    if a == 0 {
        return None;
    }
    Some(u64::trailing_zeros(a) as usize)
}

// The lowest group that is not in a set, or none. Cost: a comparison and two instructions.
pub fn lowest_missing(a: u64) -> Option<usize>
    ensures { result ≡ lowest_missing a }
{
    lowest(without(u64::MAX, a))
}

// A set without its lowest group. Cost: a comparison and two instructions on 64 bits.
pub fn others(a: u64) -> u64
    ensures { result ≡ others a }
{
    if a == 0 {
        return 0;
    }
    a & (a - 1)
}
