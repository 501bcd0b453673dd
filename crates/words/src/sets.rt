// Sets of groups as text: hex, or a list such as 0,3,5-7. What a word says is defined in specs/Sets.antt.
ghost use Rattle.std.specs.Prelude.{◌≡◌, ◌≤◌};
ghost use Rattle.words.specs.Answers.{word_values};
ghost use Rattle.words.specs.Parts.{items_in};
ghost use Rattle.words.specs.Sets.{groups_in, groups_values, item_of_word, one_group_in, span, with_items};

use crate::{Reason, next_part, number};

// The groups from one to another: the bits below 2^(high + 1) without those below 2^low.
fn span(low: u64, high: u64) -> u64
    requires { (low ≤ high) × (high ≤ 63) }
    ensures { result ≡ span low high }
{
    let top = 1u64 << high;
    (top - (1u64 << low)) + top
}

fn group(word: &[u8]) -> Result<u64, Reason>
    ensures { result ≡ one_group_in word.now }
{
    number(word, 10, 63, Reason::NoGroups, Reason::Over63)
}

// One item, `5` or `5-7`.
fn item(word: &[u8]) -> Result<u64, Reason>
    ensures { result ≡ item_of_word word.now }
{
    let Some(dash) = word.iter().position(|b| *b == b'-') else {
        let only = group(word)?;
        return Ok(span(only, only));
    };
    let low = group(&word[..dash])?;
    let high = group(&word[dash + 1..])?;
    if high < low {
        return Err(Reason::Backward);
    }
    Ok(span(low, high))
}

fn list(word: &[u8]) -> Result<u64, Reason>
    ensures { result ≡ with_items 0 (items_in word.now) }
{
    let mut set: u64 = 0;
    let mut rest = word;
    while let Some((part, behind)) = next_part(rest, b',') {
        set = groups::union(set, item(part)?);
        rest = behind;
    }
    Ok(set)
}

// The set that a word says. A word without comma and dash is hex.
pub fn groups_of(word: &[u8]) -> Result<u64, Reason>
    ensures { (result ≡ groups_in word.now) × (word_values result ≡ groups_values word.now) }
{
    if word.iter().any(|b| matches!(b, b',' | b'-')) {
        return list(word);
    }
    number(word, 16, u64::MAX, Reason::NoGroups, Reason::TooLarge)
}
