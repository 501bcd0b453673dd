// Lines of text, their words, and the numbers that words say. Sets of groups are in `sets`, the reasons of a line that is wrong in `reasons`,
// and the line that tells one in `reports`. Every function takes any slice. What is read is defined in specs/Parts.antt (lines and words) and
// specs/Words.antt (what a word says).
#![tactic(auto)]

ghost use Rattle.std.specs.Prelude.{◌≡◌, ℕ, true, ◌-◌, ◌≤◌, ◌<◌, max, [], length, drop, MatchOption};
ghost use Rattle.words.specs.Answers.{values_by};
ghost use Rattle.words.specs.Parts.{FirstPart, FirstWord, IsLast, LiesIn, bytes_before, chomped, first_said, is, is_blank, is_full, is_feed, line_at, lines_in, place_of, said, words_in};
ghost use Rattle.words.specs.Words.{and_digit, digit_of, digits_in, number_in, number_values, up_to_most, value_in};

mod reasons;
mod reports;
pub mod sets;

pub use reasons::Reason;
pub use reports::{Reported, report, wants_form};

// The value of a digit up to F in either case, 16 for any other byte.
fn digit(b: u8) -> u64
    ensures { (result ≡ digit_of b) × (result < 17) }
{
    match b {
        b'0'..=b'9' => u64::from(b - b'0'),
        b'A'..=b'F' => u64::from(b - b'A') + 10,
        b'a'..=b'f' => u64::from(b - b'a') + 10,
        _ => 16,
    }
}

// A number with one digit more, if that is at most `most`.
fn and_digit(base: u64, most: u64, v: u64, b: u8) -> Option<u64>
    ensures { result ≡ and_digit base most v b }
{
    v.checked_mul(base)?
        .checked_add(digit(b))
        .filter(|n| *n <= most)
}

// The number that digits say, if it is at most `most`, else the reason `large`.
fn value<E: Copy>(word: &[u8], base: u64, most: u64, large: E) -> Result<u64, E>
    requires { digits_in base word.now ≡ true }
    ensures { result ≡ up_to_most most large (value_in base 0 word.now) }
{
    let mut v: u64 = 0;
    for b in word {
        v = and_digit(base, most, v, *b).ok_or(large)?;
    }
    Ok(v)
}

// The number that a word says: `none` where it says none, which goes before `large`, where it is over `most`. The two are reasons, numbers, or
// of any other type; by whatever numbers they are told, these are the values.
pub fn number<E: Copy>(word: &[u8], base: u64, most: u64, none: E, large: E) -> Result<u64, E>
    ensures { (result ≡ number_in base most none large word.now)
        × ((told : E → ℕ) → values_by told result ≡ number_values base most (told none) (told large) word.now) }
{
    if word.is_empty() || word.iter().any(|b| base <= digit(*b)) {
        return Err(none);
    }
    value(word, base, most, large)
}

// ---- words
fn is_blank(b: u8) -> bool
    ensures { result ≡ is_blank b }
{
    matches!(b, b' ' | b'\t')
}

// The first word of a line, and what stands behind it. Cost: a test for each byte up to there.
pub fn next_word(line: &[u8]) -> Option<(&[u8], &[u8])>
    ensures { MatchOption result (words_in line.now ≡ []) (λ p. FirstWord line.now p.0.now p.1.now) }
{
    let blanks = line.iter().position(|b| !is_blank(*b))?;
    let word = &line[blanks..];
    let size = word.iter().position(|b| is_blank(*b)).unwrap_or(word.len());
    Some(word.split_at(size))
}

// ---- parts
// How many bytes stand before the first that is b.
fn before(text: &[u8], b: u8) -> usize
    ensures { (result ≡ bytes_before (is b) text.now) × (result ≤ length text.now) }
{
    text.iter().position(|c| *c == b).unwrap_or(text.len())
}

// The first place from `at` on of a byte, or the end. Cost: one test for each byte up to there.
pub fn place(text: &[u8], b: u8, at: usize) -> usize
    ensures { (result ≡ place_of (is b) text.now at) × (at ≤ result) × (result ≤ max at (length text.now)) }
{
    if text.len() <= at {
        return at;
    }
    at + before(&text[at..], b)
}

// The first part of a text whose parts end with b, and what stands behind that; none of an empty text.
pub(crate) fn next_part(text: &[u8], b: u8) -> Option<(&[u8], &[u8])>
    ensures { MatchOption result (text.now ≡ []) (λ p. FirstPart (is b) text.now p.0.now p.1.now) }
{
    if text.is_empty() {
        return None;
    }
    let (part, end) = text.split_at(before(text, b));
    match end {
        [_, rest @ ..] => Some((part, rest)),
        [] => Some((part, end)),
    }
}

// The first line of a text, and what stands behind its line feed. An empty line is found without a search.
pub fn next_line(text: &[u8]) -> Option<(&[u8], &[u8])>
    ensures { MatchOption result (text.now ≡ []) (λ p. FirstPart is_feed text.now p.0.now p.1.now) }
{
    match text {
        [first, rest @ ..] if *first == b'\n' => Some((&text[..0], rest)),
        _ => next_part(text, b'\n'),
    }
}

// A line before the carriage return that ends it.
#[tactic(auto, unfolding(crate::specs::Parts::chomped))]
fn chomped(line: &[u8]) -> &[u8]
    ensures { result.now ≡ chomped line.now }
{
    match line {
        [rest @ .., b'\r'] => rest,
        _ => line,
    }
}

// What a line says, before its end and its comment.
pub fn said(line: &[u8]) -> &[u8]
    ensures { result.now ≡ said line.now }
{
    let line = chomped(line);
    &line[..before(line, b'#')]
}

// ---- lines
// A text from one of its lines on, counted from 1. Cost: one pass over the lines before it.
fn from_line(text: &[u8], line: u64) -> &[u8]
    ensures lines { lines_in result.now ≡ drop (line - 1) (lines_in text.now) }
    ensures last { IsLast text.now result.now }
{
    let mut rest = text;
    for _ in 1..line {
        let Some((_, behind)) = next_line(rest) else {
            return rest;
        };
        rest = behind;
    }
    rest
}

// The first word that a line of a text says, as that part of the text, lines counted from 1; empty where it says none. Cost: one pass over the
// lines before it, up to three over the line.
pub fn first_said(text: &[u8], line: u64) -> &[u8]
    ensures word { result.now ≡ first_said (line_at text.now line) }
    ensures part { LiesIn text.entry.ref_ptr text.now result.ref_ptr (first_said (line_at text.now line)) }
{
    let none = &text[..0];
    if line == 0 {
        return none;
    }
    let rest = from_line(text, line);
    let Some((line, _)) = next_line(rest) else {
        return none;
    };
    let said = said(line);
    let Some((word, behind)) = next_word(said) else {
        return none;
    };
    let from = text.len() - rest.len() + said.len() - behind.len() - word.len();
    &text[from..from + word.len()]
}
