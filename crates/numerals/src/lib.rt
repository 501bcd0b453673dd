// Numbers in bytes: read big-endian, and laid big-endian or in decimal into a lent buffer.
// All take any place. The writers leave out what would go past the buffer's end, and answer the place after what was laid, at most the
// greatest usize: a buffer ends before it, so that nothing is laid there.
#![tactic(auto)]

ghost use Rattle.std.specs.Prelude.{◌≡◌, [], ◌∷◌, ◌+◌, ◌-◌, ◌^◌, ◌≤◌, ◌<◌, min, length, take, drop, set};
ghost use Rattle.numerals.specs.Laid.{behind, laid};
ghost use Rattle.numerals.specs.Digits.{bytes_at, numeral, digits, decimal_of, width_of, column, pair};

mod page;

pub use page::Page;

// ---- reading
// The number that up to eight bytes say, one after the other.
fn each(bytes: &[u8]) -> u64
    requires { length bytes.now ≤ 8 }
    ensures { (result ≡ numeral 0 bytes.now) × (result < 256 ^ length bytes.now) }
{
    let mut value = 0;
    for byte in bytes {
        value = value * 256 + u64::from(*byte);
    }
    value
}

// The same, at once where they are as many as a type of the language has.
#[tactic(auto, unfolding(crate::specs::Digits::numeral))]
fn value(bytes: &[u8]) -> u64
    requires { length bytes.now ≤ 8 }
    ensures { (result ≡ numeral 0 bytes.now) × (result < 256 ^ length bytes.now) }
{
    match bytes {
        [a] => u64::from(*a),
        [a, b] => u64::from(u16::from_be_bytes([*a, *b])),
        [a, b, c, d] => u64::from(u32::from_be_bytes([*a, *b, *c, *d])),
        [a, b, c, d, e, f, g, h] => u64::from_be_bytes([*a, *b, *c, *d, *e, *f, *g, *h]),
        _ => each(bytes),
    }
}

// The number that n bytes from a place on say, the highest first; after the end of s, those that are left. At most eight bytes are read.
pub fn number(s: &[u8], at: usize, n: usize) -> u64
    ensures { (result ≡ numeral 0 (bytes_at s.now at n)) × (result < 256 ^ n) }
{
    let from = at.min(s.len());
    let count = n.min(8).min(s.len() - from);
    value(&s[from..from + count])
}

// The same for two bytes.
pub fn be16(s: &[u8], at: usize) -> u16
    ensures { result ≡ numeral 0 (take 2 (drop at s.now)) }
{
    number(s, at, 2) as u16
}

// How many decimal digits a number has; a division for each.
pub fn width(value: u64) -> usize
    ensures { result ≡ width_of value }
{
    let mut v = value;
    let mut n: usize = 1;
    while 10 <= v {
        v /= 10;
        n += 1;
    }
    n
}

// ---- writing
// One byte i places after a place, if there is such a place.
fn store(out: &mut [u8], at: usize, i: usize, b: u8)
    ensures { out.new ≡ set out.old (at + i) b }
{
    if at < out.len() && i < out.len() - at {
        out[at + i] = b;
    }
}

// One byte laid at a place.
#[tactic(auto, unfolding(crate::specs::Laid::behind))]
pub fn put_byte(out: &mut [u8], at: usize, b: u8) -> usize
    ensures { (result ≡ behind at 1) × (out.new ≡ laid out.old at (b ∷ [])) }
{
    if at < out.len() {
        out[at] = b;
    }
    at.saturating_add(1)
}

// The n lowest digits of a number in a base, each raised by `zero`, laid from a place on, the highest first; one step for each.
fn put_digits(out: &mut [u8], at: usize, n: usize, value: u64, base: u64, zero: u8) -> usize
    requires { (1 ≤ base) × (base + zero ≤ 256) }
    ensures { (result ≡ behind at n) × (out.new ≡ laid out.old at (digits base zero n value)) }
{
    let mut rest = value;
    for i in (0..n).rev() {
        store(out, at, i, (rest % base) as u8 + zero);
        rest /= base;
    }
    at.saturating_add(n)
}

// A number laid in n bytes from a place on, the highest first; one step for each byte.
pub fn put_big(out: &mut [u8], at: usize, n: usize, value: u64) -> usize
    ensures { (result ≡ behind at n) × (out.new ≡ laid out.old at (digits 256 0 n value)) }
{
    put_digits(out, at, n, value, 256, 0)
}

// A number laid in decimal: at most 20 digits, a division for each to count them and one to lay them.
pub fn put_decimal(out: &mut [u8], at: usize, value: u64) -> usize
    ensures { (result ≡ behind at (length (decimal_of value))) × (out.new ≡ laid out.old at (decimal_of value)) }
{
    let n = width(value);
    put_digits(out, at, n, value, 10, b'0')
}

// A number laid in decimal, and a byte after it.
pub fn put_column(out: &mut [u8], at: usize, value: u64, b: u8) -> usize
    ensures { (result ≡ behind at (length (column value b))) × (out.new ≡ laid out.old at (column value b)) }
{
    let end = put_decimal(out, at, value);
    put_byte(out, end, b)
}

// Two numbers with a space between them, and a byte after them.
pub fn put_pair(out: &mut [u8], at: usize, a: u64, b: u64, last: u8) -> usize
    ensures { (result ≡ behind at (length (pair a b last))) × (out.new ≡ laid out.old at (pair a b last)) }
{
    let end = put_column(out, at, a, b' ');
    put_column(out, end, b, last)
}

// Bytes laid from a place on, as many as the buffer has room for.
pub fn put_bytes(out: &mut [u8], at: usize, src: &[u8]) -> usize
    ensures { (result ≡ behind at (length src.now)) × (out.new ≡ laid out.old at src.now) }
{
    if at < out.len() {
        let count = src.len().min(out.len() - at);
        out[at..at + count].copy_from_slice(&src[..count]);
    }
    at.saturating_add(src.len())
}
