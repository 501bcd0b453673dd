// What is told of a line of text that is wrong: the reason's text by its number, and a line with that and a form.
ghost use Rattle.std.specs.Prelude.{◌≡◌, ◌≤◌, length, take};
ghost use Rattle.numerals.specs.Laid.{Put};
ghost use Rattle.words.specs.Reports.{form_told, reason_text, report_of, reported, wants_form};

use crate::Reason;

// What is wrong by its number: that of a reason, or of document 01.
fn reason_text(reason: u8) -> &'static [u8]
    ensures { result.now ≡ reason_text reason }
{
    match reason {
        101 => b"unknown call",
        102 => b"a number is missing",
        103 => b"too many words",
        104 => b"clock is not a number",
        105 => b"ticket is not a number",
        106 => b"length is not a number",
        107 => b"groups are not hex or a list",
        108 => b"number too large",
        109 => b"group over 63",
        110 => b"range runs backward",
        111 => b"pool is not a number",
        112 => b"units are not a number",
        113 => b"desk is not a number",
        114 => b"guarantee is not a number",
        115 => b"limit is not a number",
        116 => b"grace is not a number",
        11 => b"unknown edition",
        13 => b"rig must be first",
        14 => b"load over 65,536 bytes",
        _ => b"not written",
    }
}

// Whether a reason is told with the form of the line's call.
pub fn wants_form(reason: u8) -> bool
    ensures { result ≡ wants_form reason }
{
    reason == u8::from(Reason::Missing) || reason == u8::from(Reason::TooMany)
}

// A form behind the reason, unless it is empty or over 64 bytes.
fn put_form(out: &mut [u8], at: usize, form: &[u8]) -> usize
    ensures { Put out.old at (form_told form.now) result out.new }
{
    if form.is_empty() || 64 < form.len() {
        return at;
    }
    let m = numerals::put_bytes(out, at, b": ");
    numerals::put_bytes(out, m, form)
}

// A line that says what is wrong with a line of text.
fn put_report(out: &mut [u8], line: u64, reason: u8, form: &[u8]) -> usize
    ensures { Put out.old 0 (report_of line reason form.now) result out.new }
{
    let a = numerals::put_bytes(out, 0, b"line ");
    let b = numerals::put_decimal(out, a, line);
    let c = numerals::put_bytes(out, b, b": ");
    let d = numerals::put_bytes(out, c, reason_text(reason));
    let e = put_form(out, d, form);
    numerals::put_byte(out, e, b'\n')
}

// Such a line, in the first bytes of 128. It has at most 122.
#[derive(Clone, Copy)]
pub struct Reported {
    pub text: [u8; 128],
    pub length: usize,
}

impl Reported {
    pub fn as_slice(&self) -> &[u8]
        requires { self.now.length ≤ length self.now.text }
        ensures { result.now ≡ take self.now.length self.now.text }
    {
        &self.text[..self.length]
    }
}

pub fn report(line: u64, reason: u8, form: &[u8]) -> Reported
    ensures { (result ≡ reported line reason form.now) × (result.length ≤ length result.text) }
{
    let mut text = [0u8; 128];
    let length = put_report(&mut text, line, reason, form);
    Reported { text, length }
}
