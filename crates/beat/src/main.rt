// A dance show on standard input to its listing on standard output.
// A line that is wrong is reported on standard error, and then nothing is printed.
#![tactic(auto)]

ghost use Rattle.std.specs.Prelude.{◌≤◌, length};
ghost use Rattle.frame_listing.specs.InParts.{part_room};

use dance_text::Mistake;

fn fail(rt: &impl Eprint, text: &[u8], mistake: Mistake) {
    let told = dance_text::report(text, mistake.line, mistake.number);
    streams::tell(rt, told.as_slice());
}

// The parts of the listing, one after the other, until it has ended or a part is not written.
fn print_parts(rt: &(impl Print + Eprint + Alloc), text: &[u8], out: &mut [u8])
    requires { part_room ≤ length out.old }
{
    let mut part = frame_listing::first_part(text, out);
    while streams::write_output(rt, b"beat", &out[..part.length]) && part.at < text.len() {
        part = frame_listing::next_part(text, part, out);
    }
}

// The text is surveyed first, so that nothing is printed of one with a wrong line.
fn print(rt: &(impl Print + Eprint + Alloc), text: &[u8]) {
    if let Err(mistake) = dance_text::survey(text) {
        fail(rt, text, mistake);
        return;
    }
    let mut out = [0u8; 65536];
    print_parts(rt, text, &mut out);
}

// `room` is for the longest text and one byte more.
fn run(rt: &(impl Input + Print + Eprint + Alloc), mut room: [u8; 1048577]) {
    let Some(n) = streams::read_input(rt, b"beat", &mut room) else {
        return;
    };
    if 1048576 < n {
        streams::tell(rt, b"text over 1,048,576 bytes\n");
        return;
    }
    print(rt, &room[..n]);
}

fn main(rt: HostRuntime) {
    if streams::has_arguments(&rt, b"beat < SHOW") {
        return;
    }
    run(&rt, [0; 1048577]);
}
