// Lines of calls on standard input to a load on standard output.
// A line that is wrong is reported on standard error, and then nothing is written.
#![tactic(auto)]

use load_text::Mistake;

fn fail(rt: &impl Eprint, text: &[u8], mistake: Mistake) {
    let report = load_text::report(text, mistake.line, mistake.number);
    streams::tell(rt, report.as_slice());
}

fn write(rt: &(impl Print + Eprint + Alloc), text: &[u8]) {
    let mut load = [0u8; 65536];
    match load_text::make(text, &mut load) {
        Ok(size) => {
            streams::write_output(rt, b"load_write", &load[..size]);
        }
        Err(mistake) => fail(rt, text, mistake),
    }
}

// `room` is for the longest text and one byte more.
fn run(rt: &(impl Input + Print + Eprint + Alloc), mut room: [u8; 1048577]) {
    let Some(n) = streams::read_input(rt, b"load_write", &mut room) else {
        return;
    };
    if 1048576 < n {
        streams::tell(rt, b"text over 1,048,576 bytes\n");
        return;
    }
    write(rt, &room[..n]);
}

fn main(rt: HostRuntime) {
    if streams::has_arguments(&rt, b"load_write < SHOW > LOAD") {
        return;
    }
    run(&rt, [0; 1048577]);
}
