// A load on standard input to lines of calls on standard output.
#![tactic(auto)]

// `room` is for the text of any load.
fn print(rt: &(impl Print + Eprint + Alloc), load: &[u8], mut room: [u8; 196666]) {
    if let Ok(size) = load_text::show(load, &mut room) {
        streams::write_output(rt, b"load_show", &room[..size]);
    }
}

// `room` is for the longest load and one byte more.
fn run(rt: &(impl Input + Print + Eprint + Alloc), mut room: [u8; 65537]) {
    let Some(n) = streams::read_input(rt, b"load_show", &mut room) else {
        return;
    };
    print(rt, &room[..n], [0; 196666]);
}

fn main(rt: HostRuntime) {
    if streams::has_arguments(&rt, b"load_show < LOAD") {
        return;
    }
    run(&rt, [0; 65537]);
}
