// Reads a load on standard input and prints its listing. Where reading fails that is told, and nothing is printed.
#![tactic(auto)]

ghost use Rattle.std.specs.Prelude.{◌≡◌, length, ◌≤◌};
ghost use Rattle.listing.specs.Room.{room_for};

// Room for a load, which may have 65,536 bytes, and one byte more, so that a longer one is told (14).
fn load_buffer() -> [u8; 65537]
    ensures { 65537 ≡ length result }
{
    [0; 65537]
}

// Room for every listing: no load that is read has over 65,536 bytes.
fn listing_buffer() -> [u8; 1409024]
    ensures { (1409024 ≡ length result) × (room_for 65536 ≤ 1409024) }
{
    [0; 1409024]
}

fn print(rt: &(impl Print + Eprint + Alloc), load: &[u8]) {
    let mut out = listing_buffer();
    let n = listing::belgwyth_listing(load, &mut out);
    streams::write_output(rt, b"cue", &out[..n]);
}

fn main(rt: HostRuntime) {
    if streams::has_arguments(&rt, b"cue < LOAD") {
        return;
    }
    let mut load = load_buffer();
    let Some(n) = streams::read_input(&rt, b"cue", &mut load) else {
        return;
    };
    print(&rt, &load[..n]);
}
