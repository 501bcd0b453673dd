// The listing of a load: the player's call. A load's records run on a table, and each prints what it answers.
#![tactic(auto)]

ghost use Rattle.std.specs.Prelude.{◌≡◌, ◌++◌, ◌≤◌, leb, length};
ghost use Rattle.numbers.specs.Numbers.{most_bytes};
ghost use Rattle.numerals.specs.Laid.{laid, lent_out};
ghost use Rattle.numerals.specs.Pages.{Lays};
ghost use Rattle.load.specs.Reading.{walk};
ghost use Rattle.table.specs.Outcomes.{answer_of as told_of};
ghost use Rattle.replay.specs.Records.{alone_in, unrigged};
ghost use Rattle.listing.specs.Lines.{line_of, on_line, on_lines, answer_lines};
ghost use Rattle.listing.specs.Room.{room_for};
ghost use Rattle.listing.specs.Text.{lines_of, listing_of, answer_of};

use numbers::Refusal;
use numerals::Page;
use table::Accepted;

// ── lines ──

fn put_line(page: &mut Page<'_>, k: u64, number: u8, ticket: u16, start: u64)
    ensures { Lays page.old (line_of k number ticket start) page.new }
{
    page.pair(k, number as u64, b' ');
    page.pair(ticket as u64, start, b'\n');
}

fn put_grant(page: &mut Page<'_>, clock: u64, ticket: u16)
    ensures { Lays page.old (on_line clock ticket) page.new }
{
    page.bytes(b"on ");
    page.pair(ticket as u64, clock, b'\n');
}

fn put_grants(page: &mut Page<'_>, clock: u64, grants: &[u16])
    ensures { Lays page.old (on_lines clock grants.now) page.new }
{
    for ticket in grants {
        put_grant(page, clock, *ticket);
    }
}

// What a call answered, and whom it granted at the table's clock.
fn put_entry(page: &mut Page<'_>, k: u64, clock: u64, answer: &Result<Accepted, Refusal>)
    ensures { Lays page.old (answer_lines k clock (told_of answer.now)) page.new }
{
    match answer {
        Ok(accepted) => {
            let reply = accepted.reply;
            put_line(page, k, 0, reply.ticket, reply.start);
            put_grants(page, clock, accepted.grants.as_slice());
        }
        Err(refusal) => put_line(page, k, u8::from(*refusal), 0, 0),
    }
}

// ── records ──

// The lines of a load's records.
fn put_records(page: &mut Page<'_>, load: &[u8])
    requires { length load.now ≤ most_bytes }
    ensures { Lays page.old (lines_of (alone_in load.now) 1 unrigged (walk load.now 1)) page.new }
{
    let alone = replay::alone_in(load);
    let mut table = replay::unrigged();
    let mut at = 1;
    let mut k: u64 = 1;
    loop {
        match load::record_at(load, at) {
            Ok(Some(item)) => {
                let answer = replay::act(&mut table, alone, item.call);
                let stop = replay::ending_of(k, numbers::number(&answer));
                if stop != 0 {
                    return replay::put_stop(page, stop, k);
                }
                put_entry(page, k, table.now(), &answer);
                at = item.next;
                k += 1;
            }
            Ok(None) => return,
            Err(refusal) => return replay::put_stop(page, u8::from(refusal), k),
        }
    }
}

// The whole listing laid over a buffer, as far as that goes, and its length.
fn run(load: &[u8], out: &mut [u8]) -> usize
    ensures { (result ≡ length (listing_of load.now)) × (out.new ≡ laid out.old 0 (listing_of load.now)) }
{
    let mut page = Page::new(out);
    page.bytes(b"rec answer ticket start\n");
    match load::check_open(load) {
        Ok(()) => put_records(&mut page, load),
        Err(refusal) => replay::put_stop(&mut page, u8::from(refusal), 0),
    }
    page.at
}

// Room that the listing of every load of a size goes into: the header and a stop line, and for each record a line and an `on` line.
fn room_for(size: usize) -> usize
    ensures { result ≡ room_for size }
{
    if numbers::MOST_BYTES < size {
        return 71;
    }
    71 + 129 * (size / format::least_length())
}

// Whether the listing goes into so much room. Where the load's length does not tell, it is counted, on a buffer that takes one byte.
fn goes_into(load: &[u8], room: usize) -> bool
    ensures { result ≡ leb (length (listing_of load.now)) room }
{
    if room_for(load.len()) <= room {
        return true;
    }
    let mut scrap = [0u8; 1];
    run(load, &mut scrap) <= room
}

// The listing of a load at the start of a buffer: the count of bytes written, or 15 and the buffer untouched.
// Cost: one call of the table for each record; two where the buffer has under 71 + 129 * (load.len() / format::least_length()) bytes.
#[unsafe(no_mangle)]
pub extern "C" fn belgwyth_listing(load: &[u8], out: &mut [u8]) -> usize
    ensures answer { result ≡ answer_of (listing_of load.now) out.old }
    ensures buffer { out.new ≡ lent_out (listing_of load.now) out.old }
{
    if goes_into(load, out.len()) {
        return run(load, out);
    }
    usize::from(u8::from(Refusal::NoSpace))
}
