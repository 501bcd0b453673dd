// The pool's planned use as events, sorted by time: a start takes units, an end gives them back. Entering a hold, and finding the first
// time at which there are units enough over a whole hold: one sweep over the events.
// What an event and a first fit are is defined in specs/Events.antt; proofs/FirstFit.antt has the laws of the sweep.
ghost use Rattle.std.specs.Prelude.{◌≡◌, [], ◌+◌, ◌-◌, ◌≤◌, ◌<◌, length as size};
ghost use Rattle.plan.specs.SortKeys.{Inserted};
ghost use Rattle.plan.specs.Events.{event_word, time_in, units_in, Events, FirstFit};
ghost use Rattle.numbers.specs.Numbers.{most_length};
ghost use Rattle.plan.specs.Bounds.{most_end, most_time, times_in_word, units_in_word};

use crate::sorted::SortedWords;

// A word tells so many numbers of units apart, and its time stands above them.
const UNITS_IN_WORD: u64 = 65_536;

// An event as one word. Cost: a shift and an addition.
fn event(time: u64, units: u16) -> u64
    requires { time ≤ most_time }
    ensures { result ≡ event_word time units }
{
    time * UNITS_IN_WORD + u64::from(units)
}

// The time of an event. Cost: a shift.
fn time_in(w: u64) -> u64
    ensures { (result ≡ time_in w) × (result < times_in_word) }
{
    w / UNITS_IN_WORD
}

// The units of an event. Cost: a mask.
fn units_in(w: u64) -> u64
    ensures { (result ≡ units_in w) × (result < units_in_word) }
{
    w % UNITS_IN_WORD
}

// The starts and the ends of holds.
#[derive(Drop)]
pub(crate) struct Holds {
    starts: SortedWords,
    ends: SortedWords,
}

impl Holds {
    pub(crate) fn new() -> Self
        ensures { (result.starts ≡ []) × (result.ends ≡ []) }
    {
        Holds {
            starts: SortedWords::new(),
            ends: SortedWords::new(),
        }
    }

    // Enters a hold of units. Cost: two insertions, which go from the back.
    pub(crate) fn enter(&mut self, start: u64, end: u64, units: u16)
        requires { (size self.old.starts < 64) × (size self.old.ends < 64) × (start ≤ most_time) × (end ≤ most_time) }
        ensures { Inserted self.old.starts (event_word start units) self.new.starts × Inserted self.old.ends (event_word end units) self.new.ends }
    {
        self.starts.insert(event(start, units));
        self.ends.insert(event(end, units));
    }

    // The first time, not before `from`, with no more than `room` units in use over the whole length. The candidate s moves on to the next
    // end where there is no room. An end goes before a start of the same time.
    // Cost: one pass over the events up to the end of the hold, five tests at most for each.
    fn first_fit(&self, room: u64, from: u64, length: u64) -> u64
        requires { Events 0 self.now.starts self.now.ends × (size self.now.ends ≤ 64) × (from ≤ most_end) × (1 ≤ length)
            × (length ≤ most_length) }
        ensures { FirstFit 0 self.now.starts self.now.ends room from length result }
    {
        let starts = self.starts.as_slice();
        let mut s = from;
        let mut used: u64 = 0;
        let mut i: usize = 0;
        for end in self.ends.as_slice() {
            let e = time_in(*end);
            // The starts before this end.
            while i < starts.len() && time_in(starts[i]) < e {
                let w = starts[i];
                if used <= room && s + length <= time_in(w) {
                    return s;
                }
                used += units_in(w);
                i += 1;
            }
            if used <= room {
                if s + length <= e {
                    return s;
                }
            } else {
                s = s.max(e);
            }
            used -= units_in(*end);
        }
        s
    }

    // The first time, not before `from`, at which so many units of a pool are free beside the holds for the whole length; a hold from then
    // on is entered. Cost: the sweep, and two insertions.
    pub(crate) fn enter_first_fit(&mut self, pool: u16, units: u16, from: u64, length: u32) -> u64
        requires { Events 0 self.old.starts self.old.ends × (size self.old.starts < 64) × (size self.old.starts ≡ size self.old.ends)
            × (units ≤ pool) × (from ≤ most_end) × (1 ≤ length) × (length ≤ most_length) }
        ensures fit { FirstFit 0 self.old.starts self.old.ends (pool - units) from length result }
        ensures entered { Inserted self.old.starts (event_word result units) self.new.starts
            × Inserted self.old.ends (event_word (result + length) units) self.new.ends }
    {
        let hold = u64::from(length);
        let s = self.first_fit(u64::from(pool - units), from, hold);
        self.enter(s, s + hold, units);
        s
    }
}
