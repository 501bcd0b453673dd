// The plan of a row of pending claims, in code: packing, placing, granting. For the crates `chains` and `table` alone: the functions ask for
// claims in range (`InRange`), which a table's calls hand them. What a show can call is `table`.
// Packing n claims costs at most n² / 4 + n tests of two words and two steps for each group of each claim, and for each claim that draws
// units a sweep over those that do; the search for a claim's start n² / 2 tests of two holds, or insertions and a sweep; granting two passes.
#![tactic(auto)]

mod ends;
mod granting;
mod packing;
mod placing;
mod pool;
mod sorted;

pub use ends::{end_of, time_left};
pub use granting::{grant, units_held};
pub use packing::pack;
pub use placing::place;
