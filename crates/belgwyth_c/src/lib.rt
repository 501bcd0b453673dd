// The calls for C in one static library: those of `belgwyth`, each under its own name.
#![tactic(auto)]

ghost use Rattle.std.specs.Prelude.{◌≡◌};
ghost use Rattle.numerals.specs.Laid.{lent_out};
ghost use Rattle.listing.specs.Text.{answer_of, listing_of};
ghost use Rattle.frame_listing.specs.Text.{beat_of, listed_out, listing_values};
ghost use Rattle.generator.specs.Workload.{returned, workload_answer, workload_out};

#[unsafe(no_mangle)]
pub extern "C" fn belgwyth_listing(load: &[u8], out: &mut [u8]) -> usize
    ensures answer { result ≡ answer_of (listing_of load.now) out.old }
    ensures buffer { out.new ≡ lent_out (listing_of load.now) out.old }
{
    belgwyth::belgwyth_listing(load, out)
}

#[unsafe(no_mangle)]
pub extern "C" fn belgwyth_beat(text: &[u8], out: &mut [u8]) -> usize
    ensures answer { result ≡ beat_of (listing_values text.now out.old) }
    ensures buffer { out.new ≡ listed_out text.now out.old }
{
    belgwyth::belgwyth_beat(text, out)
}

#[unsafe(no_mangle)]
pub extern "C" fn belgwyth_workload(seed: u32, count: u32, out: &mut [u8]) -> usize
    ensures answer { result ≡ returned (workload_answer seed count out.old) }
    ensures buffer { out.new ≡ workload_out seed count out.old }
{
    belgwyth::belgwyth_workload(seed, count, out)
}
