// `frame_listing`'s call for C, in a static library.
#![tactic(auto)]

ghost use Rattle.std.specs.Prelude.{◌≡◌};
ghost use Rattle.frame_listing.specs.Text.{beat_of, listed_out, listing_values};

#[unsafe(no_mangle)]
pub extern "C" fn belgwyth_beat(text: &[u8], out: &mut [u8]) -> usize
    ensures answer { result ≡ beat_of (listing_values text.now out.old) }
    ensures buffer { out.new ≡ listed_out text.now out.old }
{
    frame_listing::belgwyth_beat(text, out)
}
