// `listing`'s call for C, in a static library.
#![tactic(auto)]

ghost use Rattle.std.specs.Prelude.{◌≡◌};
ghost use Rattle.numerals.specs.Laid.{lent_out};
ghost use Rattle.listing.specs.Text.{answer_of, listing_of};

#[unsafe(no_mangle)]
pub extern "C" fn belgwyth_listing(load: &[u8], out: &mut [u8]) -> usize
    ensures answer { result ≡ answer_of (listing_of load.now) out.old }
    ensures buffer { out.new ≡ lent_out (listing_of load.now) out.old }
{
    listing::belgwyth_listing(load, out)
}
