// The names of the kinds, as words that are read and as texts that are printed. proofs/Tables holds them against format's names.
ghost use Rattle.std.specs.Prelude.{◌≡◌, [], get_or};
ghost use Rattle.numerals.specs.Pages.{Lays};
ghost use Rattle.format.specs.Format.{name_of, names};
ghost use Rattle.words.specs.Words.{is_word};
ghost use Rattle.load_text.specs.Parsing.{edition_word, kind_named};

use format::kinds;
use numerals::Page;

// The name of a kind; empty for a kind that there is not.
#[tactic(auto, unfolding(format::specs::Format::names))]
fn name(kind: u8) -> &'static [u8]
    ensures { result.now ≡ get_or names kind [] }
{
    match kind {
        kinds::RIG => b"rig",
        kinds::CLAIM => b"claim",
        kinds::RELEASE => b"release",
        kinds::WITHDRAW => b"withdraw",
        kinds::CLOCK => b"clock",
        kinds::DECLARATION => b"desk",
        kinds::GRACE => b"grace",
        _ => b"",
    }
}

// The kind that a word names in an edition.
pub(crate) fn kind_named(edition: u8, word: &[u8]) -> Option<u8>
    ensures { result ≡ kind_named edition word.now }
{
    for kind in 0..kinds::BOUND {
        if word == name(kind) {
            return if format::has_kind(edition, kind) {
                Some(kind)
            } else {
                None
            };
        }
    }
    None
}

// Whether a word is the one that a line with an edition begins with.
pub(crate) fn is_edition(word: &[u8]) -> bool
    ensures { result ≡ is_word word.now edition_word }
{
    word == b"edition".as_slice()
}

// A kind's name, unless the edition lacks the kind.
pub(crate) fn put_name(page: &mut Page<'_>, edition: u8, kind: u8)
    ensures { Lays page.old (name_of edition kind) page.new }
{
    if format::has_kind(edition, kind) {
        page.bytes(name(kind));
    }
}
