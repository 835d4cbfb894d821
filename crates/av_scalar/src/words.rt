ghost use Rattle.std.specs.Prelude.{◌≡◌, slice_index_or, slice_set};
ghost use Rattle.av_bits.specs.Pattern.{pattern_of};

use av_affine::Seq;
use av_bits::{Width, wrap};

/// The word of this place, and 0 where there is none.
pub fn word_at(words: &[u64], place: u64) -> u64
    ensures { result ≡ slice_index_or words.now place 0 }
{
    let place = place as usize;
    if place < words.len() { words[place] } else { 0 }
}

/// Puts a word in its place, if there is one.
pub fn put(words: &mut Seq<u64>, place: u64, word: u64)
    ensures { words.new ≡ slice_set words.old place word }
{
    let place = place as usize;
    if place < words.len() {
        words.set(place, word);
    }
}

/// The word of an index.
pub fn index_word(index: i64) -> u64
    ensures { result ≡ pattern_of 64 index }
{
    wrap(Width::W64, i128::from(index))
}
