//! Which places of a row are filled: a bit for each, in words, a bit for each word that has one, and so on up to one word.
ghost use Rattle.std.specs.Prelude.{◌≡◌, ◌≢◌, ℕ, Bool, List, false, ◌+◌, ◌*◌, ◌%◌, ◌^◌, ◌<◌, ◌≤◌, length, replicate, slice_index, slice_set, IfOk, IfSome, if◌then◌else◌};
ghost use Rattle.key_index_parts.specs.Bitmap.{IsFirstFrom, IsLastBelow, flag_at, word_has, words_have, flags_of, IsSummary, IsRow};
ghost use Rattle.key_index_parts.specs.Prefix.{partition_count};

use std::alloc::{AllocError, Global};
use std::marker::Model;

/// A row of places, each filled or not.
trait Places {
    ghost filled: { Self → ℕ → Bool };

    ghost size: { Self → ℕ };

    /// The least filled place from a start on.
    fn first_from(&self, start: usize) -> Option<usize>
        ensures first { IsFirstFrom (filled self.now) start result }
        ensures within { IfSome result (λ place. place < size self.now) };

    /// The greatest filled place below an end.
    fn last_below(&self, end: usize) -> Option<usize>
        ensures last { IsLastBelow (filled self.now) end result }
        ensures within { IfSome result (λ place. place < size self.now) };

    /// Fills a place or empties it.
    fn set(&mut self, place: usize, fills: bool)
        requires { place < size self.old }
        ensures here { filled self.new place ≡ fills }
        ensures elsewhere { (p : ℕ) → p ≢ place → filled self.new p ≡ filled self.old p }
        ensures size { size self.new ≡ size self.old };
}

/// The lowest bits of a word, so many, and no others.
fn low_bits(word: u64, count: usize) -> u64
    ensures { result ≡ word % 2 ^ count }
{
    if count < 64 {
        word & ((1 << count) - 1)
    } else {
        word
    }
}

impl Places for u64 {
    ghost filled = { word_has };

    ghost size = { λ _. 64 };

    fn first_from(&self, start: usize) -> Option<usize> {
        let word = *self;
        if start >= 64 {
            return None;
        }
        let rest = word >> start;
        if rest == 0 {
            return None;
        }
        Some(start + rest.trailing_zeros() as usize)
    }

    fn last_below(&self, end: usize) -> Option<usize> {
        let rest = low_bits(*self, end);
        if rest == 0 {
            return None;
        }
        Some(rest.ilog2() as usize)
    }

    fn set(&mut self, place: usize, fills: bool) {
        let word = *self;
        *self = if fills {
            word | 1 << place
        } else {
            word & !(1 << place)
        };
    }
}

/// The word at a place, and one with no bit past the last.
fn word_at(words: &[u64], place: usize) -> u64
    ensures { result ≡ slice_index words.now place }
{
    match words.get(place) {
        Some(word) => *word,
        None => 0,
    }
}

/// Words, and above them places that are filled exactly where a word has a bit.
#[derive(Drop)]
struct Layer<S: Places> {
    words: Vec<u64>,
    summary: S,
}

impl<S: Places> Model for Layer<S> {
    ghost Value = { List ℕ };

    ghost view = { λ l. l.words.items };

    ghost invariant = { λ l. IsSummary (S.filled l.summary) (S.size l.summary) l.words.items };
}

/// So many words, none with a bit, under a row of as many places or more, none of them filled.
fn empty_layer<S: Places + Drop>(
    alloc: Global,
    count: usize,
    summary: S,
) -> Result<Layer<S>, AllocError>
    requires covered { count ≤ S.size summary }
    requires fits { count * 64 ≤ 2 ^ 64 }
    requires empty { (p : ℕ) → S.filled summary p ≡ false }
    ensures { IfOk result (λ layer. layer ≡ replicate count 0) }
{
    let words = vec![in alloc; 0u64; count]?;
    Ok(Layer { words, summary })
}

impl<S: Places> Places for Layer<S> {
    ghost filled = { words_have };

    ghost size = { λ words. length words * 64 };

    fn first_from(&self, start: usize) -> Option<usize> {
        let place = start / 64;
        if let Some(within) = word_at(&self.words, place).first_from(start % 64) {
            return Some(place * 64 + within);
        }
        let place = self.summary.first_from(place + 1)?;
        let within = word_at(&self.words, place).first_from(0)?;
        Some(place * 64 + within)
    }

    fn last_below(&self, end: usize) -> Option<usize> {
        let place = end / 64;
        if let Some(within) = word_at(&self.words, place).last_below(end % 64) {
            return Some(place * 64 + within);
        }
        let place = self.summary.last_below(place)?;
        let within = word_at(&self.words, place).last_below(64)?;
        Some(place * 64 + within)
    }

    fn set(&mut self, place: usize, fills: bool) {
        let before = self.words[place / 64];
        let mut word = before;
        word.set(place % 64, fills);
        if word == before {
            return;
        }
        self.words[place / 64] = word;
        self.summary.set(place / 64, word != 0);
    }
}

/// Which of so many places are filled. Each call but `new` reads and writes at most seven words, however far apart filled places are.
#[derive(Drop)]
pub(super) struct Bitmap {
    count: usize,
    places: Layer<Layer<Layer<u64>>>,
}

impl Model for Bitmap {
    ghost Value = { List Bool };

    ghost view = { λ f. flags_of f.places f.count };

    ghost invariant = { λ f. IsRow f.places f.count };
}

impl Bitmap {
    /// So many places, none of them filled. It takes their memory at once, and no other call takes any.
    pub(super) fn new(alloc: Global, count: usize) -> Result<Bitmap, AllocError>
        requires { count ≤ partition_count 3 }
        ensures { IfOk result (λ filled. filled ≡ replicate count false) }
    {
        let words = count.div_ceil(64);
        let upper = words.div_ceil(64);
        let top = empty_layer(alloc, upper.div_ceil(64), 0u64)?;
        let upper = empty_layer(alloc, upper, top)?;
        let places = empty_layer(alloc, words, upper)?;
        Ok(Bitmap { count, places })
    }

    /// Fills a place or empties it.
    pub(super) fn set(&mut self, place: usize, fills: bool)
        requires { place < length self.old }
        ensures { self.new ≡ slice_set self.old place fills }
    {
        self.places.set(place, fills);
    }

    /// `set`, where it is told that this changes anything.
    #[inline]
    pub(super) fn set_if(&mut self, changes: bool, place: usize, fills: bool)
        requires { place < length self.old }
        ensures { self.new ≡ (if changes then slice_set self.old place fills else self.old) }
    {
        if changes {
            self.set(place, fills);
        }
    }

    /// The first filled place from a start on.
    pub(super) fn first_from(&self, start: usize) -> Option<usize>
        ensures { IsFirstFrom (flag_at self.now) start result }
    {
        self.places.first_from(start)
    }

    /// The last filled place below an end.
    pub(super) fn last_below(&self, end: usize) -> Option<usize>
        ensures { IsLastBelow (flag_at self.now) end result }
    {
        self.places.last_below(end)
    }
}
