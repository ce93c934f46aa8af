//! The words of a line: the stretches between its spaces.

ghost use Rattle.std.specs.Prelude.{◌≡◌, ◌<◌, ◌+◌, ◌==◌, [], ◌∷◌, None, IfSome, length, take, drop, slice_get};
ghost use Rattle.std.specs.Option.{option_map};
ghost use Rattle.std.specs.List.{slice_split};
ghost use Rattle.script_lines.specs.Lines.{words_of, word, is_word};

use memchr::memchr;

/// Returns how many words the line has: one more than it has spaces.
#[tactic(auto, unfolding(crate::specs::Lines::words_of))]
pub fn count_words(line: &[u8]) -> usize
    ensures { result ≡ length (words_of line.now) }
{
    line.iter().filter(|b| **b == b' ').count() + 1
}

/// The word at a place, counted from 0, if there is one.
fn nth_word(line: &[u8], place: usize) -> Option<&[u8]>
    ensures { option_map (λ w. w.now) result
        ≡ slice_get (slice_split (λ b. b == 32) line.now) place }
{
    line.split(|b| *b == b' ').nth(place)
}

/// Returns the word at a place, counted from 0; empty where there is none.
#[tactic(auto, unfolding(crate::specs::Lines::word, crate::specs::Lines::words_of))]
pub fn word(line: &[u8], place: usize) -> &[u8]
    ensures { result.now ≡ word line.now place }
{
    match nth_word(line, place) {
        Some(found) => found,
        None => &[],
    }
}

/// The place of the first space, after which the second word begins.
pub(crate) fn first_space(line: &[u8]) -> Option<usize>
    ensures within { IfSome result (λ end. end < length line.now) }
    ensures some { IfSome result
        (λ end. words_of line.now ≡ take end line.now ∷ words_of (drop (end + 1) line.now)) }
    ensures none { result ≡ None → words_of line.now ≡ line.now ∷ [] }
{
    memchr(b' ', line)
}

/// Says whether the word at a place, counted from 0, is this one.
pub fn is_word(line: &[u8], place: usize, wanted: &str) -> bool
    ensures { result ≡ is_word line.now place wanted.now }
{
    word(line, place) == wanted.as_bytes()
}
