ghost use Rattle.std.specs.Prelude.{◌≡◌, ◌+◌, ◌*◌, ◌≤◌, ◌<◌, ◌||◌, ◌&&◌, ◌==◌, ◌/◌, not, ℕ, length, false, MatchBool};
ghost use Rattle.bitset.specs.Bits.{Grew, SameMembers, is_set};
ghost use Rattle.bitset.specs.Words.{ChangedIn, MinusBelow, UnionIn};

use std::simd::Simd;

/// How many words a vector has.
const LANES: usize = 8;

/// Joins eight words from `at` on to those of `other`, and says whether one of them changed.
fn join_lanes(words: &mut [u64], other: &[u64], at: usize) -> bool
    requires inside { at + 8 ≤ length words.old }
    requires same_length { length words.old ≡ length other.now }
    ensures union { UnionIn at (at + 8) other.now words.old words.new }
    ensures changed { ChangedIn at (at + 8) words.old words.new result }
{
    let old = Simd::<u64, LANES>::from_slice(&words[at..]);
    let new = old | Simd::<u64, LANES>::from_slice(&other[at..]);
    new.copy_to_slice(&mut words[at..]);
    new.simd_ne(old).to_bitmask() != 0
}

/// Joins one word to that of `other`, and says whether it changed.
fn join_word(words: &mut [u64], other: &[u64], at: usize) -> bool
    requires inside { at < length words.old }
    requires same_length { length words.old ≡ length other.now }
    ensures union { UnionIn at (at + 1) other.now words.old words.new }
    ensures changed { ChangedIn at (at + 1) words.old words.new result }
{
    let old = words[at];
    words[at] = old | other[at];
    words[at] != old
}

/// Joins the words of the first `count` vectors to those of `other`, and says whether one changed.
fn join_vectors(words: &mut [u64], other: &[u64], count: usize) -> bool
    requires inside { 8 * count ≤ length words.old }
    requires same_length { length words.old ≡ length other.now }
    ensures union { UnionIn 0 (8 * count) other.now words.old words.new }
    ensures changed { ChangedIn 0 (8 * count) words.old words.new result }
{
    let mut changed = false;
    for i in 0..count {
        changed |= join_lanes(words, other, LANES * i);
    }
    changed
}

/// Joins the words from `from` on to those of `other`, and says whether one changed.
fn join_rest(words: &mut [u64], other: &[u64], from: usize) -> bool
    requires inside { from ≤ length words.old }
    requires same_length { length words.old ≡ length other.now }
    ensures union { UnionIn from (length words.old) other.now words.old words.new }
    ensures changed { ChangedIn from (length words.old) words.old words.new result }
{
    let mut changed = false;
    for at in from..words.len() {
        changed |= join_word(words, other, at);
    }
    changed
}

/// Joins all words to those of `other`, by vectors and then the rest one by one, and says whether one changed.
fn join_words(words: &mut [u64], other: &[u64]) -> bool
    requires { length words.old ≡ length other.now }
    ensures union { UnionIn 0 (length words.old) other.now words.old words.new }
    ensures changed { ChangedIn 0 (length words.old) words.old words.new result }
{
    if words.len() == 1 {
        return join_word(words, other, 0);
    }
    if words.len() < LANES {
        return join_rest(words, other, 0);
    }
    let vectors = words.len() / LANES;
    let first = join_vectors(words, other, vectors);
    let rest = join_rest(words, other, LANES * vectors);
    first || rest
}

/// Takes the bits of `other` out of the words.
fn clear_words(words: &mut [u64], other: &[u64])
    requires { length words.old ≡ length other.now }
    ensures { MinusBelow (length words.old) other.now words.old words.new }
{
    for k in 0..words.len() {
        words[k] &= !other[k];
    }
}

/// Adds the numbers of `other` to those of the words, and says whether some came in.
pub fn union_words(words: &mut [u64], other: &[u64]) -> bool
    requires { length words.old ≡ length other.now }
    ensures same_length { length words.new ≡ length words.old }
    ensures members { (i : ℕ) → is_set words.new i ≡ (is_set words.old i || is_set other.now i) }
    ensures grew { MatchBool result (Grew words.old words.new) (SameMembers words.old words.new) }
{
    join_words(words, other)
}

/// Takes the numbers of `other` out of those of the words.
pub fn minus_words(words: &mut [u64], other: &[u64])
    requires { length words.old ≡ length other.now }
    ensures same_length { length words.new ≡ length words.old }
    ensures members { (i : ℕ) → is_set words.new i ≡ (is_set words.old i && not (is_set other.now i)) }
{
    clear_words(words, other);
}

/// Whether `i` is among the numbers of the words.
pub fn has_number(words: &[u64], i: usize) -> bool
    requires { i / 64 < length words.now }
    ensures { result ≡ is_set words.now i }
{
    (words[i / 64] >> (i % 64)) & 1 == 1
}

/// Adds the number `i` to those of the words.
pub fn add_number(words: &mut [u64], i: usize)
    requires { i / 64 < length words.old }
    ensures same_length { length words.new ≡ length words.old }
    ensures members { (j : ℕ) → is_set words.new j ≡ (j == i || is_set words.old j) }
{
    words[i / 64] |= 1 << (i % 64);
}

/// Takes the number `i` out of those of the words.
pub fn drop_number(words: &mut [u64], i: usize)
    requires { i / 64 < length words.old }
    ensures same_length { length words.new ≡ length words.old }
    ensures members { (j : ℕ) → is_set words.new j ≡ (is_set words.old j && not (j == i)) }
{
    words[i / 64] &= !(1 << (i % 64));
}

/// Takes all numbers out of the words.
pub fn drop_all(words: &mut [u64])
    ensures same_length { length words.new ≡ length words.old }
    ensures empty { (i : ℕ) → is_set words.new i ≡ false }
{
    words.fill(0);
}
