//! Bits of 64-bit words and of slices of words: one bit changed or asked, the mask of a row, and
//! counts of ones. Nothing here knows of memories.
#![tactic(auto)]

ghost use Rattle.std.specs.Prelude.{◌<◌, ◌≤◌, ◌≡◌, length};
ghost use Rattle.words.specs.Rules.{count};
ghost use Rattle.words.specs.Bits.{bit, put_bit, clear_bit, bits_from, change_bit, row_mask, total_ones};

/// Bit `bit` of word `at` is set where `value` holds, and else cleared. Bit 0 is worth 1, and no
/// other bit changes.
pub fn put_bit(words: &mut [u64], at: usize, bit: u32, value: bool)
    requires within { at < length words.old }
    requires is_bit { bit < 64 }
    ensures { words.new ≡ change_bit (put_bit value) words.old at bit }
{
    words[at] = if value {
        words[at] | (1u64 << bit)
    } else {
        without_bit(words[at], bit)
    };
}

/// The word with bit `bit` cleared.
pub fn without_bit(word: u64, bit: u32) -> u64
    requires { bit < 64 }
    ensures { result ≡ clear_bit word bit }
{
    word & !(1u64 << bit)
}

/// The word without its bits below bit `at`; the others stay where they are.
pub fn bits_from(word: u64, at: u32) -> u64
    requires { at < 64 }
    ensures { result ≡ bits_from word at }
{
    word >> at << at
}

/// Whether bit `at` of the word is 1.
pub fn has_bit(word: u64, at: u32) -> bool
    requires { at < 64 }
    ensures { result ≡ bit word at }
{
    (word >> at) % 2 == 1
}

/// The mask that drops a row's padding. The row has a bit for each of `places` places, 64 in a
/// word: those bits of its word `word` that stand for a place are 1. It is 0 behind the last place.
pub fn row_mask(places: usize, word: usize) -> u64
    ensures { result ≡ row_mask places word }
{
    if word < places / 64 {
        return 0xffff_ffff_ffff_ffff;
    }
    if places / 64 < word {
        return 0;
    }
    (1u64 << (places % 64)) - 1
}

/// How many bits of the word are 1.
pub fn ones(word: u64) -> u32
    ensures { result ≡ count 64 (bit word) }
{
    word.count_ones()
}

/// How many bits of all words are 1. There may be 64 words, so that it is 4,096 at most.
pub fn total_ones(words: &[u64]) -> u32
    requires { length words.now ≤ 64 }
    ensures { result ≡ total_ones words.now }
{
    words.iter().map(|word| ones(*word)).sum()
}
