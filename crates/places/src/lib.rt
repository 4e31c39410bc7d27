//! Addresses, sets, offsets in a set and words of a row: the one rule between them (rule 2.5 of
//! docs/MEMORY.md), and where each stands in the lent tables (section 3 there). Only this crate
//! makes them of numbers or takes them apart, so that elsewhere none can be taken for another,
//! added to it or compared with it.
#![tactic(auto)]

mod walk;

ghost use Rattle.std.specs.Prelude.{ℕ, ◌+◌, ◌*◌, ◌/◌, ◌%◌, ◌<◌, ◌≡◌, if◌then◌else◌, ◌==◌, nat_lt, nat_le, length, slice_index, slice_index_or, slice_set};
ghost use Rattle.std.specs.Int.Count.{count_trailing_zeros};
ghost use Rattle.words.specs.Bits.{clear_bit, bits_from, row_mask};
ghost use Rattle.geometry.specs.Sizes.{sets, set_of, offset_of, address_of, set_length};
ghost use Rattle.reference.specs.Entry.{empty_word};
ghost use Rattle.places.specs.Lines.{IsLine};
ghost use Rattle.places.specs.Bits.{word_place, row_bit, indicators_with, matches_with};

use geometry::Geometry;
use sizes::{Layout, Sizes};
use std::marker::Model;
use walk::Place;
pub use walk::{Sets, Walk};

/// An address: any number from a caller, or that of a set and an offset.
#[derive(Clone, Copy, Debug, PartialEq, Eq)]
pub struct Address(u32);

/// The number of a set. That the geometry has such a set is not part of it: a function that needs
/// one of the geometry's sets asks for it.
#[derive(Clone, Copy)]
pub struct SetIndex(u32);

impl Model for SetIndex {
    ghost Value = { ℕ };

    ghost view = { λ set. set.0 };

    ghost inverse = { λ n. record { 0 = n } };
}

/// Where an address stands in its set, counted from the set's first, which has offset 0.
#[derive(Clone, Copy)]
pub struct Offset(u32);

impl Model for Offset {
    ghost Value = { ℕ };

    ghost view = { λ offset. offset.0 };

    ghost inverse = { λ n. record { 0 = n } };
}

/// How many addresses a set has, 1 to 64. Only a set gives it, and only its offsets and a count are
/// made of it.
#[derive(Clone, Copy)]
pub struct SetLength(u16);

impl Model for SetLength {
    ghost Value = { ℕ };

    ghost view = { λ length. length.0 };

    ghost inverse = { λ n. record { 0 = n } };
}

/// Which word of a row, counted from the row's first, which is word 0.
#[derive(Clone, Copy)]
pub struct RowWord(usize);

impl Model for RowWord {
    ghost Value = { ℕ };

    ghost view = { λ word. word.0 };

    ghost inverse = { λ n. record { 0 = n } };
}

impl Place for Address {
    ghost use Rattle.places.specs.Address.{address_number};

    ghost number = { address_number };

    fn at(n: u32) -> Self {
        Address(n)
    }
}

impl Place for Offset {
    ghost number = { λ offset. offset };

    fn at(n: u32) -> Self {
        Offset(n)
    }
}

impl Place for RowWord {
    ghost number = { λ word. word };

    fn at(n: u32) -> Self {
        RowWord(n as usize)
    }
}

impl Address {
    ghost use Rattle.places.specs.Address.{address_number};
    ghost use Rattle.places.specs.Walks.{Spans};

    /// The address of a number that a caller has, which may be none of a geometry's.
    /// tests/types_apart says which files may ask.
    pub fn new(number: u32) -> Self
        ensures { address_number result ≡ number }
    {
        Address(number)
    }

    /// All addresses of the geometry, in their order.
    pub fn all(layout: Layout) -> Walk<Address>
        ensures { Spans result 0 layout.geometry.depth }
    {
        Walk::to(layout.geometry.depth)
    }

    /// Its number, for an answer. tests/types_apart says which files may ask.
    pub fn number(self) -> u32
        ensures { result ≡ address_number self }
    {
        self.0
    }

    /// Whether it is none of the geometry's addresses (row 3 of rule 9.1).
    pub fn is_outside(self, g: Geometry) -> bool
        ensures { result ≡ nat_le g.depth (address_number self) }
    {
        g.depth <= self.0
    }

    /// The set that it lies in (rule 2.5).
    pub fn set(self, layout: Layout) -> SetIndex
        ensures { result ≡ set_of layout.geometry (address_number self) }
    {
        SetIndex(self.0 / layout.geometry.set_width)
    }

    /// Where it lies in its set (rule 2.5).
    pub fn offset(self, layout: Layout) -> Offset
        ensures { result ≡ offset_of layout.geometry (address_number self) }
    {
        Offset(self.0 % layout.geometry.set_width)
    }
}

// An address in the tables. The check of the call shows that the store and the match word have
// their lengths and that a caller's address is below the depth; that of a set and an offset is so
// by the rule.
impl Address {
    ghost use Rattle.places.specs.Address.{address_number};

    /// Its word of the store (rule 3.1).
    pub fn word(self, store: &[u32]) -> u32
        requires { address_number self < length store.now }
        ensures { result ≡ slice_index_or store.now (address_number self) empty_word }
    {
        store[self.0 as usize]
    }

    /// Its word of the store becomes `word`.
    pub fn put(self, store: &mut [u32], word: u32)
        requires { address_number self < length store.old }
        ensures { store.new ≡ slice_set store.old (address_number self) word }
    {
        let at = self.0 as usize;
        store[at] = word;
    }

    /// Its bit of the match word becomes 1 (rule 3.7).
    pub fn mark(self, matches: &mut [u64])
        requires { address_number self / 64 < length matches.old }
        ensures { matches.new ≡ matches_with matches.old (address_number self) }
    {
        words::put_bit(matches, (self.0 / 64) as usize, self.0 % 64, true);
    }
}

impl SetIndex {
    ghost use Rattle.places.specs.Address.{address_number};

    /// The set of a number that a caller has, for the line, which may be none of a geometry's.
    /// tests/types_apart says which files may ask.
    pub fn from_caller(number: u32) -> Self
        ensures { result ≡ number }
    {
        SetIndex(number)
    }

    /// The first set of all.
    pub fn first() -> Self
        ensures { result ≡ 0 }
    {
        SetIndex(0)
    }

    /// The set after it. After the last set that is a number that no set has.
    pub fn next(self, layout: Layout) -> Self
        requires { self < sets layout.geometry }
        ensures { result ≡ self + 1 }
    {
        SetIndex(self.0 + 1)
    }

    /// Whether it is none of the geometry's sets.
    pub fn is_outside(self, sizes: Sizes) -> bool
        ensures { result ≡ nat_le sizes.sets self }
    {
        sizes.sets <= self.0 as usize
    }

    /// The set of the lowest bit of `word`, which is word `at` of a row (rule 3.5); of a word that
    /// is 0 the number behind those of its bits. A row has 64 words at most.
    pub fn lowest(word: u64, at: RowWord) -> Self
        requires { at < 64 }
        ensures { result ≡ 64 * at + count_trailing_zeros 64 word }
    {
        SetIndex(64 * at.0 as u32 + word.trailing_zeros())
    }

    /// How many addresses it has, the last set those that are left (rule 2.7).
    pub fn length(self, layout: Layout) -> SetLength
        requires { self < sets layout.geometry }
        ensures { result ≡ set_length layout.geometry self }
    {
        let g = layout.geometry;
        let left = g.depth - g.set_width * self.0;
        SetLength(g.set_width.min(left) as u16)
    }

    /// Its address at one of its offsets (rule 2.5).
    pub fn address(self, at: Offset, layout: Layout) -> Address
        requires { at < set_length layout.geometry self }
        ensures { address_number result ≡ address_of layout.geometry self at }
    {
        Address(layout.geometry.set_width * self.0 + at.0)
    }
}

// A set in the tables, where it has a bit in each row. That the word with its bit is one of the
// indicators follows from their length, which the check of the call has tested.
impl SetIndex {
    /// Its bit of a row becomes `value` (rule 3.5).
    pub fn put_bit(self, indicators: &mut [u64], row: usize, sizes: Sizes, value: bool)
        requires { word_place sizes row (self / 64) < length indicators.old }
        ensures { indicators.new ≡ indicators_with value sizes indicators.old row self }
    {
        let at = sizes.row_words * row + (self.0 / 64) as usize;
        words::put_bit(indicators, at, self.0 % 64, value);
    }

    /// Whether its bit of a row is 1 (rule 3.5).
    pub fn has_bit(self, indicators: &[u64], row: usize, sizes: Sizes) -> bool
        requires { word_place sizes row (self / 64) < length indicators.now }
        ensures { result ≡ row_bit sizes indicators.now row self }
    {
        let at = sizes.row_words * row + (self.0 / 64) as usize;
        words::has_bit(indicators[at], self.0 % 64)
    }

    /// A word of a row without its bit; the other bits stay as they are.
    pub fn without(self, word: u64) -> u64
        ensures { result ≡ clear_bit word (self % 64) }
    {
        words::without_bit(word, self.0 % 64)
    }

    /// Word `at` of a row, which is `word`, for a search from this set on: the one that has its bit
    /// loses those of the sets before it (rule 8.14).
    pub fn search_word(self, word: u64, at: RowWord) -> u64
        ensures { result ≡ (if at == self / 64 then bits_from word (self % 64) else word) }
    {
        if at.0 == (self.0 / 64) as usize {
            words::bits_from(word, self.0 % 64)
        } else {
            word
        }
    }

    /// Its line (rule 11.1): that part of the store itself, no copy.
    pub fn line(self, store: &[u32], layout: Layout) -> &[u32]
        requires whole { length store.now ≡ layout.geometry.depth }
        requires is_set { self < sets layout.geometry }
        ensures { IsLine layout.geometry store.entry result self }
    {
        let from = self.address(Offset::first(), layout).0 as usize;
        let to = from + usize::from(self.length(layout).0);
        &store[from..to]
    }
}

impl SetLength {
    ghost use Rattle.places.specs.Walks.{Spans};

    /// The number of entries in the set's line, for the count of an answer (rule 8.10).
    /// tests/types_apart says which files may ask.
    pub fn entries(self) -> u16
        ensures { result ≡ self }
    {
        self.0
    }

    /// All offsets in the set, in their order.
    pub fn offsets(self) -> Walk<Offset>
        ensures { Spans result 0 self }
    {
        Walk::to(u32::from(self.0))
    }

    /// The offsets in the set above one of them, in their order.
    pub fn offsets_above(self, at: Offset) -> Walk<Offset>
        requires { at < self }
        ensures { Spans result (at + 1) self }
    {
        Walk::between(at.0 + 1, u32::from(self.0))
    }
}

impl Offset {
    /// The offset of a set's first address.
    pub fn first() -> Self
        ensures { result ≡ 0 }
    {
        Offset(0)
    }

    /// The next one. A set has 64 addresses at most.
    pub fn next(self) -> Self
        requires { self < 64 }
        ensures { result ≡ self + 1 }
    {
        Offset(self.0 + 1)
    }

    /// Whether a set of that length has it.
    pub fn is_within(self, length: SetLength) -> bool
        ensures { result ≡ nat_lt self length }
    {
        self.0 < u32::from(length.0)
    }
}

impl RowWord {
    ghost use Rattle.places.specs.Walks.{Spans, WalksBits};

    /// The first word of a row.
    pub fn first() -> Self
        ensures { result ≡ 0 }
    {
        RowWord(0)
    }

    /// The next one. A row has 64 words at most.
    pub fn next(self) -> Self
        requires { self < 64 }
        ensures { result ≡ self + 1 }
    {
        RowWord(self.0 + 1)
    }

    /// Whether a row has that word.
    pub fn is_within(self, sizes: Sizes) -> bool
        ensures { result ≡ nat_lt self sizes.row_words }
    {
        self.0 < sizes.row_words
    }

    /// All words of a row, in their order.
    pub fn all(layout: Layout) -> Walk<RowWord>
        ensures { Spans result 0 layout.sizes.row_words }
    {
        RowWord::from_set(SetIndex::first(), layout)
    }

    /// The words of a row from the one with a set's bit on.
    pub fn from_set(set: SetIndex, layout: Layout) -> Walk<RowWord>
        ensures { Spans result (set / 64) layout.sizes.row_words }
    {
        Walk::between(set.0 / 64, layout.sizes.row_words as u32)
    }

    /// The bits of the word that belong to sets. The others are padding (rule 3.6).
    pub fn mask(self, sizes: Sizes) -> u64
        ensures { result ≡ row_mask sizes.sets self }
    {
        words::row_mask(sizes.sets, self.0)
    }

    /// The word of a row of the indicators (rule 3.4).
    pub fn read(self, indicators: &[u64], row: usize, sizes: Sizes) -> u64
        requires { word_place sizes row self < length indicators.now }
        ensures { result ≡ slice_index indicators.now (word_place sizes row self) }
    {
        indicators[sizes.row_words * row + self.0]
    }

    /// The sets whose bits `word`, which is this word of a row, has (rule 3.5), from the lowest on.
    /// A row has 64 words at most.
    pub fn sets(self, word: u64) -> Sets
        requires { self < 64 }
        ensures { WalksBits result word self }
    {
        Sets::of(word, self)
    }
}
