//! A call, the answer to it and the entries in it, as the code has them; and entries as words of
//! the store.
#![tactic(auto)]

ghost use Rattle.std.specs.Prelude.{ℕ, ◌<◌, ◌≡◌, if◌then◌else◌, ◌||◌, List, length, ◌==◌, nat_lt};
ghost use Rattle.reference.specs.Entry.{empty, pattern, empty_word, word_of};
ghost use Rattle.checks.specs.Checks.{result_map};
ghost use Rattle.places.specs.Address.{address_number};
ghost use Rattle.calls.specs.Answers.{entry_for, checked_entry, tables};

use checks::Refusal;
use places::Address;
use sizes::Layout;

/// What an address holds: a pattern, or `None` where it is empty.
pub type Entry = Option<u32>;

/// A call, with all that it is given but the tables and the match word (docs/MEMORY.md, section 7).
#[derive(Clone, Copy, Debug, PartialEq, Eq)]
pub enum Call {
    /// Every address becomes empty.
    Clear,
    /// The pattern comes to the address.
    Write(Address, u32),
    /// The address becomes empty.
    Erase(Address),
    /// What the address holds.
    Read(Address),
    /// With the key.
    FirstMatch(u32),
    /// With the address above which it looks, and the key.
    NextMatch(Address, u32),
    /// With the key.
    AllMatch(u32),
}

/// What a first-match comes to (rule 7.6).
#[derive(Clone, Copy, Debug, PartialEq, Eq)]
pub struct Search {
    /// The address, or none.
    pub address: Option<Address>,
    /// The words of the joined row that were looked at: w, at most 64 (rule 8.10).
    pub words_read: u16,
    /// The entries of the line that was fetched: c, at most 64 (rule 8.10).
    pub entries_compared: u16,
}

/// What comes back of a call that is not refused (docs/MEMORY.md, section 7).
#[derive(Clone, Copy, Debug, PartialEq, Eq)]
pub enum Answer {
    /// Of a clear.
    Cleared,
    /// Of a write, an erase or a read: the entry that the address has, or had before the call.
    Held(Entry),
    /// Of a first-match.
    Searched(Search),
    /// Of a next-match: the address, or none.
    Next(Option<Address>),
    /// Of an all-match: its hits. The match word itself is in the lent one.
    Matched { hits: u32 },
}

/// The word of an entry in the store: that of empty is 0xffffffff (rule 3.2).
pub fn word(entry: Entry) -> u32
    ensures { result ≡ word_of (entry_for entry) }
{
    entry.unwrap_or(0xffff_ffff)
}

/// Whether a word of the store is empty or one of so many patterns (rule 3.2).
pub fn is_sound(word: u32, patterns: u32) -> bool
    ensures { result ≡ (word == empty_word || nat_lt word patterns) }
{
    word == 0xffff_ffff || word < patterns
}

/// What a word of the store holds, where there are so many patterns. One that is neither empty nor
/// a pattern holds nothing (rule 6.1).
pub fn entry_of(word: u32, patterns: u32) -> Entry
    ensures { entry_for result ≡ (if nat_lt word patterns then pattern word else empty) }
{
    (word < patterns).then_some(word)
}

/// What an address of the store holds, or refusal 5 where its word is neither empty nor a pattern
/// (rule 9.1). The indicators are not looked at.
pub fn entry_at(layout: Layout, store: &[u32], address: Address) -> Result<Entry, Refusal>
    requires { address_number address < length store.now }
    ensures { (indicators : List ℕ) → result_map entry_for result
        ≡ checked_entry layout.geometry (tables store.now indicators) (address_number address) }
{
    let word = address.word(store);
    let patterns = layout.sizes.patterns;
    checks::row(Refusal::BadEntry, !is_sound(word, patterns))?;
    Ok(entry_of(word, patterns))
}
