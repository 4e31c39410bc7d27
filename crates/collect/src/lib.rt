//! All-match: whether an indicated set is false, and the addresses of the indicated sets that it
//! takes (rules 8.8 and 8.9 of docs/MEMORY.md). A joined word has no bit of padding, so that the
//! sets of its bits are ones of the geometry.
#![tactic(auto)]

ghost use Rattle.std.specs.Prelude.{◌<◌, ◌≡◌, length};
ghost use Rattle.geometry.specs.declared.Kind.TheVariants.{Segmented};
ghost use Rattle.geometry.specs.Sizes.{sets, row_words, match_words};
ghost use Rattle.reference.specs.Search.{any_is_false, is_taken};
ghost use Rattle.calls.specs.Answers.{geometry_in, tables_in};
ghost use Rattle.collect.specs.Taken.{joined_row_word, is_false_set, has_false_set, is_taken_of_set, is_taken_of_word};
ghost use Rattle.collect.specs.Marks.{marked_words};

use checks::Tables;
use geometry::Kind;
use places::{RowWord, SetIndex};

// Whether a set, where it is indicated, is false: none of its entries is the key.
fn is_false(tables: &Tables<'_>, set: SetIndex, key: u32) -> bool
    requires segmented { tables.now.layout.kind ≡ Segmented }
    requires is_set { set < sets (geometry_in tables.now) }
    ensures { result ≡ is_false_set tables.now key set }
{
    let layout = tables.layout;
    !set.length(layout)
        .offsets()
        .any(|at| set.address(at, layout).word(tables.store) == key)
}

// Whether a set that row word `j` indicates is false.
fn word_is_false(tables: &Tables<'_>, j: RowWord, key: u32) -> bool
    requires segmented { tables.now.layout.kind ≡ Segmented }
    requires in_row { j < row_words (geometry_in tables.now) }
    ensures { result ≡ has_false_set tables.now key j }
{
    j.sets(search::joined(tables.layout, tables.indicators, key, j))
        .any(|set| is_false(tables, set, key))
}

/// Whether any indicated set is false: refusal 6 of an all-match (rule 8.9). Only the segmented
/// kind has false sets.
pub fn any_is_false(tables: &Tables<'_>, key: u32) -> bool
    ensures { result ≡ any_is_false (geometry_in tables.now) (tables_in tables.now) key }
{
    // A copy, so that nothing of it is read again at each word.
    let tables = *tables;
    tables.layout.kind == Kind::Segmented
        && RowWord::all(tables.layout).any(|j| word_is_false(&tables, j, key))
}

// Marks what all-match takes of an indicated set: in the segmented kind the addresses that have the
// key, else all.
fn take_set(tables: &Tables<'_>, matches: &mut [u64], set: SetIndex, key: u32)
    requires whole { length matches.old ≡ match_words (geometry_in tables.now) }
    requires is_set { set < sets (geometry_in tables.now) }
    ensures { matches.new ≡ marked_words (is_taken_of_set tables.now key set) matches.old }
{
    let Tables { layout, store, .. } = *tables;
    for at in set.length(layout).offsets() {
        let address = set.address(at, layout);
        if layout.kind != Kind::Segmented || address.word(store) == key {
            address.mark(matches);
        }
    }
}

// Marks what all-match takes of the sets that row word `j`, which is `word`, indicates. Kept out of
// the loop over the row words, most of which are 0.
#[inline(never)]
fn take_word(tables: &Tables<'_>, matches: &mut [u64], word: u64, j: RowWord, key: u32)
    requires whole { length matches.old ≡ match_words (geometry_in tables.now) }
    requires in_row { j < row_words (geometry_in tables.now) }
    requires joined { word ≡ joined_row_word tables.now key j }
    ensures { matches.new ≡ marked_words (is_taken_of_word tables.now key word j) matches.old }
{
    // A copy, so that nothing of it is read again at each set.
    let tables = *tables;
    for set in j.sets(word) {
        take_set(&tables, matches, set, key);
    }
}

/// Marks every address that all-match takes (rule 8.8). Bits of the match word that are 1 already
/// stay.
pub fn take_all(tables: &Tables<'_>, matches: &mut [u64], key: u32)
    requires { length matches.old ≡ match_words (geometry_in tables.now) }
    ensures { matches.new
        ≡ marked_words (is_taken (geometry_in tables.now) (tables_in tables.now) key) matches.old }
{
    // Copies, so that neither is read again at each word.
    let Tables {
        layout,
        indicators,
        ..
    } = *tables;
    for j in RowWord::all(layout) {
        let word = search::joined(layout, indicators, key, j);
        if word != 0 {
            take_word(tables, matches, word, j, key);
        }
    }
}
