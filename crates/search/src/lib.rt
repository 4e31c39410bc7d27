//! The search of first-match and next-match, and the joined word that all three matches look at
//! (docs/MEMORY.md, section 8).
#![tactic(auto)]

ghost use Rattle.std.specs.Prelude.{ℕ, ◌<◌, ◌≡◌, List, [], length};
ghost use Rattle.geometry.specs.Sizes.{row_words};
ghost use Rattle.geometry.specs.Stages.{indicator_words};
ghost use Rattle.reference.specs.Search.{joined_word, found_from, first_found, answer_of};
ghost use Rattle.checks.specs.Checks.{result_map};
ghost use Rattle.calls.specs.declared.Answer.TheVariants.{Searched};
ghost use Rattle.calls.specs.Answers.{answer_for, tables, geometry_in, tables_in};

use calls::Search;
use checks::{Refusal, Tables};
use geometry::Kind;
use places::{Offset, RowWord, SetIndex};
use sizes::Layout;

/// Word `j` of the joined row of the key, padding bits dropped (rule 8.6). The store is not looked
/// at.
pub fn joined(layout: Layout, indicators: &[u64], key: u32, j: RowWord) -> u64
    requires whole { length indicators.now ≡ indicator_words layout.geometry }
    requires in_row { j < row_words layout.geometry }
    ensures { (store : List ℕ)
        → result ≡ joined_word layout.geometry (tables store indicators.now) key j }
{
    (0..layout.sizes.stages)
        .map(|k| j.read(indicators, layout.row(key, k), layout.sizes))
        .fold(j.mask(layout.sizes), |word, read| word & read)
}

/// The search of first-match, from the first set of all on (rule 8.7): what it finds, or refusal 6.
pub fn first(tables: &Tables<'_>, key: u32) -> Result<Search, Refusal>
    ensures { answer_for (result_map Searched result) []
        ≡ answer_of (first_found (geometry_in tables.now) (tables_in tables.now) key) }
{
    from_set(tables, key, SetIndex::first())
}

/// The search from a set on (rules 8.7 and 8.14): what it finds, or refusal 6. Looks at the words
/// of the joined row until one is not 0; in the segmented kind fetches the line of the set of its
/// lowest bit and compares the entries until one is the key. Where none is, the set is false (rule
/// 8.9). Words are counted as they are looked at, entries as their line is fetched (rule 8.10).
/// Where `first` is no set of the geometry, it finds none.
// Inlined: in `first` the set is known, and what drops low bits falls away.
#[inline(always)]
pub fn from_set(tables: &Tables<'_>, key: u32, first: SetIndex) -> Result<Search, Refusal>
    ensures { answer_for (result_map Searched result) []
        ≡ answer_of (found_from (geometry_in tables.now) (tables_in tables.now) key first) }
{
    let layout = tables.layout;
    let mut words_read: u16 = 0;
    let mut row_words = RowWord::from_set(first, layout);
    'words: loop {
        let Some(j) = row_words.next() else {
            break Ok(Search {
                address: None,
                words_read,
                entries_compared: 0,
            });
        };
        let word = first.search_word(joined(layout, tables.indicators, key, j), j);
        words_read += 1;
        if word != 0 {
            let set = SetIndex::lowest(word, j);
            if layout.kind != Kind::Segmented {
                break Ok(Search {
                    address: Some(set.address(Offset::first(), layout)),
                    words_read,
                    entries_compared: 0,
                });
            }
            let length = set.length(layout);
            let entries_compared = length.entries();
            for at in length.offsets() {
                let address = set.address(at, layout);
                if address.word(tables.store) == key {
                    break 'words Ok(Search {
                        address: Some(address),
                        words_read,
                        entries_compared,
                    });
                }
            }
            break Err(Refusal::FalseSet);
        }
    }
}
