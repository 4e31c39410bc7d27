//! Six of the calls and the line, over lent tables (docs/MEMORY.md, sections 7 to 9 and 11), and
//! any call as one function; next-match is in `next`. Each gives the answer of its step in
//! `reference` and leaves its tables, for every input: any four numbers, tables of any length and
//! content. A call that is refused changes nothing (rule 9.2).
#![tactic(auto)]

ghost use Rattle.std.specs.Prelude.{◌≡◌, []};
ghost use Rattle.reference.specs.Calls.{clear, write, erase, read, first_match, all_match};
ghost use Rattle.reference.specs.Steps.{step};
ghost use Rattle.checks.specs.Checks.{result_map};
ghost use Rattle.places.specs.Address.{address_number};
ghost use Rattle.calls.specs.Answers.{tables, outcome_for, Performed};
ghost use Rattle.memory.specs.Lines.{HandsBack};

use calls::{Answer, Call, Entry, Search};
use checks::{Refusal, Tables};
use geometry::Geometry;
use next::next_match;
use places::{Address, SetIndex};

/// Empties every address (rule 8.1). Refused with 1 and 2.
pub fn clear(g: Geometry, store: &mut [u32], indicators: &mut [u64]) -> Result<(), Refusal>
    ensures { outcome_for (result_map (λ done. Answer.Cleared) result) store.new indicators.new []
        ≡ step g (tables store.old indicators.old) clear }
{
    checks::tables(g, store.len(), indicators.len())?;
    store.fill(0xffff_ffff);
    indicators.fill(0);
    Ok(())
}

/// The pattern comes to the address (rule 8.2); gives the former entry. Refused with 1 to 5.
pub fn write(
    g: Geometry,
    store: &mut [u32],
    indicators: &mut [u64],
    address: Address,
    pattern: u32,
) -> Result<Entry, Refusal>
    ensures { outcome_for (result_map Answer.Held result) store.new indicators.new []
        ≡ step g (tables store.old indicators.old) (write (address_number address) pattern) }
{
    let layout = checks::tables(g, store.len(), indicators.len())?;
    checks::row(Refusal::BadAddress, address.is_outside(g))?;
    checks::pattern(layout, pattern)?;
    update::replace(layout, store, indicators, address, Some(pattern))
}

/// Empties the address (rule 8.4); gives the former entry. Refused with 1, 2, 3 and 5.
pub fn erase(
    g: Geometry,
    store: &mut [u32],
    indicators: &mut [u64],
    address: Address,
) -> Result<Entry, Refusal>
    ensures { outcome_for (result_map Answer.Held result) store.new indicators.new []
        ≡ step g (tables store.old indicators.old) (erase (address_number address)) }
{
    let layout = checks::tables(g, store.len(), indicators.len())?;
    checks::row(Refusal::BadAddress, address.is_outside(g))?;
    update::replace(layout, store, indicators, address, None)
}

/// The entry of the address. Refused with 1, 2, 3 and 5.
pub fn read(
    g: Geometry,
    store: &[u32],
    indicators: &[u64],
    address: Address,
) -> Result<Entry, Refusal>
    ensures { outcome_for (result_map Answer.Held result) store.now indicators.now []
        ≡ step g (tables store.now indicators.now) (read (address_number address)) }
{
    let layout = checks::tables(g, store.len(), indicators.len())?;
    checks::row(Refusal::BadAddress, address.is_outside(g))?;
    calls::entry_at(layout, store, address)
}

/// What the first set decides that the key indicates: an address or none, with both counts (rules
/// 8.7 and 8.10). Where the indicators mirror the store it is the lowest address that holds the key
/// (rule 8.11). Refused with 1, 2 and 4, and with 6 where that set is false (rule 8.9).
pub fn first_match(
    g: Geometry,
    store: &[u32],
    indicators: &[u64],
    key: u32,
) -> Result<Search, Refusal>
    ensures { outcome_for (result_map Answer.Searched result) store.now indicators.now []
        ≡ step g (tables store.now indicators.now) (first_match key) }
{
    let tables = Tables::new(g, store, indicators)?;
    checks::pattern(tables.layout, key)?;
    search::first(&tables, key)
}

/// The addresses that the indicated sets give, each as a bit of the match word, and their number
/// (rule 8.8). Where the indicators mirror the store they are those that hold the key (rule 8.11).
/// Refused with 1, 2 and 4, and with 6 where any indicated set is false (rule 8.9), before anything
/// is written.
pub fn all_match(
    g: Geometry,
    store: &[u32],
    indicators: &[u64],
    matches: &mut [u64],
    key: u32,
) -> Result<u32, Refusal>
    ensures { outcome_for (result_map Answer.Matched result) store.now indicators.now matches.new
        ≡ step g (tables store.now indicators.now) (all_match key matches.old) }
{
    let tables = Tables::new(g, store, indicators)?;
    checks::match_word(tables.layout, matches.len())?;
    checks::pattern(tables.layout, key)?;
    checks::row(Refusal::FalseSet, collect::any_is_false(&tables, key))?;
    matches.fill(0);
    collect::take_all(&tables, matches, key);
    Ok(words::total_ones(matches))
}

/// The line of a set: that part of the store itself, no copy (rule 11.1). Its length is 0 where the
/// four numbers are no geometry, the store has another length or there is no such set (rule 11.2).
pub fn line(g: Geometry, store: &[u32], set: SetIndex) -> &[u32]
    ensures { HandsBack g store.entry result set }
{
    let Ok(layout) = checks::geometry(g) else {
        return &store[0..0];
    };
    if store.len() == g.depth as usize && !set.is_outside(layout.sizes) {
        set.line(store, layout)
    } else {
        &store[0..0]
    }
}

/// Any of the seven calls. A match word is lent with each, and only an accepted all-match changes
/// it. A history is this function again and again.
pub fn perform(
    call: Call,
    g: Geometry,
    store: &mut [u32],
    indicators: &mut [u64],
    matches: &mut [u64],
) -> Result<Answer, Refusal>
    ensures { Performed g call result (tables store.old indicators.old)
        (tables store.new indicators.new) matches.old matches.new }
{
    match call {
        Call::Clear => clear(g, store, indicators).map(|()| Answer::Cleared),
        Call::Write(address, pattern) => {
            write(g, store, indicators, address, pattern).map(Answer::Held)
        }
        Call::Erase(address) => erase(g, store, indicators, address).map(Answer::Held),
        Call::Read(address) => read(g, store, indicators, address).map(Answer::Held),
        Call::FirstMatch(key) => first_match(g, store, indicators, key).map(Answer::Searched),
        Call::NextMatch(address, key) => {
            next_match(g, store, indicators, address, key).map(Answer::Next)
        }
        Call::AllMatch(key) => {
            all_match(g, store, indicators, matches, key).map(|hits| Answer::Matched { hits })
        }
    }
}
