//! The first look of a resume at its tables (rule 8.12 of docs/MEMORY.md): every word of the store
//! is empty or a pattern, and every entry has its bits.
#![tactic(auto)]

ghost use Rattle.std.specs.Prelude.{◌<◌, ◌≡◌};
ghost use Rattle.geometry.specs.Sizes.{sets};
ghost use Rattle.geometry.specs.Stages.{stages};
ghost use Rattle.reference.specs.Entry.{pattern};
ghost use Rattle.places.specs.Address.{address_number};
ghost use Rattle.calls.specs.Answers.{geometry_in, tables_in};
ghost use Rattle.amiss.specs.Amiss.{is_missing, lacks, is_amiss, any_is_amiss};

use checks::Tables;
use places::{Address, SetIndex};

// Whether a set's bit is missing in the row of stage `k` of `held`, the pattern that an address of
// the set holds.
fn is_missing(tables: &Tables<'_>, set: SetIndex, held: u32, k: u32) -> bool
    requires is_set { set < sets (geometry_in tables.now) }
    requires is_stage { k < stages (geometry_in tables.now) }
    ensures { result ≡ is_missing (geometry_in tables.now) tables.now.indicators.now set held k }
{
    let layout = tables.layout;
    !set.has_bit(tables.indicators, layout.row(held, k), layout.sizes)
}

// Whether it is missing in any row of the pattern.
fn lacks_bit(tables: &Tables<'_>, set: SetIndex, held: u32) -> bool
    requires { set < sets (geometry_in tables.now) }
    ensures { result
        ≡ lacks (geometry_in tables.now) tables.now.indicators.now set (pattern held) }
{
    (0..tables.layout.sizes.stages).any(|k| is_missing(tables, set, held, k))
}

// Whether an address is amiss: its word is neither empty nor a pattern, or a bit of its entry is
// missing.
fn is_amiss(tables: &Tables<'_>, address: Address) -> bool
    requires { address_number address < (geometry_in tables.now).depth }
    ensures { result
        ≡ is_amiss (geometry_in tables.now) (tables_in tables.now) (address_number address) }
{
    match calls::entry_at(tables.layout, tables.store, address) {
        Err(_) => true,
        Ok(None) => false,
        Ok(Some(held)) => lacks_bit(tables, address.set(tables.layout), held),
    }
}

/// The first look: whether any address is amiss, its word being neither empty nor a pattern, or a
/// bit of its entry missing in the indicators.
pub fn any_is_amiss(tables: &Tables<'_>) -> bool
    ensures { result ≡ any_is_amiss (geometry_in tables.now) (tables_in tables.now) }
{
    Address::all(tables.layout).any(|address| is_amiss(tables, address))
}
