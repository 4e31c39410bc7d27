//! Next-match over lent tables (docs/MEMORY.md, sections 7 to 9): the call by which a caller walks
//! through the addresses that hold a key.
#![tactic(auto)]

ghost use Rattle.std.specs.Prelude.{◌<◌, ◌≡◌, []};
ghost use Rattle.reference.specs.Calls.{next_match};
ghost use Rattle.reference.specs.Search.{next_found, next_of};
ghost use Rattle.reference.specs.Steps.{step};
ghost use Rattle.checks.specs.Checks.{result_map};
ghost use Rattle.places.specs.Address.{address_number};
ghost use Rattle.calls.specs.declared.Answer.TheVariants.{Next};
ghost use Rattle.calls.specs.Answers.{answer_for, tables, geometry_in, tables_in, outcome_for};

use checks::{Refusal, Tables};
use geometry::Geometry;
use places::Address;

// The entries above the address in its own set come first, by the store alone (rule 8.13); where
// none of them is the key, the first indicated set after that one decides (rule 8.14). Row 3 has
// shown that the address is below the depth.
fn found(tables: &Tables<'_>, address: Address, key: u32) -> Result<Option<Address>, Refusal>
    requires { address_number address < (geometry_in tables.now).depth }
    ensures { answer_for (result_map Next result) []
        ≡ next_of
        (next_found (geometry_in tables.now) (tables_in tables.now) (address_number address) key) }
{
    let layout = tables.layout;
    let own = address.set(layout);
    for at in own.length(layout).offsets_above(address.offset(layout)) {
        let other = own.address(at, layout);
        if other.word(tables.store) == key {
            return Ok(Some(other));
        }
    }
    search::from_set(tables, key, own.next(layout)).map(|found| found.address)
}

/// What the entries above the address in its own set decide, and then the first indicated set
/// behind it (rules 8.13 and 8.14): an address or none. Where the indicators mirror the store it is
/// the lowest address above the given one that holds the key (rule 8.11). What the given address
/// holds does not matter. Refused with 1 to 4 by rule 9.1, and with 6 where that set is false (rule
/// 8.14).
pub fn next_match(
    g: Geometry,
    store: &[u32],
    indicators: &[u64],
    address: Address,
    key: u32,
) -> Result<Option<Address>, Refusal>
    ensures { outcome_for (result_map Next result) store.now indicators.now []
        ≡ step g (tables store.now indicators.now) (next_match (address_number address) key) }
{
    let tables = Tables::new(g, store, indicators)?;
    checks::row(Refusal::BadAddress, address.is_outside(g))?;
    checks::pattern(tables.layout, key)?;
    found(&tables, address, key)
}
