//! Resume: whether a history can go on with tables that stand already (rules 7.7 and 8.12 of
//! docs/MEMORY.md), by two looks at them that make no image: every entry is sound and has its bits
//! (`amiss`), and every bit that is 1 has an entry of its set that covers its row (`stale`). The
//! time grows with the words of the indicators, and with the entries times those of a set.
#![tactic(auto)]

ghost use Rattle.std.specs.Prelude.{◌≡◌};
ghost use Rattle.reference.specs.Resume.{bad_tables, resume_step};
ghost use Rattle.calls.specs.Answers.{tables, geometry_in, tables_in};
ghost use Rattle.resume.specs.Resumed.{resumption_for};

use checks::{Refusal, Tables};
use geometry::Geometry;

// Whether the tables are not those of an array, row 10 of rule 9.3: by both looks.
fn are_bad(tables: &Tables<'_>) -> bool
    ensures { result ≡ bad_tables (geometry_in tables.now) (tables_in tables.now) }
{
    amiss::any_is_amiss(tables) || stale::any_is_stale(tables)
}

/// Accepts the tables of an array, and refuses any others with 1, 2 or 10, in the order of rule
/// 9.3.
pub fn resume(g: Geometry, store: &[u32], indicators: &[u64]) -> Result<(), Refusal>
    ensures { resumption_for result store.now indicators.now
        ≡ resume_step g (tables store.now indicators.now) }
{
    let tables = Tables::new(g, store, indicators)?;
    checks::row(Refusal::BadTables, are_bad(&tables))
}
