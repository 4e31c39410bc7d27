//! Lent tables that passed their check: what takes them need not ask that their lengths are those
//! of the geometry.

ghost use Rattle.std.specs.Prelude.{◌≡◌, length, IfOk};
ghost use Rattle.checks.specs.Passed.{IsLent};
ghost use Rattle.checks.specs.Checks.{checked_tables};

use crate::{Refusal, tables};
use geometry::Geometry;
use sizes::Layout;

/// A store and indicators, to be read, whose lengths are those of the layout's geometry.
#[derive(Clone, Copy, Debug)]
pub struct Tables<'a> {
    /// The geometry, with its kind and its sizes.
    pub layout: Layout,
    /// A word of 32 bits for each address (rules 3.1 and 3.2 of docs/MEMORY.md).
    pub store: &'a [u32],
    /// The words of all rows, one row after the other (rules 3.3 and 3.4).
    pub indicators: &'a [u64],
    ghost lent: { IsLent layout.geometry layout.sizes (length store.now) (length indicators.now) },
}

impl<'a> Tables<'a> {
    ghost use Rattle.checks.specs.Tables.{sizes_lent};

    /// The tables as they are lent: refusal 1 where the four numbers are no geometry, and else 2
    /// where a length is not that of its table.
    pub fn new(g: Geometry, store: &'a [u32], indicators: &'a [u64]) -> Result<Tables<'a>, Refusal>
        ensures given { sizes_lent result
            ≡ checked_tables g (length store.now) (length indicators.now) }
        ensures its_own { IfOk result (λ tables. tables.layout.geometry ≡ g) }
        ensures lends { IfOk result
            (λ tables. (tables.store ≡ store.entry) × (tables.indicators ≡ indicators.entry)) }
    {
        Ok(Tables {
            layout: tables(g, store.len(), indicators.len())?,
            store,
            indicators,
        })
    }
}
