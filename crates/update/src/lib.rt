//! How write and erase change the tables: another entry comes to an address, and the bits of its
//! set follow (rules 8.2 and 8.4 of docs/MEMORY.md). The check of the call has shown that the
//! tables have the layout's lengths and that the address is below the depth.
#![tactic(auto)]

ghost use Rattle.std.specs.Prelude.{◌<◌, ◌≡◌, [], length};
ghost use Rattle.geometry.specs.Stages.{indicator_words};
ghost use Rattle.reference.specs.Image.{covers};
ghost use Rattle.checks.specs.Passed.{IsLent};
ghost use Rattle.checks.specs.Checks.{result_map};
ghost use Rattle.places.specs.Address.{address_number};
ghost use Rattle.calls.specs.declared.Answer.TheVariants.{Held};
ghost use Rattle.calls.specs.Answers.{entry_for, tables, outcome_for};
ghost use Rattle.update.specs.Replacing.{replace_outcome};

use calls::Entry;
use checks::Refusal;
use places::{Address, SetIndex};
use sizes::Layout;

// Whether an entry covers a row: one of its pattern's, where it has one (rule 6.1).
fn is_covered_by(layout: Layout, entry: Entry, row: usize) -> bool
    ensures { result ≡ covers layout.geometry (entry_for entry) row }
{
    let Some(pattern) = entry else {
        return false;
    };
    (0..layout.sizes.stages).any(|k| layout.row(pattern, k) == row)
}

// The address that another entry comes to, with the store as it is before.
#[derive(Clone, Copy)]
struct Target<'a> {
    layout: Layout,
    store: &'a [u32],
    address: Address,
    ghost entries: { length store.now ≡ layout.geometry.depth },
    ghost inside: { address_number address < layout.geometry.depth },
}

impl Target<'_> {
    ghost use Rattle.update.specs.Targets.{geometry_of, cover_in, neighbours_cover, is_released_in, SetsRows, ClearsReleased};

    // Sets the bits of an entry's rows in the set of the address.
    fn set_rows(&self, indicators: &mut [u64], entry: Entry)
        requires { length indicators.old ≡ indicator_words (geometry_of self.now) }
        ensures { SetsRows self.now entry indicators.old indicators.new }
    {
        let Some(pattern) = entry else {
            return;
        };
        let set = self.address.set(self.layout);
        for k in 0..self.layout.sizes.stages {
            set.put_bit(
                indicators,
                self.layout.row(pattern, k),
                self.layout.sizes,
                true,
            );
        }
    }

    // Whether the entry at an address covers a row.
    fn is_covered_at(&self, address: Address, row: usize) -> bool
        requires { address_number address < length self.now.store.now }
        ensures { result ≡ cover_in self.now (address_number address) row }
    {
        let entry = calls::entry_of(address.word(self.store), self.layout.sizes.patterns);
        is_covered_by(self.layout, entry, row)
    }

    // Whether another address of the set has an entry that covers the row.
    fn others_cover(&self, row: usize) -> bool
        ensures { result ≡ neighbours_cover self.now row }
    {
        let set = self.address.set(self.layout);
        set.length(self.layout).offsets().any(|at| {
            let other = set.address(at, self.layout);
            other != self.address && self.is_covered_at(other, row)
        })
    }

    // Whether a row is released: neither the next entry nor another address of the set covers it.
    #[tactic(auto, unfolding(reference::specs::Image::covers))]
    fn is_released(&self, next: Entry, row: usize) -> bool
        ensures { result ≡ is_released_in self.now next row }
    {
        !is_covered_by(self.layout, next, row) && !self.others_cover(row)
    }

    // Clears, of the rows of the former entry, the bits of those that are released.
    fn clear_released(&self, indicators: &mut [u64], previous: Entry, next: Entry)
        requires { length indicators.old ≡ indicator_words (geometry_of self.now) }
        ensures { ClearsReleased self.now previous next indicators.old indicators.new }
    {
        let Some(pattern) = previous else {
            return;
        };
        let set = self.address.set(self.layout);
        for k in 0..self.layout.sizes.stages {
            let row = self.layout.row(pattern, k);
            if self.is_released(next, row) {
                set.put_bit(indicators, row, self.layout.sizes, false);
            }
        }
    }
}

/// Another entry comes to the address: its rows are set, those released are cleared, and then the
/// store holds it. `None` is the empty entry, which an erase brings. Gives the former entry, or
/// refusal 5, which changes nothing.
pub fn replace(
    layout: Layout,
    store: &mut [u32],
    indicators: &mut [u64],
    address: Address,
    next: Entry,
) -> Result<Entry, Refusal>
    requires lent { IsLent layout.geometry layout.sizes (length store.old) (length indicators.old) }
    requires inside { address_number address < layout.geometry.depth }
    ensures { outcome_for (result_map Held result) store.new indicators.new []
        ≡ replace_outcome layout.geometry (tables store.old indicators.old)
        (address_number address) (entry_for next) }
{
    let previous = calls::entry_at(layout, store, address)?;
    let target = Target {
        layout,
        store,
        address,
    };
    target.set_rows(indicators, next);
    target.clear_released(indicators, previous, next);
    address.put(store, calls::word(next));
    Ok(previous)
}
