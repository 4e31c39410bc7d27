//! The second look of a resume at its tables (rule 8.12 of docs/MEMORY.md): every bit that is 1 has
//! an entry of its set that covers its row. It makes no image: its time grows with the words of the
//! indicators, and for each bit that is 1 with the entries of a set.
#![tactic(auto)]

ghost use Rattle.std.specs.Prelude.{◌^◌, ◌<◌, ◌≡◌};
ghost use Rattle.geometry.specs.Sizes.{row_words, address_of, set_length};
ghost use Rattle.geometry.specs.Stages.{stages, stage_width};
ghost use Rattle.calls.specs.Answers.{geometry_in, tables_in};
ghost use Rattle.stale.specs.Stale.{exceeds, stage_is_stale, any_is_stale};

use checks::Tables;
use places::{Offset, RowWord, SetIndex};

// The row of a value of a stage (rule 4.3).
#[derive(Clone, Copy)]
struct Row<'a> {
    tables: &'a Tables<'a>,
    stage: u32,
    value: u32,
    ghost is_stage: { stage < stages tables.now.layout.geometry },
    ghost is_value: { value < 2 ^ stage_width tables.now.layout.geometry stage },
}

impl<'a> Row<'a> {
    ghost use Rattle.stale.specs.Rows.{geometry_of, number, word_covers, address_covers, set_covers, word_in_image, is_stale_at, is_stale};

    fn new(tables: &'a Tables<'a>, stage: u32, value: u32) -> Row<'a>
        requires is_stage { stage < stages (geometry_in tables.now) }
        requires is_value { value < 2 ^ stage_width (geometry_in tables.now) stage }
        ensures lends { result.tables ≡ tables.entry }
        ensures stage { result.stage ≡ stage }
        ensures value { result.value ≡ value }
    {
        Row {
            tables,
            stage,
            value,
        }
    }

    // Its number among the rows of all stages (rule 4.3).
    fn number(&self) -> usize
        ensures { result ≡ number self.now }
    {
        (512 * self.stage + self.value) as usize
    }

    // Whether a word of the store covers it: a pattern with that value in that stage.
    fn is_covered_by(&self, word: u32) -> bool
        ensures { result ≡ word_covers self.now word }
    {
        let layout = self.tables.layout;
        layout.stage(self.stage, word) == self.value && word < layout.sizes.patterns
    }

    // Whether the entry at an offset of a set covers it.
    fn is_covered_at(&self, set: SetIndex, at: Offset) -> bool
        requires { at < set_length (geometry_of self.now) set }
        ensures { result ≡ address_covers self.now (address_of (geometry_of self.now) set at) }
    {
        self.is_covered_by(set.address(at, self.tables.layout).word(self.tables.store))
    }

    // Whether some entry of the set covers it. Past the last set there are no entries.
    fn is_covered(&self, set: SetIndex) -> bool
        ensures { result ≡ set_covers self.now set }
    {
        let layout = self.tables.layout;
        if set.is_outside(layout.sizes) {
            return false;
        }
        set.length(layout)
            .offsets()
            .any(|at| self.is_covered_at(set, at))
    }

    // Whether a bit of its word `at`, which is `word`, is stale. Kept out of the walk over the
    // words of the row, most of which are 0.
    #[inline(never)]
    fn word_is_stale(self, word: u64, at: RowWord) -> bool
        requires { at < row_words (geometry_of self) }
        ensures { result ≡ exceeds word (word_in_image self.entry at) }
    {
        // A copy, so that nothing of it is read again at each entry.
        let tables = *self.tables;
        let row = Row::new(&tables, self.stage, self.value);
        at.sets(word).any(|set| !row.is_covered(set))
    }

    // Whether a bit of its word `at` is stale. A word that is 0 is read and no more.
    fn is_stale_at(&self, at: RowWord) -> bool
        requires { at < row_words (geometry_of self.now) }
        ensures { result ≡ is_stale_at self.now at }
    {
        let word = at.read(
            self.tables.indicators,
            self.number(),
            self.tables.layout.sizes,
        );
        word != 0 && self.word_is_stale(word, at)
    }

    // Whether any bit of it is stale.
    fn is_stale(&self) -> bool
        ensures { result ≡ is_stale self.now }
    {
        RowWord::all(self.tables.layout).any(|at| self.is_stale_at(at))
    }
}

// Whether any bit in the rows of a stage is stale. Kept apart, so that the walk over the rows has
// the registers for itself.
#[inline(never)]
fn stage_is_stale(tables: &Tables<'_>, stage: u32) -> bool
    requires { stage < stages (geometry_in tables.now) }
    ensures { result ≡ stage_is_stale (geometry_in tables.now) (tables_in tables.now) stage }
{
    // A copy, so that nothing of it is read again at each row.
    let tables = *tables;
    (0..tables.layout.stage_rows(stage)).any(|value| Row::new(&tables, stage, value).is_stale())
}

/// The second look: whether any bit is stale, 1 where no entry of its set covers its row. A bit of
/// padding that is 1 is stale.
pub fn any_is_stale(tables: &Tables<'_>) -> bool
    ensures { result ≡ any_is_stale (geometry_in tables.now) (tables_in tables.now) }
{
    (0..tables.layout.sizes.stages).any(|stage| stage_is_stale(tables, stage))
}
