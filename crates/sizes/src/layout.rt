//! Four numbers that are a geometry, with what follows from them, and the stages of a pattern. What
//! takes a layout need not ask that its geometry is valid.

ghost use Rattle.std.specs.Prelude.{◌≡◌, ◌<◌, ◌^◌, if◌then◌else◌, option_map, true};
ghost use Rattle.geometry.specs.Valid.{is_valid};
ghost use Rattle.geometry.specs.Kinds.{number_of};
ghost use Rattle.geometry.specs.Stages.{stages, stage_width, stage, row_of};
ghost use Rattle.sizes.specs.SizesOf.{IsSized};

use crate::{Sizes, allows, sizes_of};
use boxes::StageBox;
use geometry::{Geometry, Kind};

/// A geometry that passed its check, with its kind and its sizes.
#[derive(Clone, Copy, Debug)]
pub struct Layout {
    /// The four numbers.
    pub geometry: Geometry,
    /// The kind that `geometry.kind` is the number of.
    pub kind: Kind,
    /// The sizes of the geometry.
    pub sizes: Sizes,
    ghost same_kind: { number_of kind ≡ geometry.kind },
    ghost sized: { IsSized geometry sizes },
}

impl Layout {
    /// The layout of four numbers, or `None` where they are no geometry (rules 2.2 to 2.4 of
    /// docs/MEMORY.md).
    pub fn of(g: Geometry) -> Option<Layout>
        ensures { option_map (λ l. l.geometry) result ≡ (if is_valid g then Some g else None) }
    {
        let Ok(kind) = Kind::try_from(g.kind) else {
            return None;
        };
        if !allows(kind, g) {
            return None;
        }
        Some(Layout {
            geometry: g,
            kind,
            sizes: sizes_of(kind, g),
        })
    }

    // How many bits stage `k` has (rule 4.1).
    fn stage_width(self, k: u32) -> u32
        requires { k < stages self.geometry }
        ensures { result ≡ stage_width self.geometry k }
    {
        if k + 1 < self.sizes.stages {
            9
        } else {
            self.geometry.pattern_width - 9 * k
        }
    }

    /// How many rows stage `k` has: its values are the numbers below this one, up to 4,096 (rule
    /// 4.4). The stages are numbered from 0 on, `sizes.stages` of them.
    pub fn stage_rows(self, k: u32) -> u32
        requires { k < stages self.geometry }
        ensures { result ≡ 2 ^ stage_width self.geometry k }
    {
        1 << self.stage_width(k)
    }

    /// The value of stage `k` of a pattern: the bits that go into its box (rules 4.2 and 4.5). Any
    /// word of 32 bits may be asked for its stages, also one that is no pattern.
    pub fn stage(self, k: u32, pattern: u32) -> u32
        requires { k < stages self.geometry }
        ensures { result ≡ stage self.geometry k pattern }
    {
        let width = self.geometry.pattern_width;
        let its_box = boxes::box_of(self.kind, self.geometry, k);
        match its_box {
            StageBox::LowNine => pattern % 512,
            StageBox::MiddleNine => (pattern >> 9) % 512,
            StageBox::TopNine => (pattern >> 18) % 512,
            StageBox::NarrowLast => (pattern >> (9 * (width / 9))) % (1 << (width % 9)),
            StageBox::Whole => pattern % (1 << width),
        }
    }

    /// The row of stage `k` of a pattern, by its number among the rows of all stages: 512 for each
    /// stage before it, and the value of the stage (rule 4.3).
    pub fn row(self, pattern: u32, k: u32) -> usize
        requires { k < stages self.geometry }
        ensures { result ≡ row_of self.geometry pattern k }
    {
        (512 * k + self.stage(k, pattern)) as usize
    }
}
