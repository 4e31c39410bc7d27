//! The stages of a pattern as they are drawn, a box for each (rule 4.5 of docs/MEMORY.md;
//! docs/SLICES.md has the drawings).
#![tactic(auto)]

ghost use Rattle.std.specs.Prelude.{◌≡◌};
ghost use Rattle.geometry.specs.Kinds.{number_of};
ghost use Rattle.boxes.specs.Drawn.{box_of};

use geometry::{Geometry, Kind};

/// The boxes from the low end of a pattern on, and the one of the kinds that do not cut it.
#[derive(Clone, Copy, Debug, PartialEq, Eq)]
pub enum StageBox {
    /// Bits 0 to 8.
    LowNine,
    /// Bits 9 to 17.
    MiddleNine,
    /// Bits 18 to 26.
    TopNine,
    /// The bits above the nines, fewer than nine.
    NarrowLast,
    /// All bits.
    Whole,
}

/// The box of stage `k` of a pattern. `kind` is the one that the geometry's number stands for, as a
/// `Layout` has it. Nothing is asked of `k`: the cascaded kind has the narrow box from
/// stage P / 9 on, where P is the pattern width, and the others have the whole one at every `k`.
pub fn box_of(kind: Kind, g: Geometry, k: u32) -> StageBox
    requires { number_of kind ≡ g.kind }
    ensures { result ≡ box_of g k }
{
    let Kind::Cascaded = kind else {
        return StageBox::Whole;
    };
    if g.pattern_width / 9 <= k {
        return StageBox::NarrowLast;
    }
    match k {
        0 => StageBox::LowNine,
        1 => StageBox::MiddleNine,
        _ => StageBox::TopNine,
    }
}
