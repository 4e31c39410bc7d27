//! The four numbers of a memory and the kinds (section 2 of docs/MEMORY.md). Which four are a
//! geometry and what follows from it are definitions, with their laws; the code of them is in
//! `sizes`.
#![tactic(auto)]

/// The kinds (rule 2.2 of docs/MEMORY.md).
#[derive(Clone, Copy, Debug, PartialEq, Eq)]
pub enum Kind {
    /// Number 0: a pattern is one stage, and each address a set.
    Transposed,
    /// Number 1: a pattern is cut into stages of nine bits, and each address is a set.
    Cascaded,
    /// Number 2: a pattern is one stage, and up to 64 addresses are a set.
    Segmented,
}

/// A number that no kind has: one from 3 on.
#[derive(Clone, Copy, Debug, PartialEq, Eq)]
pub struct UnknownKind(pub u32);

impl TryFrom<u32> for Kind {
    ghost use Rattle.geometry.specs.Kinds.{kind_of};
    ghost use Rattle.std.specs.Prelude.{◌≡◌};

    type Error = UnknownKind;

    ghost try_from_gives = { λ number result. result ≡ kind_of number };

    fn try_from(number: u32) -> Result<Kind, UnknownKind> {
        match number {
            0 => Ok(Kind::Transposed),
            1 => Ok(Kind::Cascaded),
            2 => Ok(Kind::Segmented),
            _ => Err(UnknownKind(number)),
        }
    }
}

/// The four numbers, as they come from a file or a caller: nothing is assumed of them, so that the
/// kind is a number, which may be no kind's. A call with four that are no geometry (rules 2.2 to
/// 2.4 of docs/MEMORY.md) is refused with 1.
#[derive(Clone, Copy, Debug, PartialEq, Eq)]
pub struct Geometry {
    /// 0, 1 or 2 (rule 2.2).
    pub kind: u32,
    /// The number of addresses: 1 to 4,096 (rule 2.3).
    pub depth: u32,
    /// The bits of a pattern: 1 to 12, and up to 27 in the cascaded kind (rule 2.3).
    pub pattern_width: u32,
    /// The addresses in a set: 1, and in the segmented kind up to 64 and to the depth (rule 2.4).
    pub set_width: u32,
}
