//! The seven calls and resume as callers in C and Rust have them, and the lengths that they ask
//! for (docs/MEMORY.md, section 12); `cam_abi_c` exports these functions. A geometry is passed as
//! its four numbers, each of which may be any. What comes back is one number: below 256 it is that
//! of a refusal, which changed nothing, and else it is 256 and the value that stands at each
//! function.
#![tactic(auto)]

ghost use Rattle.std.specs.Prelude.{◌≡◌, []};
ghost use Rattle.geometry.specs.Sizes.{match_words};
ghost use Rattle.geometry.specs.Stages.{indicator_words};
ghost use Rattle.reference.specs.Calls.{clear, write, erase, read, first_match, next_match, all_match};
ghost use Rattle.calls.specs.Answers.{tables};
ghost use Rattle.codes.specs.Codes.{size_code, four, Coded, CodedReading, ResumeCoded};

use calls::Answer;
use codes::{code, four, lengths_of, resume_code};
use next::next_match;
use places::Address;

/// How many words of 64 bits the indicators have: the value.
///
/// The only refusal is 1: the four numbers are no geometry.
pub fn cam_indicator_words(kind: u32, depth: u32, pattern_width: u32, set_width: u32) -> u64
    ensures { result ≡ size_code (four kind depth pattern_width set_width) indicator_words }
{
    lengths_of(four(kind, depth, pattern_width, set_width)).indicators
}

/// How many words of 64 bits a match word has: the value.
///
/// The only refusal is 1: the four numbers are no geometry.
pub fn cam_match_words(kind: u32, depth: u32, pattern_width: u32, set_width: u32) -> u64
    ensures { result ≡ size_code (four kind depth pattern_width set_width) match_words }
{
    lengths_of(four(kind, depth, pattern_width, set_width)).matches
}

/// Whether a history can go on with the tables. The value is 0.
///
/// Refusals: 1, the four numbers are no geometry; 2, a table has another length than the geometry
/// asks for; 10, no history leaves these tables.
pub fn cam_resume(
    kind: u32,
    depth: u32,
    pattern_width: u32,
    set_width: u32,
    store: &[u32],
    indicators: &[u64],
) -> u64
    ensures { ResumeCoded (four kind depth pattern_width set_width) result
        (tables store.now indicators.now) (tables store.now indicators.now) }
{
    let g = four(kind, depth, pattern_width, set_width);
    resume_code(resume::resume(g, store, indicators))
}

/// Empties every address, whatever the tables hold. The value is 0.
///
/// Refusals: 1, the four numbers are no geometry; 2, a table has another length than the geometry
/// asks for.
pub fn cam_clear(
    kind: u32,
    depth: u32,
    pattern_width: u32,
    set_width: u32,
    store: &mut [u32],
    indicators: &mut [u64],
) -> u64
    ensures { Coded (four kind depth pattern_width set_width) clear result
        (tables store.old indicators.old) (tables store.new indicators.new) [] }
{
    let g = four(kind, depth, pattern_width, set_width);
    code(memory::clear(g, store, indicators).map(|()| Answer::Cleared))
}

/// Puts the pattern at the address. The value is the word that the store had there, 0xffff_ffff for
/// empty.
///
/// Refusals: 1 and 2 as of `cam_clear`; 3, the address is not below the depth; 4, the pattern has
/// more bits than the pattern width; 5, the store has at the address neither empty nor a pattern.
pub fn cam_write(
    kind: u32,
    depth: u32,
    pattern_width: u32,
    set_width: u32,
    store: &mut [u32],
    indicators: &mut [u64],
    address: u32,
    pattern: u32,
) -> u64
    ensures { Coded (four kind depth pattern_width set_width) (write address pattern) result
        (tables store.old indicators.old) (tables store.new indicators.new) [] }
{
    let g = four(kind, depth, pattern_width, set_width);
    code(memory::write(g, store, indicators, Address::new(address), pattern).map(Answer::Held))
}

/// Empties the address. The value is the word that the store had there, 0xffff_ffff for empty.
///
/// Refusals: 1, 2, 3 and 5 as of `cam_write`.
pub fn cam_erase(
    kind: u32,
    depth: u32,
    pattern_width: u32,
    set_width: u32,
    store: &mut [u32],
    indicators: &mut [u64],
    address: u32,
) -> u64
    ensures { Coded (four kind depth pattern_width set_width) (erase address) result
        (tables store.old indicators.old) (tables store.new indicators.new) [] }
{
    let g = four(kind, depth, pattern_width, set_width);
    code(memory::erase(g, store, indicators, Address::new(address)).map(Answer::Held))
}

/// Reads the address. The value is the word that the store has there, 0xffff_ffff for empty.
///
/// Refusals: 1, 2, 3 and 5 as of `cam_write`.
pub fn cam_read(
    kind: u32,
    depth: u32,
    pattern_width: u32,
    set_width: u32,
    store: &[u32],
    indicators: &[u64],
    address: u32,
) -> u64
    ensures { CodedReading (four kind depth pattern_width set_width) (read address) result
        (tables store.now indicators.now) [] }
{
    let g = four(kind, depth, pattern_width, set_width);
    code(memory::read(g, store, indicators, Address::new(address)).map(Answer::Held))
}

/// Finds the lowest address that holds the pattern, by the indicators: on tables that mirror their
/// store, as every call leaves them (rule 8.11). The value is that address, or 65,535 for none, and
/// with it 65,536 times the words read and 2^32 times the entries compared.
///
/// Refusals: 1, 2 and 4 as of `cam_write`; 6, in kind 2, the first set that is indicated holds no
/// such entry.
pub fn cam_first_match(
    kind: u32,
    depth: u32,
    pattern_width: u32,
    set_width: u32,
    store: &[u32],
    indicators: &[u64],
    pattern: u32,
) -> u64
    ensures { CodedReading (four kind depth pattern_width set_width) (first_match pattern) result
        (tables store.now indicators.now) [] }
{
    let g = four(kind, depth, pattern_width, set_width);
    code(memory::first_match(g, store, indicators, pattern).map(Answer::Searched))
}

/// Finds the lowest address above the one given that holds the pattern, by the indicators as
/// `cam_first_match` does. The value is that address, or 65,535 for none.
///
/// Refusals: 1 to 4 as of `cam_write`; 6, in kind 2, the address's own set has none above it, and
/// the first set behind it that is indicated holds no such entry.
pub fn cam_next_match(
    kind: u32,
    depth: u32,
    pattern_width: u32,
    set_width: u32,
    store: &[u32],
    indicators: &[u64],
    address: u32,
    pattern: u32,
) -> u64
    ensures { CodedReading (four kind depth pattern_width set_width) (next_match address pattern)
        result (tables store.now indicators.now) [] }
{
    let g = four(kind, depth, pattern_width, set_width);
    code(next_match(g, store, indicators, Address::new(address), pattern).map(Answer::Next))
}

/// Finds all addresses that hold the pattern, by the indicators as `cam_first_match` does: their
/// bits of the match word become 1, and every other bit 0. The value is their number.
///
/// Refusals: 1 and 4 as of `cam_write`; 2, a table or the match word has another length than the
/// geometry asks for; 6, in kind 2, a set that is indicated holds no such entry.
pub fn cam_all_match(
    kind: u32,
    depth: u32,
    pattern_width: u32,
    set_width: u32,
    store: &[u32],
    indicators: &[u64],
    matches: &mut [u64],
    pattern: u32,
) -> u64
    ensures { CodedReading (four kind depth pattern_width set_width) (all_match pattern matches.old)
        result (tables store.now indicators.now) matches.new }
{
    let g = four(kind, depth, pattern_width, set_width);
    code(memory::all_match(g, store, indicators, matches, pattern).map(|hits| Answer::Matched {
        hits,
    }))
}
