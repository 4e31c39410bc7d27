//! An answer or a length as one number, for C: below 256 it is that of a refusal, which changed
//! nothing; else it is 256 and the value that docs/MEMORY.md, section 12 gives. The geometry that
//! the exported functions take as four numbers is made here.
#![tactic(auto)]

ghost use Rattle.std.specs.Prelude.{◌+◌, ◌≡◌, []};
ghost use Rattle.geometry.specs.Sizes.{match_words};
ghost use Rattle.geometry.specs.Stages.{indicator_words};
ghost use Rattle.calls.specs.Answers.{next_for, answer_for};
ghost use Rattle.resume.specs.Resumed.{refusal_for};
ghost use Rattle.codes.specs.Codes.{code_of, resume_code, size_code, four};

use calls::Answer;
use checks::Refusal;
use geometry::Geometry;
use places::Address;

/// The geometry of the four numbers.
pub fn four(kind: u32, depth: u32, pattern_width: u32, set_width: u32) -> Geometry
    ensures { result ≡ four kind depth pattern_width set_width }
{
    Geometry {
        kind,
        depth,
        pattern_width,
        set_width,
    }
}

// The number of the address in an answer, or 65,535 for none.
fn address_number(address: Option<Address>) -> u32
    ensures { 256 + result ≡ code_of (next_for address) }
{
    match address {
        Some(address) => address.number(),
        None => 65535,
    }
}

/// The number of an answer (rules 12.1 to 12.3 and 12.6): that of the refusal, or 256 and the
/// value.
///
/// - A clear: 0.
/// - A write, an erase or a read: the entry's word in the store, 4,294,967,295 for empty.
/// - A first-match: the address, or 65,535 for none, with 65,536 times the words read and 2^32
///   times the entries compared.
/// - A next-match: the address, or 65,535 for none.
/// - An all-match: the number of hits.
pub fn code(answer: Result<Answer, Refusal>) -> u64
    ensures { result ≡ code_of (answer_for answer []) }
{
    match answer {
        Err(why) => u64::from(u32::from(why)),
        Ok(Answer::Cleared) => 256,
        Ok(Answer::Held(entry)) => 256 + u64::from(calls::word(entry)),
        Ok(Answer::Searched(found)) => {
            256 + u64::from(address_number(found.address))
                + 65536 * u64::from(found.words_read)
                + 0x1_0000_0000 * u64::from(found.entries_compared)
        }
        Ok(Answer::Next(address)) => 256 + u64::from(address_number(address)),
        Ok(Answer::Matched { hits }) => 256 + u64::from(hits),
    }
}

/// The number of an answer to a resume (rule 12.5): that of the refusal, or 256.
pub fn resume_code(answer: Result<(), Refusal>) -> u64
    ensures { result ≡ resume_code (refusal_for answer) }
{
    match answer {
        Ok(()) => 256,
        Err(why) => u64::from(u32::from(why)),
    }
}

/// The numbers for the lengths that a geometry asks for (rule 12.4): 256 and the words, or 1 where
/// the geometry is refused.
#[derive(Clone, Copy, Debug, PartialEq, Eq)]
pub struct Lengths {
    /// The number for the indicators.
    pub indicators: u64,
    /// The number for a match word.
    pub matches: u64,
}

/// The numbers for both lengths of a geometry.
pub fn lengths_of(g: Geometry) -> Lengths
    ensures indicators { result.indicators ≡ size_code g indicator_words }
    ensures matches { result.matches ≡ size_code g match_words }
{
    match checks::geometry(g) {
        Ok(layout) => Lengths {
            indicators: 256 + layout.sizes.indicator_words as u64,
            matches: 256 + layout.sizes.match_words as u64,
        },
        Err(why) => {
            let number = u64::from(u32::from(why));
            Lengths {
                indicators: number,
                matches: number,
            }
        }
    }
}
