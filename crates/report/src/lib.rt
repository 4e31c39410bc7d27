//! The lines of a report, printed on a page: that of a command, that of a geometry and that of a
//! stop (docs/MEMORY.md, section 14).
//!
//! Each asks for room for its line. No job prints more than its buffer holds: `job` shows it.
#![tactic(auto, using(figures::proofs::Printing::both, figures::proofs::Printing::room_after))]

ghost use Rattle.reference.specs.Calls.{refused};
ghost use Rattle.calls.specs.Answers.{answer_for};
ghost use Rattle.figures.specs.Sheet.{HasRoom, Prints};
ghost use Rattle.report.specs.Lines.{answer_line, first_line, stop_line};

use calls::Answer;
use checks::Refusal;
use figures::Page;
use figures::Piece::{Decimal, Text};
use geometry::Geometry;

/// Prints the line of a command: its number and the answer to it. The match word is that of an
/// accepted all-match, and any other answer leaves it out.
pub fn put_answer(page: &mut Page, number: u32, answer: Result<Answer, Refusal>, matches: &[u64])
    requires { HasRoom page.old (answer_line number (answer_for answer matches.now)) }
    ensures { Prints page.old page.new (answer_line number (answer_for answer matches.now)) }
{
    page.put(Decimal(number));
    answers::put_items(page, answer, matches)
}

/// Prints the line of a command that is stopped by the number `why`, whichever that is.
pub fn put_refusal(page: &mut Page, number: u32, why: u32)
    requires { HasRoom page.old (answer_line number (refused why)) }
    ensures { Prints page.old page.new (answer_line number (refused why)) }
{
    page.print(&[Decimal(number), Text(" no "), Decimal(why), Text("\n")])
}

/// Prints the first line of a report: the four numbers of the geometry.
#[tactic(auto, unfolding(crate::specs::Lines::first_line))]
pub fn put_geometry(page: &mut Page, g: Geometry)
    requires { HasRoom page.old (first_line g) }
    ensures { Prints page.old page.new (first_line g) }
{
    page.print(&[
        Text("kind "),
        Decimal(g.kind),
        Text(" depth "),
        Decimal(g.depth),
        Text(" width "),
        Decimal(g.pattern_width),
        Text(" set "),
        Decimal(g.set_width),
        Text("\n"),
    ])
}

/// Prints the only line of a job that is stopped as a whole, by the number `why`, whichever that
/// is.
#[tactic(auto, unfolding(crate::specs::Lines::stop_line))]
pub fn put_stop(page: &mut Page, why: u32)
    requires { HasRoom page.old (stop_line why) }
    ensures { Prints page.old page.new (stop_line why) }
{
    page.print(&[Text("job no "), Decimal(why), Text("\n")])
}
