//! The run of one command of a job: its call on the tables, and its line in the report.
#![tactic(auto)]

ghost use Rattle.calls.specs.Answers.{tables};
ghost use Rattle.figures.specs.Sheet.{HasRoom};
ghost use Rattle.commands.specs.Commands.{command_outcome, command_line, Obeys};

use figures::Page;
use geometry::Geometry;
use jobfile::Command;

/// Runs the command on the tables and the match word, and prints its line, which begins with
/// `number`. A command that asks for no call gets 8 and changes nothing (rule 13.7 of
/// docs/MEMORY.md).
pub fn run_command(
    command: Command,
    number: u32,
    g: Geometry,
    store: &mut [u32],
    indicators: &mut [u64],
    matches: &mut [u64],
    page: &mut Page,
)
    requires { HasRoom page.old
        (command_line g number (tables store.old indicators.old) matches.old command) }
    ensures { Obeys (command_outcome g (tables store.old indicators.old) matches.old command) number
        (tables store.new indicators.new) matches.new page.old page.new }
{
    match jobfile::decode(command) {
        Some(call) => {
            let answer = memory::perform(call, g, store, indicators, matches);
            report::put_answer(page, number, answer, matches)
        }
        None => report::put_refusal(page, number, 8),
    }
}
