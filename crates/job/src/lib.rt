//! The run of a job, which prints its report into a lent buffer. The store, the indicators and the
//! match word are lent too, and may be longer than the job's own.
#![tactic(auto)]

ghost use Rattle.io.specs.Counts.{IsPrefixLen};
ghost use Rattle.calls.specs.Answers.{tables};
ghost use Rattle.job.specs.Left.{IsReady, Runs, IsAmple, lent_tables, Works, Ran};

use figures::Page;
use jobfile::Header;

// Runs a job that nothing stops, on tables and a match word of its own lengths.
fn run_job(
    file: &[u8],
    header: Header,
    store: &mut [u32],
    indicators: &mut [u64],
    matches: &mut [u64],
    page: &mut Page,
)
    requires { IsReady file.now header (lent_tables store.old indicators.old matches.old) page.old }
    ensures { Runs file.now (tables store.new indicators.new) matches.old matches.new
        page.old page.new }
{
    let g = header.geometry;
    // Nothing is refused: the lengths are the geometry's.
    let _ = memory::clear(g, store, indicators);
    report::put_geometry(page, g);
    for k in 0..header.commands {
        let from = header.offset as usize + 12 * k as usize;
        let command = jobfile::command_at(file, from);
        commands::run_command(command, k, g, store, indicators, matches, page);
    }
}

// Runs the job in `file` on tables and a page that are large enough for any.
fn run_within(
    file: &[u8],
    store: &mut [u32],
    indicators: &mut [u64],
    matches: &mut [u64],
    page: &mut Page,
)
    requires { IsAmple (lent_tables store.old indicators.old matches.old) page.old }
    ensures { Works file.now
        (lent_tables store.old indicators.old matches.old)
        (lent_tables store.new indicators.new matches.new)
        page.old page.new }
{
    match jobfile::open(file) {
        Err(stop) => report::put_stop(page, u32::from(stop)),
        Ok(job) => {
            let depth = job.header.geometry.depth as usize;
            let words = job.layout.sizes.indicator_words;
            let match_words = job.layout.sizes.match_words;
            run_job(
                file,
                job.header,
                &mut store[..depth],
                &mut indicators[..words],
                &mut matches[..match_words],
                page,
            )
        }
    }
}

/// Runs the job in `file`, prints its report into `out` and gives the number of bytes (sections 13
/// and 14 of docs/MEMORY.md). Any bytes may be given: a file that is stopped as a whole has a
/// report of one line, and leaves the tables as they are. `out` is enough for any report: a first
/// line of 34 bytes and 1,363 lines of 287. A job that runs leaves its tables at the front of the
/// lent ones.
pub fn run(
    file: &[u8],
    store: &mut [u32; 1024],
    indicators: &mut [u64; 4096],
    matches: &mut [u64; 16],
    out: &mut [u8; 391215],
) -> usize
    ensures prefix_len { IsPrefixLen result out.new }
    ensures ran { Ran file.now
        (lent_tables store.old indicators.old matches.old)
        (lent_tables store.new indicators.new matches.new)
        out.old out.new result }
{
    let mut page = Page::new(out);
    run_within(file, store, indicators, matches, &mut page);
    page.len()
}
