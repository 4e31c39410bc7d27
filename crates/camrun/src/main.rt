//! Runs the job on standard input and prints its report: it reads, calls `job::run` once, and
//! writes. Its status is always 0; a line on standard error tells what failed.
#![tactic(auto)]

use std::fs::{File, Files, OpenFile};
use std::io::{Stdin, Stdout};
use std::{fs, io};

// Why the report is not there, or not all of it.
#[derive(Clone, Copy)]
enum Failure {
    Unread,
    Unwritten,
}

impl Failure {
    // What standard error is told.
    fn line(self) -> &'static str {
        match self {
            Failure::Unread => "camrun: the job could not be read\n",
            Failure::Unwritten => "camrun: the report was not wholly written\n",
        }
    }
}

// The name of standard output among files.
const OUTPUT: &str = "/dev/stdout";

// Brings the report to its disk, where standard output is a file: a file system may tell only now
// that it had no room. Standard output is opened once more by its name; where that cannot be done
// there is nothing to tell.
fn settle(rt: &impl Files) -> io::Result<()> {
    if fs::metadata(rt, OUTPUT).is_ok_and(|known| known.is_file())
        && let Ok(file) = File::options().write(true).open(rt, OUTPUT)
    {
        file.sync_data()?;
    }
    Ok(())
}

// Reads the job, and writes its report to the end.
fn run(rt: &impl Files, mut input: Stdin, mut output: Stdout) -> Result<(), Failure> {
    // One byte more than a job may have, so that a longer one is seen to be longer.
    let mut file = [0u8; 16385];
    let length = streams::read_whole(&mut input, &mut file).map_err(|_| Failure::Unread)?;
    let mut store = [0u32; 1024];
    let mut indicators = [0u64; 4096];
    let mut matches = [0u64; 16];
    // As large as the longest report could be.
    let mut out = [0u8; 391215];
    let printed = job::run(
        &file[..length],
        &mut store,
        &mut indicators,
        &mut matches,
        &mut out,
    );
    if streams::write_whole(&mut output, &out[..printed]) < printed {
        return Err(Failure::Unwritten);
    }
    settle(rt).map_err(|_| Failure::Unwritten)
}

fn main(rt: HostRuntime) {
    if let Err(failure) = run(&rt, rt.stdin(), rt.stdout()) {
        streams::write_whole(&mut rt.stderr(), failure.line().as_bytes());
    }
}
