//! Reading and writing to the end, over any reader and writer. A failure is told from the end, and
//! a call that was interrupted or would have to wait is made again.
#![tactic(auto)]

ghost use Rattle.std.specs.Prelude.{◌≤◌, length, take};
ghost use Rattle.std.specs.Io.{ReadsAtMost};
ghost use Rattle.std.specs.Io.KnownBytes.{Appends};
ghost use Rattle.streams.specs.Judged.{Tells, Judges, GivesWhole};

use std::io::{ErrorKind, Read, Write};
use std::{io, thread};

// How often a call may still be made again in one reading or writing, all in all.
#[derive(Drop)]
struct Patience {
    left: u64,
}

impl Patience {
    // That of a whole reading or writing.
    fn new() -> Self {
        Patience { left: 100_000_000 }
    }

    // Waits, so that the call that failed is made again, or gives its cause back: the call has
    // failed for good.
    fn wait_after(&mut self, cause: io::Error) -> io::Result<()>
        ensures { Tells result cause self.old.left self.new.left }
    {
        match cause.kind() {
            ErrorKind::Interrupted | ErrorKind::WouldBlock if self.left > 0 => {
                self.left -= 1;
                thread::yield_now();
                Ok(())
            }
            _ => Err(cause),
        }
    }

    // What an answer of `read` or `write` comes to: the number of bytes that it moved, which is 0
    // at the end, or `None` where the call failed and is made again.
    fn judge(&mut self, answer: io::Result<usize>) -> io::Result<Option<usize>>
        ensures { Judges result answer self.old.left self.new.left }
    {
        match answer {
            Ok(moved) => Ok(Some(moved)),
            Err(cause) => {
                self.wait_after(cause)?;
                Ok(None)
            }
        }
    }
}

/// Reads until the input ends or `buf` is full, and answers how many bytes that were: the first of
/// `buf`. An error is that of a read which failed, or had to be made again 100,000,000 times in
/// this reading.
pub fn read_whole<R: Read>(reader: &mut R, buf: &mut [u8]) -> io::Result<usize>
    ensures within { ReadsAtMost result buf.new }
    ensures bytes { GivesWhole result (R.remaining reader.old) (R.remaining reader.new) buf.new }
{
    let mut filled = 0;
    let mut patience = Patience::new();
    while filled < buf.len() {
        match patience.judge(reader.read(&mut buf[filled..]))? {
            Some(0) => break,
            Some(n) => filled += n,
            None => {}
        }
    }
    Ok(filled)
}

/// Writes `text`, and answers how many of its bytes the writer took: all, or those before a write
/// that failed, took nothing, or had to be made again 100,000,000 times in this writing.
pub fn write_whole<W: Write>(writer: &mut W, text: &[u8]) -> usize
    ensures within { result ≤ length text.now }
    ensures bytes { Appends (W.contents writer.old) (W.contents writer.new) (take result text.now) }
{
    let mut written = 0;
    let mut patience = Patience::new();
    while written < text.len() {
        match patience.judge(writer.write(&text[written..])) {
            Ok(Some(0)) | Err(_) => return written,
            Ok(Some(n)) => written += n,
            Ok(None) => {}
        }
    }
    written
}
