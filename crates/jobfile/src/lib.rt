//! Job files: their header and commands, what stops a whole file, and the call that a command asks
//! for (docs/MEMORY.md, section 13). A file is bytes; its fields are 32 bits, the low byte first.
#![tactic(auto)]

ghost use Rattle.std.specs.Prelude.{◌+◌, ◌≤◌, ◌≡◌, length, Some, None};
ghost use Rattle.calls.specs.Answers.{call_for};
ghost use Rattle.jobfile.specs.Files.{field, header_of, command_at, commands_outside, geometry_stops, file_stops};
ghost use Rattle.jobfile.specs.Decoding.{when_unused, decoded_call};
ghost use Rattle.jobfile.specs.Read.{Opens, Decodes, stop_number};

use calls::Call;
use geometry::Geometry;
use places::Address;
use sizes::Layout;
use std::error::Error;
use std::fmt;

/// The six fields of a header, as they stand in the file (rule 13.2). Nothing is assumed of them.
#[derive(Clone, Copy, Debug, PartialEq, Eq)]
pub struct Header {
    /// The first four fields.
    pub geometry: Geometry,
    /// How many commands there are.
    pub commands: u32,
    /// Where the first command begins, in bytes from the start of the file.
    pub offset: u32,
}

/// The three fields of a command, as they stand in the file (rule 13.3).
#[derive(Clone, Copy, Debug, PartialEq, Eq)]
pub struct Command {
    operation: u32,
    address: u32,
    pattern: u32,
}

/// Why a whole file is stopped (rule 13.6). `u32::from` gives its number, and as text it is that
/// and a sentence, like `stopped with 1: no such geometry`.
#[derive(Clone, Copy, Debug, PartialEq, Eq)]
pub enum Stop {
    /// 7: under 24 bytes or over 16,384; or the commands begin in the header or end past the file.
    BadFile,
    /// 1: the four numbers are no geometry.
    BadGeometry,
    /// 9: the depth is over 1,024, or the indicators have over 4,096 words.
    TooLarge,
}

impl From<Stop> for u32 {
    ghost from_gives = { λ stop number. number ≡ stop_number stop };

    /// The number that the report of a stopped job has.
    fn from(stop: Stop) -> u32 {
        match stop {
            Stop::BadFile => 7,
            Stop::BadGeometry => 1,
            Stop::TooLarge => 9,
        }
    }
}

impl fmt::Display for Stop {
    fn fmt<W: fmt::Write>(&self, f: &mut fmt::Formatter<W>) -> fmt::Result {
        let why = match self {
            Stop::BadFile => "the file is no whole job",
            Stop::BadGeometry => "no such geometry",
            Stop::TooLarge => "its tables are too large",
        };
        write!(f, "stopped with {}: {why}", u32::from(*self))
    }
}

impl Error for Stop {}

/// A file that nothing stops.
#[derive(Clone, Copy, Debug)]
pub struct Job {
    /// The file's header.
    pub header: Header,
    /// The layout of the geometry in it.
    pub layout: Layout,
}

// The field at a place of the file, whose four bytes are there.
#[tactic(auto, unfolding(crate::specs::Files::field))]
fn field(file: &[u8], at: usize) -> u32
    requires { at + 4 ≤ length file.now }
    ensures { result ≡ field file.now at }
{
    u32::from_le_bytes([file[at], file[at + 1], file[at + 2], file[at + 3]])
}

// The header of a file that is long enough to have one.
#[tactic(auto, unfolding(crate::specs::Files::header_of))]
fn header_of(file: &[u8]) -> Header
    requires { 24 ≤ length file.now }
    ensures { result ≡ header_of file.now }
{
    Header {
        geometry: Geometry {
            kind: field(file, 0),
            depth: field(file, 4),
            pattern_width: field(file, 8),
            set_width: field(file, 12),
        },
        commands: field(file, 16),
        offset: field(file, 20),
    }
}

/// The command that begins at byte `at` of the file, whose twelve bytes are there.
#[tactic(auto, unfolding(crate::specs::Files::command_at))]
pub fn command_at(file: &[u8], at: usize) -> Command
    requires { at + 12 ≤ length file.now }
    ensures { result ≡ command_at file.now at }
{
    Command {
        operation: field(file, at),
        address: field(file, at + 4),
        pattern: field(file, at + 8),
    }
}

// Whether the offset lies in the header, or the commands would end past a file of this length. An
// offset past the end counts also where there is no command. The sum is taken in 64 bits, in which
// it cannot wrap.
#[tactic(auto, unfolding(crate::specs::Files::commands_outside))]
fn is_outside(header: Header, length: usize) -> bool
    ensures { result ≡ commands_outside header length }
{
    header.offset < 24
        || (length as u64) < u64::from(header.offset) + 12 * u64::from(header.commands)
}

// The stops of the geometry in a header.
#[tactic(auto, unfolding(machines::specs::Refusals::first_refusal))]
fn size(header: Header) -> Result<Job, Stop>
    ensures { Opens (geometry_stops header.geometry) header result }
{
    let layout = Layout::of(header.geometry).ok_or(Stop::BadGeometry)?;
    if 1024 < layout.geometry.depth || 4096 < layout.sizes.indicator_words {
        return Err(Stop::TooLarge);
    }
    Ok(Job { header, layout })
}

/// Opens a file: the first of its stops, in the order 7, 1, 9 (rule 13.6), or the job.
#[tactic(auto, unfolding(machines::specs::Refusals::first_refusal))]
pub fn open(file: &[u8]) -> Result<Job, Stop>
    ensures { Opens (file_stops file.now) (header_of file.now) result }
{
    if !(24..=16384).contains(&file.len()) {
        return Err(Stop::BadFile);
    }
    let header = header_of(file);
    if is_outside(header, file.len()) {
        return Err(Stop::BadFile);
    }
    size(header)
}

// The call, if the field that it does not use is 0.
fn unless_stray(call: Call, field: u32) -> Option<Call>
    ensures { Decodes result (λ m. when_unused field (Some (call_for call m))) }
{
    (field == 0).then_some(call)
}

/// The call that a command asks for (rule 13.4). It asks for none where number 8 stops it (rule
/// 13.7): its operation is not 1 to 6, or a field that the operation does not use is not 0.
#[tactic(auto, unfolding(crate::specs::Decoding::decoded_call))]
pub fn decode(command: Command) -> Option<Call>
    ensures { Decodes result (λ m. decoded_call m command) }
{
    let address = Address::new(command.address);
    match command.operation {
        1 => Some(Call::Write(address, command.pattern)),
        2 => unless_stray(Call::Erase(address), command.pattern),
        3 => unless_stray(Call::FirstMatch(command.pattern), command.address),
        4 => unless_stray(Call::AllMatch(command.pattern), command.address),
        5 => unless_stray(Call::Read(address), command.pattern),
        6 if command.address == 0 => unless_stray(Call::Clear, command.pattern),
        _ => None,
    }
}
