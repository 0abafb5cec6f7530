//! What the programs share: reading a sheet, writing its lines, and saying how it went.

#![tactic(auto)]

use sheet::output::Output;
use sheet::player::MOST_BYTES;
use std::alloc::{AllocError, Global};
use std::io::{Read, Write};
use std::{env, fs, io};
use thiserror::Error;

/// Why a program ends with status 1.
#[derive(Debug, Drop, Error)]
pub enum Trouble {
    #[error("the sheet cannot be read: {0}")]
    Unreadable(io::Error),
    #[error("the lines cannot be written: {0}")]
    Unwritable(io::Error),
    #[error("there is not enough memory")]
    NoMemory,
}

// By hand, as a case that held the error would be printed otherwise.
impl From<AllocError> for Trouble {
    fn from(_error: AllocError) -> Trouble {
        Trouble::NoMemory
    }
}

/// The sheets of one kind of floor.
// A trait and not a closure: a call of a closure would ask of `run`'s callers that it may be made.
pub trait Sheets {
    /// Plays a sheet on a new floor.
    fn play(heap: Global, sheet: &[u8]) -> Result<Output, AllocError>;
}

// The bytes of the file that the first argument names, or of standard input.
fn read_bytes(rt: &HostRuntime) -> io::Result<Vec<u8>> {
    if let Some(path) = env::args(rt)?.nth(1) {
        return fs::read(rt, path.as_str());
    }
    let mut sheet = Vec::new(rt.alloc());
    rt.stdin().read_to_end(&mut sheet)?;
    Ok(sheet)
}

/// The sheet that a program is to play: the file that its first argument names, or standard input.
pub fn read_sheet(rt: &HostRuntime) -> Result<Vec<u8>, Trouble> {
    read_bytes(rt).map_err(Trouble::Unreadable)
}

/// The sheet in a file.
pub fn read_file(rt: &HostRuntime, path: &str) -> Result<Vec<u8>, Trouble> {
    fs::read(rt, path).map_err(Trouble::Unreadable)
}

/// Writes the lines to standard output.
pub fn write_lines(rt: &HostRuntime, output: &Output) -> Result<(), Trouble> {
    rt.stdout()
        .write_all(output.text.as_bytes())
        .map_err(Trouble::Unwritable)
}

// Says on standard error what was done with a sheet of this many bytes.
fn summarize(rt: &HostRuntime, bytes: usize, output: &Output) -> io::Result<()> {
    if bytes > MOST_BYTES {
        return eprintln!(rt;
            "the sheet has {bytes} bytes, more than {MOST_BYTES}: nothing was played"
        );
    }
    let rows = output.tally.rows;
    let granted = output.tally.granted;
    let refused = rows.saturating_sub(granted);
    eprintln!(rt; "{rows} rows played: {granted} granted, {refused} refused")
}

/// Writes the lines to standard output, and a summary of a sheet of this many bytes to standard error.
pub fn write_output(rt: &HostRuntime, bytes: usize, output: &Output) -> Result<(), Trouble> {
    write_lines(rt, output)?;
    let _ = summarize(rt, bytes, output);
    Ok(())
}

/// Hands on how a program ended, and says on standard error why it failed.
pub fn ended(rt: &HostRuntime, res: Result<(), Trouble>) -> Result<(), Trouble> {
    if let Err(trouble) = &res {
        let _ = eprintln!(rt; "{trouble}");
    }
    res
}

fn play_sheet<S: Sheets>(rt: &HostRuntime) -> Result<(), Trouble> {
    let sheet = read_sheet(rt)?;
    let output = S::play(rt.alloc(), &sheet)?;
    write_output(rt, sheet.len(), &output)
}

/// Plays the sheet that the program is given, and writes its lines. A summary, or why it failed,
/// goes to standard error.
pub fn run<S: Sheets>(rt: &HostRuntime) -> Result<(), Trouble> {
    ended(rt, play_sheet::<S>(rt))
}
