ghost use Rattle.std.specs.Prelude.{◌≡◌, ◌+◌, ◌≤◌, ◌++◌, if◌then◌else◌, is_ok, IsOk, string_bytes, string_len};
ghost use Rattle.std.specs.String.{string_capacity};
ghost use Rattle.rows.specs.Lines.{text};

use itoa::Buffer;
use std::alloc::AllocError;

/// The most bytes that a line takes: five numbers of at most ten digits, four commas, CR LF.
pub const LINE_ROOM: usize = 56;

// Four commas, CR LF.
const ENDS: usize = 6;

/// A line of the answers: the row, the sheet's and the floor's numbers, the number inside, and the answer.
#[derive(Clone, Copy, Debug, PartialEq, Eq)]
pub struct Line {
    pub row: u32,
    pub sheet: u32,
    pub floor: u32,
    pub inside: u32,
    pub answer: u32,
}

impl Line {
    /// Writes the line's text at the end of `out`, or nothing where there is no memory for it.
    // No `Display`: `write!` never promises success, and with room this does.
    pub fn write(&self, out: &mut String) -> Result<(), AllocError>
        ensures text { string_bytes out.new ≡ (if is_ok result then string_bytes out.old ++ text self.now else string_bytes out.old) }
        ensures succeeds { string_len out.old + LINE_ROOM ≤ string_capacity out.old → IsOk result }
        ensures capacity { string_capacity out.old ≤ string_capacity out.new }
        ensures within { string_len out.new ≤ string_len out.old + LINE_ROOM }
    {
        let mut row = Buffer::new();
        let mut sheet = Buffer::new();
        let mut floor = Buffer::new();
        let mut inside = Buffer::new();
        let mut answer = Buffer::new();
        let row = row.format(self.row);
        let sheet = sheet.format(self.sheet);
        let floor = floor.format(self.floor);
        let inside = inside.format(self.inside);
        let answer = answer.format(self.answer);
        out.reserve(row.len() + sheet.len() + floor.len() + inside.len() + answer.len() + ENDS)?;
        out.push_str(row)?;
        out.push_str(",")?;
        out.push_str(sheet)?;
        out.push_str(",")?;
        out.push_str(floor)?;
        out.push_str(",")?;
        out.push_str(inside)?;
        out.push_str(",")?;
        out.push_str(answer)?;
        out.push_str("\r\n")
    }
}
