ghost use Rattle.std.specs.Prelude.{◌≡◌};
ghost use Rattle.sheet.specs.Faults.{line_of};

use crate::fault::SheetFault;
use rows::line::Line;

/// The line of a row, by what it was answered.
pub fn line_of(row: u32, answer: Result<u32, SheetFault>) -> Line
    ensures { result ≡ line_of row answer }
{
    match answer {
        Ok(answer) => Line {
            row,
            sheet: 0,
            floor: 0,
            inside: 0,
            answer,
        },
        Err(fault) => Line {
            row,
            sheet: fault.number(),
            floor: fault.at_floor(),
            inside: fault.inside(),
            answer: 0,
        },
    }
}
