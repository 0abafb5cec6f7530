ghost use Rattle.std.specs.Prelude.{◌≡◌, ◌+◌, ◌<◌, ◌≤◌, if◌then◌else◌, is_ok};

use crate::fault::SheetFault;

/// How many rows a sheet had, and how many of them were granted.
#[derive(Clone, Copy, Debug, Default, PartialEq, Eq)]
pub struct Tally {
    pub rows: u32,
    pub granted: u32,
}

impl Tally {
    // Counts a row, by its answer.
    pub(crate) fn count(&mut self, answer: Result<u32, SheetFault>)
        requires rows { self.old.rows < 65536 }
        requires granted { self.old.granted ≤ 65536 }
        ensures rows { self.new.rows ≡ self.old.rows + 1 }
        ensures granted { self.new.granted ≡ self.old.granted + (if is_ok answer then 1 else 0) }
    {
        self.rows += 1;
        if answer.is_ok() {
            self.granted += 1;
        }
    }
}
