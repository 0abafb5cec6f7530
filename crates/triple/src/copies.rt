ghost use Rattle.std.specs.Prelude.{◌≡◌, ◌<◌, ◌≤◌};
ghost use Rattle.triple.specs.Copies.{pushed, held as held_by, longer as longer_of, longest as longest_of, copies_stored, no_copies};

use config::row::ConfigRow;
use config::service::EPOCHS;

// One copy of the list: its first `len` rows. They are no `ArrayVec`, since a copy is made level
// with another by assignment, where an `ArrayVec` has only a clone that may fail.
#[derive(Clone, Copy, Debug, PartialEq, Eq)]
pub struct CopyRows {
    rows: [ConfigRow; EPOCHS as usize],
    len: u32,
}

// Three copies of one list.
#[derive(Clone, Copy, Debug, PartialEq, Eq)]
pub struct Copies {
    at: [CopyRows; 3],
}

impl CopyRows {
    pub(crate) fn held(&self) -> &[ConfigRow]
        requires { self.now.len ≤ 32 }
        ensures { result.now ≡ held_by self.now }
    {
        &self.rows[..self.len as usize]
    }

    // The longer of two copies; this one, where they are level.
    fn longer<'a>(&'a self, other: &'a CopyRows) -> &'a CopyRows
        ensures { result.now ≡ longer_of self.now other.now }
    {
        if self.len < other.len { other } else { self }
    }

    fn with(mut self, row: ConfigRow) -> CopyRows
        requires { self.len < 32 }
        ensures { result ≡ pushed self row }
    {
        self.rows[self.len as usize] = row;
        self.len += 1;
        self
    }
}

impl Copies {
    pub(crate) fn new() -> Copies
        ensures { result ≡ no_copies }
    {
        let empty = CopyRows {
            rows: [ConfigRow::default(); EPOCHS as usize],
            len: 0,
        };
        Copies { at: [empty; 3] }
    }

    // The first of the longest copies.
    pub(crate) fn longest(&self) -> &CopyRows
        ensures { result.now ≡ longest_of self.now }
    {
        let [first, second, third] = &self.at;
        first.longer(second).longer(third)
    }

    // Brings each copy that is up level with the longest, and appends the row to it.
    pub(crate) fn store(&mut self, up: &[bool; 3], row: ConfigRow)
        requires { (longest_of self.old).len < 32 }
        ensures { self.new ≡ copies_stored self.old up.now row }
    {
        let level = self.longest().with(row);
        if up[0] {
            self.at[0] = level;
        }
        if up[1] {
            self.at[1] = level;
        }
        if up[2] {
            self.at[2] = level;
        }
    }
}
