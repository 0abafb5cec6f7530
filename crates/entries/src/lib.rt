//! Entries, and lists of them in lent slices.
#![tactic(auto)]

ghost use Rattle.std.specs.Prelude.{◌≡◌, ℕ, ◌+◌, ◌≤◌, length, if◌then◌else◌, nat_lt, slice_set};
ghost use Rattle.entries.specs.Lists.{holds};

/// An update with the epoch in which it was made and the serial that its order gave.
#[derive(Clone, Copy, Debug, PartialEq, Eq)]
pub struct Entry<U> {
    pub epoch: u32,
    pub serial: u32,
    pub update: U,
}

/// A list of entries: the rows of a lent slice, to be read.
#[derive(Clone, Copy, Debug, PartialEq, Eq)]
pub struct Entries<'a, U> {
    pub rows: &'a [Entry<U>],
}

impl<'a, U: Copy> Entries<'a, U> {
    /// Whether an entry of the list has the serial.
    pub fn contains(&self, serial: u32) -> bool
        ensures { result ≡ holds self.now.rows.now serial }
    {
        self.rows.iter().any(|e| e.serial == serial)
    }
}

/// A list of entries that may grow: the first `len` rows of a lent slice.
// A length beside a buffer, since the slice is lent and its rows past the list belong to nobody else.
#[derive(Drop)]
pub struct EntriesMut<'a, U> {
    pub rows: &'a mut [Entry<U>],
    pub len: usize,
    ghost fits: { len ≤ length rows.now },
}

impl<'a, U: Copy> EntriesMut<'a, U> {
    /// Appends the entry, and says whether there was room for it.
    // A bool, since room is the whole answer.
    pub fn push(&mut self, entry: Entry<U>) -> bool
        ensures same { self.new.rows.ghost_name ≡ self.old.rows.ghost_name }
        ensures room { result ≡ nat_lt self.old.len (length self.old.rows.now) }
        ensures len { self.new.len ≡ (if result then self.old.len + 1 else self.old.len) }
        ensures rows { self.new.rows.now ≡ (if result then slice_set self.old.rows.now self.old.len entry else self.old.rows.now) }
    {
        if self.len == self.rows.len() {
            return false;
        }
        self.rows[self.len] = entry;
        self.len += 1;
        true
    }
}
