ghost use Rattle.std.specs.Prelude.{◌≡◌, ◌+◌, ◌-◌, ◌*◌, ◌<◌, ◌≤◌, ◌++◌, length, drop, slice_set};
ghost use Rattle.service.specs.Meant.{meant_by};
ghost use Rattle.entries.specs.Lists.{holds as holds_serial};
ghost use Rattle.machine.specs.Machine.{stretch as stretch_of, over, part, run as run_of};

use crate::ids::ControllerId;
use entries::{Entries, EntriesMut, Entry};
use machine::tables::PLACES;
use service::Service;

// Where a controller's list lies: it is the first `length` of the places from controller × 64 on.
// Its methods are lent the table and ask its length: some read it and one writes it, and a struct that
// held it would be needed for each.
#[derive(Clone, Copy, Debug, PartialEq, Eq)]
pub(crate) struct Stretch {
    controller: ControllerId,
    length: u32,
    ghost short: { length ≤ 64 },
}

impl Stretch {
    pub(crate) fn new(controller: ControllerId, length: u32) -> Stretch
        requires { length ≤ 64 }
        ensures controller { result.controller.number ≡ controller.number }
        ensures length { result.length ≡ length }
    {
        Stretch { controller, length }
    }

    // The list.
    pub(crate) fn list<U: Copy>(self, entries: &[Entry<U>]) -> &[Entry<U>]
        requires { 512 ≤ length entries.now }
        ensures { result.now ≡ stretch_of entries.now self.controller.number self.length }
    {
        let from = self.controller.first_place();
        &entries[from..from + self.length as usize]
    }

    // Whether the list holds the serial.
    pub(crate) fn holds<U: Copy>(self, entries: &[Entry<U>], serial: u32) -> bool
        requires { 512 ≤ length entries.now }
        ensures { result ≡ holds_serial (stretch_of entries.now self.controller.number self.length) serial }
    {
        let list = Entries {
            rows: self.list(entries),
        };
        list.contains(serial)
    }

    // The state that the list's entries from the place `from` on make of a state.
    pub(crate) fn run<S: Service>(self, state: S, entries: &[Entry<S::Update>], from: u32) -> S
        requires within { from ≤ self.length }
        requires long { 512 ≤ length entries.now }
        ensures { result ≡ run_of (meant_by S.Service) state (part entries.now self.controller.number from (self.length - from)) }
    {
        let first = self.controller.first_place();
        let list = &entries[first + from as usize..first + self.length as usize];
        list.iter().fold(state, |state, e| state.apply(e.update))
    }

    // Appends to the list.
    #[tactic(auto, using(crate::proofs::Stretches::put_set))]
    pub(crate) fn append<U: Copy>(self, entries: &mut [Entry<U>], entry: Entry<U>)
        requires long { 512 ≤ length entries.old }
        requires room { self.length < 64 }
        ensures { entries.new ≡ slice_set entries.old (self.controller.number * 64 + self.length) entry }
    {
        let from = self.controller.first_place();
        append(
            &mut entries[from..from + PLACES as usize],
            self.length as usize,
            entry,
        )
    }
}

// Appends to the list of `len` entries in these rows.
fn append<U: Copy>(rows: &mut [Entry<U>], len: usize, entry: Entry<U>)
    requires { len < length rows.old }
    ensures { rows.new ≡ slice_set rows.old len entry }
{
    let mut list = EntriesMut { rows, len };
    list.push(entry);
}

// Copies a list to the front of these rows.
fn copy_into<U: Copy>(rows: &mut [Entry<U>], from: &[Entry<U>])
    requires { length from.now ≤ length rows.old }
    ensures { rows.new ≡ from.now ++ drop (length from.now) rows.old }
{
    rows[..from.len()].copy_from_slice(from);
}

// Copies a list into the table's stretch of places from `at` on.
#[tactic(auto, using(crate::proofs::Stretches::put_over))]
pub(crate) fn copy_at<U: Copy>(table: &mut [Entry<U>], at: usize, from: &[Entry<U>])
    requires short { length from.now ≤ 64 }
    requires within { at + 64 ≤ length table.old }
    ensures { table.new ≡ over table.old at from.now }
{
    copy_into(&mut table[at..at + PLACES as usize], from);
}
