ghost use Rattle.std.specs.Prelude.{◌≡◌, IfOk};
ghost use Rattle.service.specs.Meant.{meant_by};
ghost use Rattle.machine.specs.Blank.{Blank, blank};

use crate::envelope::{Envelope, Message};
use config::members::CONTROLLERS;
use config::service::EPOCHS;
use entries::Entry;
use service::Service;
use std::alloc::{AllocError, Global};

/// How many places a list has.
pub const PLACES: u32 = 64;

/// How many envelopes the bag takes.
pub const MOST_SENT: u32 = 1024;

/// The tables that are handed to each call, which may be of any length: the call asks that first.
// Lent tables of plain rows, as the callers have them; no type of ours could hold what they hand in.
#[derive(Drop)]
pub struct Tables<S: Service> {
    /// The list of controller c lies in the 64 rows from c × 64 on.
    pub entries: Vec<Entry<S::Update>>,
    /// The list with which epoch e was opened lies in the 64 rows from (e − 1) × 64 on.
    pub openings: Vec<Entry<S::Update>>,
    /// The states into which entries are delivered, a row for each controller.
    pub committed: Vec<S>,
    /// The states in which leaders work, a row for each controller.
    pub speculative: Vec<S>,
    /// The envelopes that are sent, in their sequence.
    pub envelopes: Vec<Envelope<S::Update>>,
}

// A table of n rows like this one.
// Pushed one by one: collected, each row would lie on the stack twice, and a state may be large.
fn filled<T: Copy>(heap: Global, row: T, n: u32) -> Result<Vec<T>, AllocError>
    ensures { IfOk result (λ v. v.items ≡ blank n row) }
{
    let mut rows = Vec::with_capacity(heap, n as usize)?;
    for _i in 0..n {
        rows.push(row)?;
    }
    Ok(rows)
}

impl<S: Service> Tables<S> {
    /// Tables of the lengths that a call asks for, filled with this update and the first state.
    pub fn new(heap: Global, update: S::Update) -> Result<Tables<S>, AllocError>
        ensures { IfOk result (λ t. Blank (meant_by S.Service) update t) }
    {
        let entry = Entry {
            epoch: 0,
            serial: 0,
            update,
        };
        let envelope = Envelope {
            sender: 0,
            to: 0,
            message: Message::Commit { epoch: 0, count: 0 },
        };
        Ok(Tables {
            entries: filled(heap, entry, CONTROLLERS * PLACES)?,
            openings: filled(heap, entry, EPOCHS * PLACES)?,
            committed: filled(heap, S::first(), CONTROLLERS)?,
            speculative: filled(heap, S::first(), CONTROLLERS)?,
            envelopes: filled(heap, envelope, MOST_SENT)?,
        })
    }
}
