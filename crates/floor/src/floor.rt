ghost use Rattle.std.specs.Prelude.{◌≡◌, ◌≤◌, length};
ghost use Rattle.floor.specs.Lawful.{Lawful, Short};

use config::members::CONTROLLERS;
use config::service::EPOCHS;
use machine::controller::Controller;
use machine::seat::{SEATS, Seat};

mod asks;
mod change;
pub mod hand;
mod lists;
pub mod order;
pub mod perform;
mod refusal;
pub mod settle;
pub mod start;
mod turn;

type Controllers = [Controller; CONTROLLERS as usize];

/// The four change seats.
#[derive(Clone, Copy, Debug, PartialEq, Eq)]
pub struct Seats {
    pub at: [Seat; SEATS as usize],
}

/// The floor's own record: eight controllers, four change seats, and how many envelopes are sent.
#[derive(Debug, Drop)]
pub struct Floor {
    started: bool,
    controllers: Controllers,
    seats: Seats,
    // the length of the list with which epoch e was opened, at e − 1; here and in no table, since
    // each call may be handed another table
    lengths: [u32; EPOCHS as usize],
    // how many envelopes the bag holds, which is a lent table too
    sent: u32,
    // Ghost fields and no model: contracts speak of a floor and its tables together, as `seen`, and
    // a model of the floor alone would be no plainer.
    ghost sized: { length controllers ≡ 8 },
    ghost lawful: { Lawful controllers },
    ghost few: { sent ≤ 1024 },
    ghost seated: { length seats.at ≡ 4 },
    ghost counted: { length lengths ≡ 32 },
    ghost short: { Short lengths },
}
