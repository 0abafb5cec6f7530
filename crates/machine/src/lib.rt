//! What the machine's records are made of: controllers, envelopes, seats, refusals and tables.
#![tactic(auto)]

pub mod call;
pub mod controller;
pub mod envelope;
pub mod fault;
pub mod seat;
pub mod tables;
