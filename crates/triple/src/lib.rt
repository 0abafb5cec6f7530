//! A configuration service whose list is kept in three copies.
#![tactic(auto)]

mod copies;
pub mod fault;
pub mod table;
