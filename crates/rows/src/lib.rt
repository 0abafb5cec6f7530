//! Run sheets as bytes: their rows, the fields of a row, and the lines that answer them.
#![tactic(auto)]

pub mod line;
pub mod row;
pub mod token;

pub use line::Line;
pub use row::{Rows, is_printable, rows_of};
pub use token::{Cut, Fields, Token, fields_of, first_field};
