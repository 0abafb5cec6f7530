//! Plays a run sheet with the roll on a single table.

#![tactic(auto)]

use program::{Sheets, Trouble, run};
use sheet::output::Output;
use std::alloc::{AllocError, Global};

struct RollSheets;

impl Sheets for RollSheets {
    fn play(heap: Global, sheet: &[u8]) -> Result<Output, AllocError> {
        roll_sheet::play(heap, sheet)
    }
}

fn main(rt: HostRuntime) -> Result<(), Trouble> {
    run::<RollSheets>(&rt)
}
