//! Plays a run sheet with the carousel on the triple.

#![tactic(auto)]

use program::{Sheets, Trouble, run};
use sheet::output::Output;
use std::alloc::{AllocError, Global};

struct CarouselSheets;

impl Sheets for CarouselSheets {
    fn play(heap: Global, sheet: &[u8]) -> Result<Output, AllocError> {
        carousel_sheet::play(heap, sheet)
    }
}

fn main(rt: HostRuntime) -> Result<(), Trouble> {
    run::<CarouselSheets>(&rt)
}
