//! Sheets for the carousel: its letter, and its floor with a triple of configurations.
#![tactic(auto)]

ghost use Rattle.std.specs.Prelude.{ℕ, IfOk};
ghost use Rattle.carousel_sheet.specs.Meaning.{carousel as carousel_meant, verbs, new_world, known as known_letter, says as said_by};
ghost use Rattle.sheet.specs.Fresh.{Gives};

use carousel::{CarouselCommand, CarouselUpdate};
use sheet::output::{Output, play_new};
use sheet::verb::Verb;
use std::alloc::{AllocError, Global};
use triple::table::Triple;

/// What an order's letter asks of the carousel.
#[derive(Clone, Copy, Debug, PartialEq, Eq)]
pub enum CarouselVerb {
    Fetch,
}

impl Verb for CarouselVerb {
    type Command = CarouselCommand;

    ghost known = { known_letter };

    ghost says = { said_by };

    // The match is the table of letters.
    fn of_letter(letter: char) -> Option<CarouselVerb> {
        match letter {
            't' => Some(CarouselVerb::Fetch),
            _ => None,
        }
    }

    fn command(self, value: u32) -> CarouselCommand {
        match self {
            CarouselVerb::Fetch => CarouselCommand::Fetch(value),
        }
    }
}

// Thin, so that a program names one function and no service.
/// Plays a sheet on a new floor, with the carousel as service and a triple of configurations.
pub fn play(heap: Global, sheet: &[u8]) -> Result<Output, AllocError>
    ensures { IfOk result (λ o. Gives carousel_meant verbs new_world sheet.now o) }
{
    play_new::<carousel::CarouselRow, Triple, CarouselVerb>(
        heap,
        Triple::new(),
        CarouselUpdate::Swap(0),
        sheet,
    )
}
