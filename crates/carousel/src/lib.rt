//! A tool carousel as a service: a tool is fetched by an exchange of its station with station 0.

#![tactic(auto)]

ghost use Rattle.std.specs.Prelude.{◌≡◌, ℕ, List};
ghost use Rattle.carousel.specs.Stations.{straight};
ghost use Rattle.carousel.specs.Served.{number, mean as row_mean, worked as carousel_worked, applied as carousel_applied, next as row_next};
ghost use Rattle.carousel.specs.declared.CarouselUpdate.TheVariants.{Swap};
ghost use Rattle.carousel.specs.Tools.{mean_exchanged};

use service::{Service, ServiceFault, Worked};
use stations::Carousel;

pub mod stations;

/// A carousel as it lies in a table: `tools[s]` is the tool in station s, and nothing more is known.
#[derive(Clone, Copy, Debug, PartialEq, Eq)]
pub struct CarouselRow {
    pub tools: [u8; 8],
}

/// What may be asked of a carousel.
#[derive(Clone, Copy, Debug, PartialEq, Eq)]
pub enum CarouselCommand {
    /// Bring this tool, 0 to 7, to station 0.
    Fetch(u32),
}

/// How a carousel changes.
#[derive(Clone, Copy, Debug, PartialEq, Eq)]
pub enum CarouselUpdate {
    /// Exchange station 0 with this one.
    Swap(u32),
}

/// Why a carousel refuses, with the number of the refusal.
#[derive(Clone, Copy, Debug, PartialEq, Eq)]
pub enum CarouselFault {
    /// There is no tool of this number.
    NoTool = 1,
}

// By hand, as each service numbers its own refusals and clauses name what `?` makes of them.
impl From<CarouselFault> for ServiceFault {
    ghost from_gives = { λ f r. r ≡ number f };

    fn from(fault: CarouselFault) -> ServiceFault {
        ServiceFault {
            number: fault as u32,
        }
    }
}

impl CarouselRow {
    /// The carousel that the row means: its own, or the first where it holds none.
    pub fn carousel(&self) -> Carousel
        ensures { result.tools ≡ row_mean self.now }
    {
        Carousel::try_from(*self).unwrap_or_else(|_| Carousel::first())
    }
}

impl Service for CarouselRow {
    type Command = CarouselCommand;

    type Update = CarouselUpdate;

    ghost Meaning = { List ℕ };

    ghost mean = { row_mean };

    ghost worked = { carousel_worked };

    ghost applied = { carousel_applied };

    ghost opening = { record { tools = straight } };

    ghost next = { row_next };

    ghost means = { λ s. elim [ Swap k ↦ mean_exchanged s k ] };

    fn first() -> CarouselRow {
        Carousel::first().into()
    }

    fn work(&self, command: CarouselCommand) -> Result<Worked<CarouselUpdate>, ServiceFault> {
        let CarouselCommand::Fetch(tool) = command;
        let station = self
            .carousel()
            .station_of(tool)
            .ok_or(CarouselFault::NoTool)?;
        Ok(Worked {
            reply: station,
            update: CarouselUpdate::Swap(station),
        })
    }

    fn apply(self, update: CarouselUpdate) -> CarouselRow {
        let CarouselUpdate::Swap(station) = update;
        let mut carousel = self.carousel();
        carousel.exchange(station);
        carousel.into()
    }
}
