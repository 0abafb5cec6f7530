ghost use Rattle.std.specs.Prelude.{◌≡◌, ℕ, ◌<◌, ◌==◌, true, IfSome, slice_index, position};
ghost use Rattle.carousel.specs.Stations.{holds, all_tools, none_twice, is_carousel, straight, found, exchanged};

use crate::CarouselRow;

// As many tools as stations, each counted in the type in which it is asked.
const TOOLS: u8 = 8;

const STATIONS: u32 = 8;

/// Whether every station holds one of the tools.
fn all_tools(stations: &[u8]) -> bool
    ensures { result ≡ all_tools stations.now }
{
    stations.iter().all(|tool| *tool < TOOLS)
}

// Whether one of the stations holds the tool. A slice's `contains` takes longer over so few.
fn has(stations: &[u8], tool: u8) -> bool
    ensures { result ≡ holds stations.now tool }
{
    stations.iter().any(|t| *t == tool)
}

/// Whether no two stations hold the same tool.
fn none_twice(stations: &[u8]) -> bool
    ensures { result ≡ none_twice stations.now }
{
    match stations {
        [] => true,
        [tool, rest @ ..] => !has(rest, *tool) && none_twice(rest),
    }
}

/// Whether the stations hold the tools 0 to 7, each exactly once.
fn holds_each_once(stations: &[u8; 8]) -> bool
    ensures { result ≡ is_carousel stations.now }
{
    all_tools(stations) && none_twice(stations)
}

/// The first station that holds the tool.
fn first_holder(stations: &[u8; 8], tool: u32) -> Option<usize>
    ensures value { result ≡ position (λ t. t == tool) stations.now }
    ensures there { IfSome result (λ s. (s < 8) × (slice_index stations.now s ≡ tool)) }
{
    stations.iter().position(|t| u32::from(*t) == tool)
}

/// Eight stations that hold the tools 0 to 7, each exactly once.
// A ghost field and no model: a carousel is its stations, and a clause has no need to see it otherwise.
#[derive(Clone, Copy, Debug, PartialEq, Eq)]
pub struct Carousel {
    // `tools[s]` is the tool in station s
    tools: [u8; 8],
    ghost each_once: { is_carousel tools ≡ true },
}

/// The row does not hold each tool exactly once.
#[derive(Clone, Copy, Debug, PartialEq, Eq)]
pub struct NoCarousel;

impl Carousel {
    /// Tool i in station i.
    pub fn first() -> Carousel
        ensures { result.tools ≡ straight }
    {
        Carousel {
            tools: [0, 1, 2, 3, 4, 5, 6, 7],
        }
    }

    /// The station that holds the tool; only the tools 0 to 7 have one.
    #[tactic(auto, using(crate::proofs::Places::position_of_tool))]
    pub fn station_of(&self, tool: u32) -> Option<u32>
        ensures value { result ≡ found self.now.tools tool }
        ensures there { IfSome result (λ s. (s < 8) × (slice_index self.now.tools s ≡ tool)) }
    {
        let station = first_holder(&self.tools, tool)?;
        Some(station as u32)
    }

    /// Exchanges the stations 0 and `station`; a station above 7 changes nothing.
    pub fn exchange(&mut self, station: u32)
        ensures { self.new.tools ≡ exchanged self.old.tools station }
    {
        if station < STATIONS {
            self.tools.swap(0, station as usize);
        }
    }
}

// As a configuration is made of its row: two types with a check each, and no rule in common.
impl TryFrom<CarouselRow> for Carousel {
    ghost use Rattle.carousel.specs.Made.{Makes};

    type Error = NoCarousel;

    ghost try_from_gives = { Makes };

    fn try_from(row: CarouselRow) -> Result<Carousel, NoCarousel> {
        let CarouselRow { tools } = row;
        if !holds_each_once(&tools) {
            return Err(NoCarousel);
        }
        Ok(Carousel { tools })
    }
}

impl From<Carousel> for CarouselRow {
    ghost use Rattle.carousel.specs.Made.{row_of};

    ghost from_gives = { λ c r. r ≡ row_of c };

    fn from(carousel: Carousel) -> CarouselRow {
        let Carousel { tools } = carousel;
        CarouselRow { tools }
    }
}
