ghost use Rattle.std.specs.Prelude.{◌≡◌, ◌-◌, ◌*◌, ◌<◌, ◌≤◌, IfSome, IsSome, ◌↔◌};

use config::members::CONTROLLERS;
use machine::tables::PLACES;

// The number of a controller, of which there are eight.
#[derive(Clone, Copy, Debug, PartialEq, Eq)]
pub(crate) struct ControllerId {
    number: u32,
    ghost small: { number < 8 },
}

impl ControllerId {
    // None from 8 on.
    pub(crate) fn new(number: u32) -> Option<ControllerId>
        ensures there { IsSome result ↔ (number < 8) }
        ensures same { IfSome result (λ id. id.number ≡ number) }
    {
        if number >= CONTROLLERS {
            return None;
        }
        Some(ControllerId { number })
    }

    pub(crate) fn number(self) -> u32
        ensures { result ≡ self.number }
    {
        self.number
    }

    pub(crate) fn index(self) -> usize
        ensures { result ≡ self.number }
    {
        self.number as usize
    }

    // The first place of its list.
    pub(crate) fn first_place(self) -> usize
        ensures { result ≡ self.number * 64 }
    {
        self.index() * PLACES as usize
    }
}

// The number of an epoch, of which there are 32, from 1 on.
#[derive(Clone, Copy, Debug, PartialEq, Eq)]
pub(crate) struct EpochId {
    number: u32,
    ghost first: { 1 ≤ number },
    ghost last: { number ≤ 32 },
}

impl EpochId {
    pub(crate) fn new(number: u32) -> EpochId
        requires first { 1 ≤ number }
        requires last { number ≤ 32 }
        ensures { result.number ≡ number }
    {
        EpochId { number }
    }

    pub(crate) fn number(self) -> u32
        ensures { result ≡ self.number }
    {
        self.number
    }

    // Its place among the epochs, from 0 on.
    pub(crate) fn index(self) -> usize
        ensures { result ≡ self.number - 1 }
    {
        self.number as usize - 1
    }

    // The first place of its opening list.
    pub(crate) fn first_place(self) -> usize
        ensures { result ≡ (self.number - 1) * 64 }
    {
        self.index() * PLACES as usize
    }
}
