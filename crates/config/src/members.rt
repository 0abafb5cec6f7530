ghost use Rattle.std.specs.Prelude.{◌≡◌, ◌<◌, ◌==◌, IfSome, IsSome, ◌↔◌};
ghost use Rattle.config.specs.Members.{member, other, only as only_one, without as set_without};

use std::marker::Model;

/// How many controllers a floor has.
pub const CONTROLLERS: u32 = 8;

/// A set of controllers. A clause sees it as the sum of 2^c over its controllers c.
// Values that are copied hold the number: one that held a set would not be copied where it is passed on twice.
#[derive(Clone, Copy, Debug, Default, PartialEq, Eq)]
pub struct Members {
    bits: u8,
}

impl Model for Members {
    ghost use Rattle.std.specs.Prelude.{ℕ};

    ghost Value = { ℕ };

    ghost view = { λ m. m.bits };

    ghost inverse = { λ n. record { bits = n } };
}

impl Members {
    /// The set without a controller.
    pub const NONE: Members = Members { bits: 0 };

    /// Whether the set has the controller; none above 7 is in it.
    pub fn has(self, controller: u32) -> bool
        ensures { result ≡ member self controller }
    {
        controller < CONTROLLERS && (self.bits >> controller) % 2 == 1
    }

    /// Whether `controller` is a member other than `this`.
    pub fn has_other(self, this: u32, controller: u32) -> bool
        ensures { result ≡ other self this controller }
    {
        controller != this && self.has(controller)
    }

    /// Whether nobody is in it.
    pub fn is_empty(self) -> bool
        ensures { result ≡ (self == 0) }
    {
        self.bits == 0
    }

    /// The set with this controller alone; the empty set for one above 7.
    pub fn only(controller: u32) -> Members
        ensures { result ≡ only_one controller }
    {
        if controller < CONTROLLERS {
            Members {
                bits: 1 << controller,
            }
        } else {
            Members::NONE
        }
    }

    /// The set without this controller.
    #[tactic(auto, using(crate::proofs::Sets::only_le))]
    pub fn without(self, controller: u32) -> Members
        ensures { result ≡ set_without self controller }
    {
        if self.has(controller) {
            Members {
                bits: self.bits - Members::only(controller).bits,
            }
        } else {
            self
        }
    }
}

impl From<u8> for Members {
    ghost from_gives = { λ bits m. m ≡ bits };

    fn from(bits: u8) -> Members {
        Members { bits }
    }
}

impl From<Members> for u8 {
    ghost from_gives = { λ m bits. bits ≡ m };

    fn from(members: Members) -> u8 {
        members.bits
    }
}
