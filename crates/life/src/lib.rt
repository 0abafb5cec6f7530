//! A life of a new floor that serves the roll, through two epochs, computed.
#![tactic(auto)]

ghost use Rattle.std.specs.Prelude.{◌≡◌};
ghost use Rattle.life.specs.Shown.{Shown, count};

/// How many calls the life has, through two epochs, that the machine makes of a new floor.
#[tactic(auto, using(crate::proofs::Shows::shows))]
pub fn length() -> u32
    ensures counted { result ≡ count }
    ensures shown { Shown }
{
    19
}
