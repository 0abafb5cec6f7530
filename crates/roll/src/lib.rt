//! A roll of cloth as a service: loading a roll and drawing cloth off it.

#![tactic(auto)]

ghost use Rattle.std.specs.Prelude.{◌≡◌, ℕ, refl};
ghost use Rattle.roll.specs.Cloth.{number, worked as cloth_worked, applied as cloth_applied};

use service::{Service, ServiceFault, Worked};

const MOST_LOADED: u32 = 200_000;

const MOST_DRAWN: u32 = 20_000;

/// A roll of cloth, by the millimetres left on it.
#[derive(Clone, Copy, Debug, PartialEq, Eq)]
pub struct Roll {
    pub left: u32,
}

/// What may be asked of a roll; lengths in millimetres.
#[derive(Clone, Copy, Debug, PartialEq, Eq)]
pub enum RollCommand {
    /// Put a roll of this length on, of at most 200,000 mm.
    Load(u32),
    /// Take this length off, of 1 to 20,000 mm.
    Draw(u32),
}

/// How a roll changes; lengths in millimetres.
#[derive(Clone, Copy, Debug, PartialEq, Eq)]
pub enum RollUpdate {
    Load(u32),
    Cut(u32),
}

/// Why a roll refuses, with the number of the refusal.
#[derive(Clone, Copy, Debug, PartialEq, Eq)]
pub enum RollFault {
    /// The length is none that may be loaded or drawn.
    OutOfRange = 1,
    /// Less is left than is to be drawn.
    NotEnough = 2,
}

// By hand, as each service numbers its own refusals and clauses name what `?` makes of them.
impl From<RollFault> for ServiceFault {
    ghost from_gives = { λ f r. r ≡ number f };

    fn from(fault: RollFault) -> ServiceFault {
        ServiceFault {
            number: fault as u32,
        }
    }
}

impl Service for Roll {
    type Command = RollCommand;

    type Update = RollUpdate;

    ghost Meaning = { ℕ };

    ghost mean = { λ r. r.left };

    ghost worked = { cloth_worked };

    ghost applied = { cloth_applied };

    ghost opening = { record { left = 0 } };

    ghost next = { λ s u. record { left = cloth_applied s.left u } };

    ghost means = { λ s u. refl };

    fn first() -> Roll {
        Roll { left: 0 }
    }

    fn work(&self, command: RollCommand) -> Result<Worked<RollUpdate>, ServiceFault> {
        match command {
            RollCommand::Load(length) if length > MOST_LOADED => Err(RollFault::OutOfRange.into()),
            RollCommand::Load(length) => Ok(Worked {
                reply: length,
                update: RollUpdate::Load(length),
            }),
            RollCommand::Draw(length) if length < 1 || length > MOST_DRAWN => Err(
                RollFault::OutOfRange.into(),
            ),
            RollCommand::Draw(length) => {
                let left = self.left.checked_sub(length).ok_or(RollFault::NotEnough)?;
                Ok(Worked {
                    reply: left,
                    update: RollUpdate::Cut(length),
                })
            }
        }
    }

    fn apply(self, update: RollUpdate) -> Roll {
        match update {
            RollUpdate::Load(length) => Roll { left: length },
            RollUpdate::Cut(length) => Roll {
                left: self.left.saturating_sub(length),
            },
        }
    }
}
