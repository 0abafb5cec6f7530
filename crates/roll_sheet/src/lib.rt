//! Sheets for the roll: its letters, and its floor with a single table of configurations.
#![tactic(auto)]

ghost use Rattle.std.specs.Prelude.{◌≡◌, ℕ, IfOk};
ghost use Rattle.roll_sheet.specs.Meaning.{roll as roll_meant, verbs, new_world, known as known_letter, says as said_by};
ghost use Rattle.sheet.specs.Fresh.{Gives};
ghost use Rattle.roll_sheet.specs.Worked.{Worked};

use config::single::SingleTable;
use roll::{RollCommand, RollUpdate};
use sheet::output::{Output, play_new};
use sheet::verb::Verb;
use std::alloc::{AllocError, Global};

/// What an order's letter asks of the roll.
#[derive(Clone, Copy, Debug, PartialEq, Eq)]
pub enum RollVerb {
    Load,
    Draw,
}

impl Verb for RollVerb {
    type Command = RollCommand;

    ghost known = { known_letter };

    ghost says = { said_by };

    // The match is the table of letters.
    fn of_letter(letter: char) -> Option<RollVerb> {
        match letter {
            'l' => Some(RollVerb::Load),
            'd' => Some(RollVerb::Draw),
            _ => None,
        }
    }

    fn command(self, value: u32) -> RollCommand {
        match self {
            RollVerb::Load => RollCommand::Load(value),
            RollVerb::Draw => RollCommand::Draw(value),
        }
    }
}

// Thin, so that a program names one function and no service.
/// Plays a sheet on a new floor, with the roll as service and a single table of configurations.
#[tactic(auto, using(crate::proofs::Plays::worked))]
pub fn play(heap: Global, sheet: &[u8]) -> Result<Output, AllocError>
    ensures played { IfOk result (λ o. Gives roll_meant verbs new_world sheet.now o) }
    ensures worked { Worked }
{
    play_new::<roll::Roll, SingleTable, RollVerb>(
        heap,
        SingleTable::new(),
        RollUpdate::Load(0),
        sheet,
    )
}

#[cfg(test)]
mod tests {
    use super::RollVerb;
    use config::single::SingleTable;
    use machine::fault::Fault;
    use roll::{Roll, RollUpdate};
    use sheet::fault::SheetFault;
    use sheet::player::Player;

    #[test]
    fn a_new_player_plays_a_row(rt: HostRuntime) {
        let table = SingleTable::new();
        let Ok(mut player) = Player::<Roll, SingleTable>::new(
            rt.alloc(),
            table,
            RollUpdate::Load(0),
        ) else {
            panic!(rt; "there is not enough memory");
        };
        let early = player.play_row::<RollVerb>(b"o,0,1,l,5");
        assert_eq!(rt; early, Err(SheetFault::Floor(Fault::NotStarted)));
        assert_eq!(rt; player.play_row::<RollVerb>(b"f,1,0"), Ok(1));
        assert_eq!(rt; player.play_row::<RollVerb>(b"o,0,1,l,5"), Ok(5));
    }
}
