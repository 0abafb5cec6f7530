ghost use Rattle.std.specs.Prelude.{◌≡◌, IfOk};
ghost use Rattle.service.specs.Meant.{meant_by};
ghost use Rattle.sheet.specs.Verbs.{verbs_by};
ghost use Rattle.sheet.specs.Fresh.{fresh_world, Gives};

use crate::player::Player;
use crate::tally::Tally;
use crate::verb::Verb;
use config::service::ConfigService;
use service::Service;
use std::alloc::{AllocError, Global};

/// The lines that a sheet gets, as text, and what was counted.
#[derive(Debug, Drop)]
pub struct Output {
    pub text: String,
    pub tally: Tally,
}

/// Plays a sheet on a new floor over blank tables; an error where memory is wanting.
pub fn play_new<S: Service, C: ConfigService + Drop, V: Verb<Command = S::Command>>(
    heap: Global,
    config: C,
    blank: S::Update,
    sheet: &[u8],
) -> Result<Output, AllocError>
    ensures { IfOk result (λ o. Gives (meant_by S.Service) (verbs_by V.Verb) (fresh_world (meant_by S.Service) blank (C.ConfigService.meaning config)) sheet.now o) }
{
    let mut player: Player<S, C> = Player::new(heap, config, blank)?;
    let mut text = String::new(heap);
    let tally = player.play::<V>(sheet, &mut text)?;
    Ok(Output { text, tally })
}
