//! What holds over every life of a floor, on the call that makes it.
#![tactic(auto)]

ghost use Rattle.std.specs.Prelude.{◌≡◌, ℕ};
ghost use Rattle.service.specs.Meant.{meant_by};
ghost use Rattle.machine.specs.Changes.{act, act_of};
ghost use Rattle.floor.specs.Seen.{seen};
ghost use Rattle.law.specs.Safety.{Law};

use config::service::ConfigService;
use floor::floor::Floor;
use machine::call::Call;
use machine::fault::Fault;
use machine::tables::Tables;
use service::Service;

/// Makes a call of a life. Over every life of a floor the law holds, whatever calls it has. It errs as
/// `perform` of the floor does.
#[tactic(auto, using(crate::proofs::Steps::steps))]
pub fn live<S: Service, C: ConfigService>(
    floor: &mut Floor,
    tables: &mut Tables<S>,
    config: &mut C,
    call: Call<S::Command>,
) -> Result<u32, Fault>
    ensures made { record { answer = result; after = seen floor.new tables.new; config = C.ConfigService.meaning config.new } ≡ act (meant_by S.Service) (seen floor.old tables.old) (C.ConfigService.meaning config.old) (act_of call) }
    ensures law { Law (meant_by S.Service) }
{
    floor.perform(tables, config, call)
}
