ghost use Rattle.std.specs.Prelude.{◌≡◌};
ghost use Rattle.service.specs.Meant.{meant_by};
ghost use Rattle.machine.specs.Machine.{step};
ghost use Rattle.floor.specs.Seen.{seen};

use super::Floor;
use config::service::ConfigService;
use machine::call::Call;
use machine::fault::Fault;
use machine::tables::Tables;
use service::Service;

impl Floor {
    /// Makes the call.
    pub fn perform<S: Service, C: ConfigService>(
        &mut self,
        tables: &mut Tables<S>,
        config: &mut C,
        call: Call<S::Command>,
    ) -> Result<u32, Fault>
        ensures { record { answer = result; after = seen self.new tables.new; config = C.ConfigService.meaning config.new } ≡ step (meant_by S.Service) (seen self.old tables.old) (C.ConfigService.meaning config.old) call }
    {
        match call {
            Call::Start { members, leader } => self.start(tables, config, members, leader),
            Call::Order {
                controller,
                serial,
                command,
            } => self.order(tables, controller, serial, command),
            Call::Settle { controller } => self.settle(tables, controller),
            Call::Hand {
                envelope,
                controller,
            } => self.hand(tables, envelope, controller),
        }
    }
}
