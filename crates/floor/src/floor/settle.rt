ghost use Rattle.std.specs.Prelude.{◌≡◌};
ghost use Rattle.service.specs.Meant.{meant_by};
ghost use Rattle.machine.specs.Machine.{settled};
ghost use Rattle.floor.specs.Seen.{seen};

use super::Floor;
use super::turn::Turn;
use machine::controller::{Lead, Role};
use machine::envelope::Message;
use machine::fault::Fault;
use machine::tables::Tables;
use service::Service;

impl Floor {
    /// The leader sends COMMIT of the least of its own length and the lengths told to all members,
    /// records it, and answers it.
    pub fn settle<S: Service>(
        &mut self,
        tables: &mut Tables<S>,
        controller: u32,
    ) -> Result<u32, Fault>
        ensures { record { answer = result; after = seen self.new tables.new } ≡ settled (meant_by S.Service) (seen self.old tables.old) controller }
    {
        let id = self.running(tables, controller)?;
        let me = self.at(id);
        let lead = self.lead(id)?;
        let count = lead.least(controller, me.length).ok_or(Fault::WrongState)?;
        if count <= lead.settled {
            return Err(Fault::NothingNew);
        }
        self.space_for(lead.members.into())?;
        let role = Role::Leader(Lead {
            settled: count,
            ..lead
        });
        let message = Message::Commit {
            epoch: me.epoch,
            count,
        };
        let mut turn = Turn {
            floor: self,
            tables,
            id,
        };
        turn.floor.assign(id, role);
        turn.send(lead.members.into(), message);
        Ok(count)
    }
}
