ghost use Rattle.std.specs.Prelude.{◌≡◌, IfOk, IsTrue, Some, None, if◌then◌else◌, vec_len};
ghost use Rattle.service.specs.Meant.{meant_by};
ghost use Rattle.machine.specs.Machine.{long, space};
ghost use Rattle.machine.specs.declared.fault.Fault.TheVariants.{BagFull};
ghost use Rattle.floor.specs.Asked.{refusal, no_id, not_running, lead_of};
ghost use Rattle.floor.specs.Seen.{seen, controller_at, AreLong};
ghost use Rattle.floor.specs.Lawful.{Sound};

use super::Floor;
use crate::ids::ControllerId;
use config::members::{CONTROLLERS, Members};
use config::service::EPOCHS;
use machine::controller::{Controller, Lead, Role};
use machine::fault::Fault;
use machine::tables::{MOST_SENT, PLACES, Tables};
use service::Service;

// Whether the tables are long enough. They are lent, of any length, so that each call asks it first; a
// turn then carries it.
pub(super) fn long_enough<S: Service>(tables: &Tables<S>) -> bool
    ensures answer { result ≡ long (vec_len tables.now.entries) (vec_len tables.now.openings) (vec_len tables.now.committed) (vec_len tables.now.speculative) (vec_len tables.now.envelopes) }
    ensures rows { IsTrue result → AreLong tables.now }
{
    tables.entries.len() >= (CONTROLLERS * PLACES) as usize
        && tables.openings.len() >= (EPOCHS * PLACES) as usize
        && tables.committed.len() >= CONTROLLERS as usize
        && tables.speculative.len() >= CONTROLLERS as usize
        && tables.envelopes.len() >= MOST_SENT as usize
}

impl Floor {
    // The controller's number; refused where the tables are too short, the floor is not started, or
    // there is no such controller.
    pub(super) fn id_of<S: Service>(
        &self,
        tables: &Tables<S>,
        controller: u32,
    ) -> Result<ControllerId, Fault>
        ensures answer { refusal result ≡ no_id (meant_by S.Service) (seen self.now tables.now) controller }
        ensures same { IfOk result (λ id. id.number ≡ controller) }
        ensures long { IfOk result (λ _. AreLong tables.now) }
    {
        if !long_enough(tables) {
            return Err(Fault::ShortTables);
        }
        if !self.started {
            return Err(Fault::NotStarted);
        }
        ControllerId::new(controller).ok_or(Fault::OutOfRange)
    }

    // The same; refused also where the controller is stopped.
    pub(super) fn running<S: Service>(
        &self,
        tables: &Tables<S>,
        controller: u32,
    ) -> Result<ControllerId, Fault>
        ensures answer { refusal result ≡ not_running (meant_by S.Service) (seen self.now tables.now) controller }
        ensures same { IfOk result (λ id. id.number ≡ controller) }
        ensures long { IfOk result (λ _. AreLong tables.now) }
    {
        let id = self.id_of(tables, controller)?;
        if !self.at(id).running {
            return Err(Fault::Stopped);
        }
        Ok(id)
    }

    // The controller of the number.
    pub(super) fn at(&self, id: ControllerId) -> Controller
        ensures there { result ≡ controller_at self.now id }
        ensures sound { Sound result }
    {
        self.controllers[id.index()]
    }

    // What the controller keeps as a leader.
    pub(super) fn lead(&self, id: ControllerId) -> Result<Lead, Fault>
        ensures { result ≡ lead_of (controller_at self.now id).role }
    {
        match self.at(id).role {
            Role::Leader(lead) => Ok(lead),
            Role::Fresh | Role::Follower => Err(Fault::WrongState),
        }
    }

    // Refused where the bag has no space for what is sent to these.
    pub(super) fn space_for(&self, to: Members) -> Result<(), Fault>
        ensures { refusal result ≡ (if space self.now.sent to then None else Some BagFull) }
    {
        if !to.is_empty() && self.sent >= MOST_SENT {
            return Err(Fault::BagFull);
        }
        Ok(())
    }
}
