ghost use Rattle.std.specs.Prelude.{◌≡◌, ◌<◌, ◌≤◌, true, length, slice_index_or};
ghost use Rattle.service.specs.Meant.{meant_by};
ghost use Rattle.machine.specs.Rows.{no_controller, all_joined, joined as joined_as};
ghost use Rattle.machine.specs.Machine.{started_by, opened, all_first};
ghost use Rattle.floor.specs.New.{New};
ghost use Rattle.floor.specs.Seen.{seen, AreLong};

use super::asks::long_enough;
use super::{Controllers, Floor, Seats};
use config::configuration::Configuration;
use config::members::{CONTROLLERS, Members};
use config::row::ConfigRow;
use config::service::{ConfigService, EPOCHS};
use machine::controller::{Controller, Lead, Role};
use machine::fault::Fault;
use machine::seat::{SEATS, Seat};
use machine::tables::Tables;
use service::Service;
use std::array;

// The controller `this` as the start of an epoch 1 with this configuration leaves it.
fn joined(row: &ConfigRow, controllers: &Controllers, this: usize) -> Controller
    requires { this < 8 }
    ensures { result ≡ joined_as row.now.members row.now.leader this (slice_index_or controllers.now this no_controller) }
{
    let controller = controllers[this];
    let members = Members::from(row.members);
    if !members.has(this as u32) {
        return controller;
    }
    let role = if this == row.leader as usize {
        Role::Leader(Lead::first(members, this as u32))
    } else {
        Role::Follower
    };
    Controller {
        role,
        epoch: 1,
        promise: 1,
        length: 0,
        delivered: 0,
        ..controller
    }
}

// What the start of epoch 1 makes of the controllers.
#[tactic(auto, unfolding(machine::specs::Rows::all_joined))]
fn joined_all(row: &ConfigRow, controllers: &Controllers) -> Controllers
    ensures { result ≡ all_joined row.now.members row.now.leader controllers.now }
{
    array::from_fn(|c| joined(row, controllers, c))
}

// Every controller's state becomes the first.
#[tactic(auto, unfolding(machine::specs::Machine::all_first))]
fn reset<S: Service>(states: &mut [S])
    requires { 8 ≤ length states.old }
    ensures { states.new ≡ all_first S.Service.opening states.old }
{
    states[..CONTROLLERS as usize].copy_from_slice(&[S::first(); CONTROLLERS as usize]);
}

impl Floor {
    /// A floor that is not started: all controllers are running and fresh, all seats idle, and no
    /// envelope is sent.
    pub fn new() -> Floor
        ensures { New result }
    {
        let fresh = Controller {
            running: true,
            role: Role::Fresh,
            epoch: 0,
            promise: 0,
            length: 0,
            delivered: 0,
        };
        Floor {
            started: false,
            controllers: [fresh; CONTROLLERS as usize],
            seats: Seats {
                at: [Seat::Idle; SEATS as usize],
            },
            lengths: [0; EPOCHS as usize],
            sent: 0,
        }
    }

    /// Epoch 1 is stored, its members join it, and every state becomes the first. Answers 1.
    pub fn start<S: Service, C: ConfigService>(
        &mut self,
        tables: &mut Tables<S>,
        config: &mut C,
        members: u32,
        leader: u32,
    ) -> Result<u32, Fault>
        ensures { record { answer = result; after = seen self.new tables.new; config = C.ConfigService.meaning config.new } ≡ started_by (meant_by S.Service) (seen self.old tables.old) (C.ConfigService.meaning config.old) members leader }
    {
        if !long_enough(tables) {
            return Err(Fault::ShortTables);
        }
        if self.started {
            return Err(Fault::Started);
        }
        let configuration = Configuration::new(members, leader).ok_or(Fault::Unlawful)?;
        config.store(0, configuration)?;
        self.open_first(tables, ConfigRow::from(configuration));
        Ok(1)
    }

    // Past every question: the members join epoch 1, and every state becomes the first.
    #[tactic(auto, using(crate::proofs::Lawfuls::lawful_joined))]
    fn open_first<S: Service>(&mut self, tables: &mut Tables<S>, row: ConfigRow)
        requires { AreLong tables.old }
        ensures { seen self.new tables.new ≡ opened (meant_by S.Service) (seen self.old tables.old) row }
    {
        self.started = true;
        self.controllers = joined_all(&row, &self.controllers);
        reset(&mut tables.committed);
        reset(&mut tables.speculative);
    }
}
