ghost use Rattle.std.specs.Prelude.{◌≡◌, ◌<◌, ◌≤◌, true};
ghost use Rattle.machine.specs.Rows.{longer, delivered_to, with_role};
ghost use Rattle.service.specs.Meant.{meant_by};
ghost use Rattle.config.specs.Members.{only};
ghost use Rattle.machine.specs.Machine.{space, put_controller, post as posting, send as sending};
ghost use Rattle.machine.specs.declared.envelope.Message.TheVariants.{Held};
ghost use Rattle.floor.specs.Lawful.{Sound};
ghost use Rattle.floor.specs.Seen.{AreLong};

use super::Floor;
use crate::ids::ControllerId;
use config::members::Members;
use machine::controller::{Controller, Role};
use machine::envelope::{Envelope, Message};
use machine::tables::Tables;
use service::Service;

// What a call that no question refuses works on: a controller of the floor, and tables that are long
// enough.
// What room there is in the bag or in a list is asked where it is used up, since each step changes it. A
// turn is put together in place: a function that made it would have to name both loans.
#[derive(Drop)]
pub(super) struct Turn<'a, S: Service> {
    pub(super) floor: &'a mut Floor,
    pub(super) tables: &'a mut Tables<S>,
    pub(super) id: ControllerId,
    ghost long: { AreLong tables.now },
}

// One part of a controller is written here, and not by a turn: through its loan of the floor only a whole
// controller can be written, which takes longer.
impl Floor {
    ghost use Rattle.std.specs.Prelude.{slice_set};
    ghost use Rattle.floor.specs.Seen.{controller_at, Beside};

    // Its list has one place more.
    #[tactic(auto, using(crate::proofs::Lawfuls::lawful_set))]
    pub(super) fn lengthen(&mut self, id: ControllerId)
        requires { (controller_at self.old id).length < 64 }
        ensures beside { Beside self.old self.new }
        ensures after { self.new.controllers ≡ slice_set self.old.controllers id.number (longer (controller_at self.old id)) }
    {
        self.controllers[id.index()].length += 1;
    }

    // So many of its places are delivered.
    #[tactic(auto, using(crate::proofs::Lawfuls::lawful_set))]
    pub(super) fn deliver_to(&mut self, id: ControllerId, reached: u32)
        requires { reached ≤ (controller_at self.old id).length }
        ensures beside { Beside self.old self.new }
        ensures after { self.new.controllers ≡ slice_set self.old.controllers id.number (delivered_to (controller_at self.old id) reached) }
    {
        self.controllers[id.index()].delivered = reached;
    }

    // It has this role.
    #[tactic(auto, using(crate::proofs::Lawfuls::lawful_set))]
    pub(super) fn assign(&mut self, id: ControllerId, role: Role)
        ensures beside { Beside self.old self.new }
        ensures after { self.new.controllers ≡ slice_set self.old.controllers id.number (with_role (controller_at self.old id) role) }
    {
        self.controllers[id.index()].role = role;
    }
}

impl<S: Service> Turn<'_, S> {
    ghost use Rattle.floor.specs.Turn.{seen_by, mine, Same};

    // The controller.
    pub(super) fn me(&self) -> Controller
        ensures there { result ≡ mine self.now }
        ensures sound { Sound result }
    {
        self.floor.at(self.id)
    }

    // The controller becomes this one.
    pub(super) fn put(&mut self, controller: Controller)
        requires { Sound controller }
        ensures same { Same self.old self.new }
        ensures after { seen_by self.new ≡ put_controller (meant_by S.Service) (seen_by self.old) self.old.id.number controller }
    {
        self.floor.controllers[self.id.index()] = controller;
    }

    // Puts the controller's message to these into the bag; to nobody, where it is an ANSWER.
    pub(super) fn post(&mut self, to: Members, message: Message<S::Update>)
        requires space { self.old.floor.now.sent < 1024 }
        ensures same { Same self.old self.new }
        ensures after { seen_by self.new ≡ posting (meant_by S.Service) (seen_by self.old) (record { sender = self.old.id.number; to = to; message = message }) }
    {
        self.tables.envelopes[self.floor.sent as usize] = Envelope {
            sender: self.id.number(),
            to: to.into(),
            message,
        };
        self.floor.sent += 1;
    }

    // The same, where there is somebody to send it to.
    pub(super) fn send(&mut self, to: Members, message: Message<S::Update>)
        requires space { space self.old.floor.now.sent to ≡ true }
        ensures same { Same self.old self.new }
        ensures after { seen_by self.new ≡ sending (meant_by S.Service) (seen_by self.old) (record { sender = self.old.id.number; to = to; message = message }) }
    {
        if !to.is_empty() {
            self.post(to, message);
        }
    }

    // HELD goes to the sender: the controller has its whole list in the epoch.
    pub(super) fn send_held(&mut self, sender: u32, epoch: u32)
        requires space { self.old.floor.now.sent < 1024 }
        ensures same { Same self.old self.new }
        ensures after { seen_by self.new ≡ sending (meant_by S.Service) (seen_by self.old) (record { sender = self.old.id.number; to = only sender; message = Held epoch (mine self.old).length self.old.id.number }) }
    {
        let message = Message::Held {
            epoch,
            length: self.me().length,
            follower: self.id.number(),
        };
        self.send(Members::only(sender), message);
    }
}
