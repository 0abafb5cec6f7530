ghost use Rattle.std.specs.Prelude.{◌≡◌, ◌-◌, ◌<◌, ◌≤◌, true, slice_index};
ghost use Rattle.service.specs.Meant.{meant_by};
ghost use Rattle.config.specs.Members.{without as without_one};
ghost use Rattle.machine.specs.Machine.{probed, opened_by, joined_by, space};
ghost use Rattle.floor.specs.Turn.{seen_by, mine, Same};

use super::turn::Turn;
use crate::ids::EpochId;
use config::members::{CONTROLLERS, Members};
use machine::controller::{Controller, Lead, Role};
use machine::envelope::Message;
use service::Service;

// What an envelope about a change of configuration makes of the controller that takes it.
impl<S: Service> Turn<'_, S> {
    // It promises to wait for the new epoch, and ANSWER goes to the seat: yes where it has come as
    // far as the stage.
    pub(super) fn take_probe(&mut self, new: u32, epoch: u32, seat: u32)
        requires space { self.old.floor.now.sent < 1024 }
        ensures same { Same self.old self.new }
        ensures after { seen_by self.new ≡ probed (meant_by S.Service) (seen_by self.old) self.old.id.number (mine self.old) new epoch seat }
    {
        let me = self.me();
        self.put(Controller { promise: new, ..me });
        let message = Message::Answer {
            yes: epoch <= me.epoch,
            new,
            epoch,
            follower: self.id.number(),
            seat,
        };
        self.post(Members::NONE, message);
    }

    // It leads the epoch: its list is the opening list, all of it is in the speculative state, and
    // NEWSTATE goes to the other members.
    pub(super) fn take_newconfig(&mut self, epoch: EpochId, members: Members)
        requires space { space self.old.floor.now.sent (without_one members self.old.id.number) ≡ true }
        ensures same { Same self.old self.new }
        ensures after { seen_by self.new ≡ opened_by (meant_by S.Service) (seen_by self.old) self.old.id.number (mine self.old) epoch.number members }
    {
        let me = self.me();
        self.tables.speculative[self.id.index()] = self.caught_up(me.length);
        self.keep_opening(epoch);
        let lead = Lead {
            members: members.into(),
            told: [None; CONTROLLERS as usize],
            settled: 0,
        };
        self.put(Controller {
            role: Role::Leader(lead),
            epoch: epoch.number(),
            ..me
        });
        let message = Message::NewState {
            epoch: epoch.number(),
        };
        self.send(members.without(self.id.number()), message);
    }

    // It follows in the epoch with the opening list, and HELD goes to its sender.
    pub(super) fn take_newstate(&mut self, sender: u32, epoch: EpochId)
        requires ground { (mine self.old).delivered ≤ slice_index self.old.floor.now.lengths (epoch.number - 1) }
        requires space { self.old.floor.now.sent < 1024 }
        ensures same { Same self.old self.new }
        ensures after { seen_by self.new ≡ joined_by (meant_by S.Service) (seen_by self.old) self.old.id.number (mine self.old) epoch.number sender (slice_index self.old.floor.now.lengths (epoch.number - 1)) }
    {
        self.take_opening(epoch);
        self.send_held(sender, epoch.number());
    }
}
