ghost use Rattle.std.specs.Prelude.{◌≡◌, ◌<◌, ◌≤◌, Ok};
ghost use Rattle.service.specs.Meant.{meant_by};
ghost use Rattle.machine.specs.Rows.{reach, told_to};
ghost use Rattle.machine.specs.Machine.{handed as handed_to, taken, delivered, accepted};
ghost use Rattle.floor.specs.Ground.{Ground};
ghost use Rattle.floor.specs.Turn.{seen_by, mine, Same};
ghost use Rattle.floor.specs.Seen.{seen};

use super::Floor;
use super::turn::Turn;
use crate::ids::EpochId;
use entries::Entry;
use machine::controller::{Lead, Role};
use machine::envelope::Message;
use machine::fault::Fault;
use machine::tables::Tables;
use service::Service;

// A leader's role, once the follower has told it the length.
fn heard(role: Role, follower: u32, length: u32) -> Role
    requires { follower < 8 }
    ensures { result ≡ told_to role follower length }
{
    match role {
        Role::Leader(lead) => {
            let mut told = lead.told;
            told[follower as usize] = Some(length);
            Role::Leader(Lead { told, ..lead })
        }
        Role::Fresh | Role::Follower => role,
    }
}

impl Floor {
    /// The controller takes what an envelope says. Answers how many places it delivers now.
    pub fn hand<S: Service>(
        &mut self,
        tables: &mut Tables<S>,
        envelope: u32,
        controller: u32,
    ) -> Result<u32, Fault>
        ensures { record { answer = result; after = seen self.new tables.new } ≡ handed_to (meant_by S.Service) (seen self.old tables.old) envelope controller }
    {
        let id = self.id_of(tables, controller)?;
        if envelope >= self.sent {
            return Err(Fault::OutOfRange);
        }
        let handed = tables.envelopes[envelope as usize];
        self.may_hand(id, &handed)?;
        let mut turn = Turn {
            floor: self,
            tables,
            id,
        };
        Ok(turn.take(handed.sender, handed.message))
    }
}

impl<S: Service> Turn<'_, S> {
    // Past every question: what the message makes of the controller.
    fn take(&mut self, sender: u32, message: Message<S::Update>) -> u32
        requires known { Ground self.old.floor.now self.old.id sender message }
        ensures same { Same self.old self.new }
        ensures after { record { answer = Ok result; after = seen_by self.new } ≡ taken (meant_by S.Service) (seen_by self.old) self.old.id.number (mine self.old) sender message }
    {
        match message {
            Message::Commit { count, .. } => return self.take_commit(count),
            Message::Accept { epoch, entry, .. } => {
                self.take_accept(sender, epoch, entry);
            }
            Message::Held {
                length,
                follower,
                ..
            } => {
                let role = heard(self.me().role, follower, length);
                self.floor.assign(self.id, role);
            }
            Message::Probe { new, epoch, seat } => self.take_probe(new, epoch, seat),
            Message::Answer { .. } => unreachable!(),
            Message::NewConfig { epoch, members } => {
                self.take_newconfig(EpochId::new(epoch), members.into());
            }
            Message::NewState { epoch } => {
                self.take_newstate(sender, EpochId::new(epoch));
            }
        }
        0
    }

    // The places up to what the COMMIT reaches go into the committed state.
    fn take_commit(&mut self, count: u32) -> u32
        requires beyond { (mine self.old).delivered < count }
        requires ground { count ≤ (mine self.old).length }
        ensures same { Same self.old self.new }
        ensures after { record { answer = Ok result; after = seen_by self.new } ≡ delivered (meant_by S.Service) (seen_by self.old) self.old.id.number (mine self.old) (reach count (mine self.old).delivered) }
    {
        let me = self.me();
        let reached = me.reach(count);
        self.tables.committed[self.id.index()] = self.caught_up(reached);
        self.floor.deliver_to(self.id, reached);
        reached - me.delivered
    }

    // The entry stands at the end of the list, and HELD goes to its sender.
    fn take_accept(&mut self, sender: u32, epoch: u32, entry: Entry<S::Update>)
        requires room { (mine self.old).length < 64 }
        requires space { self.old.floor.now.sent < 1024 }
        ensures same { Same self.old self.new }
        ensures after { seen_by self.new ≡ accepted (meant_by S.Service) (seen_by self.old) self.old.id.number (mine self.old) sender epoch (mine self.old).length entry }
    {
        self.append(entry);
        self.send_held(sender, epoch);
    }
}
