ghost use Rattle.std.specs.Prelude.{◌≡◌, ◌<◌, true};
ghost use Rattle.service.specs.Meant.{meant_by};
ghost use Rattle.config.specs.Members.{without as without_one};
ghost use Rattle.machine.specs.Machine.{ordered, entered, space};
ghost use Rattle.floor.specs.Turn.{seen_by, mine, Same};
ghost use Rattle.floor.specs.Seen.{seen};

use super::Floor;
use super::turn::Turn;
use crate::stretch::Stretch;
use config::members::Members;
use entries::Entry;
use machine::controller::Lead;
use machine::envelope::Message;
use machine::fault::Fault;
use machine::tables::{PLACES, Tables};
use service::Service;

impl Floor {
    /// The leader works the command in its speculative state, appends the entry, applies the update
    /// there, sends ACCEPT to the other members, and answers the reply.
    pub fn order<S: Service>(
        &mut self,
        tables: &mut Tables<S>,
        controller: u32,
        serial: u32,
        command: S::Command,
    ) -> Result<u32, Fault>
        ensures { record { answer = result; after = seen self.new tables.new } ≡ ordered (meant_by S.Service) (seen self.old tables.old) controller serial command }
    {
        let id = self.running(tables, controller)?;
        let me = self.at(id);
        let lead = self.lead(id)?;
        if Stretch::new(id, me.length).holds(&tables.entries, serial) {
            return Err(Fault::SerialTaken);
        }
        if me.length >= PLACES {
            return Err(Fault::ListFull);
        }
        let state = tables.speculative[id.index()];
        let worked = state.work(command)?;
        self.space_for(Members::from(lead.members).without(controller))?;
        let entry = Entry {
            epoch: me.epoch,
            serial,
            update: worked.update,
        };
        let mut turn = Turn {
            floor: self,
            tables,
            id,
        };
        turn.enter(&lead, entry, state.apply(worked.update));
        Ok(worked.reply)
    }
}

impl<S: Service> Turn<'_, S> {
    // Past every question: the entry is in the list, the next state in its place, ACCEPT in the bag.
    fn enter(&mut self, lead: &Lead, entry: Entry<S::Update>, next: S)
        requires room { (mine self.old).length < 64 }
        requires space { space self.old.floor.now.sent (without_one lead.now.members self.old.id.number) ≡ true }
        ensures same { Same self.old self.new }
        ensures after { seen_by self.new ≡ entered (meant_by S.Service) (seen_by self.old) self.old.id.number (mine self.old) lead.now entry next }
    {
        let me = self.me();
        self.tables.speculative[self.id.index()] = next;
        self.append(entry);
        let message = Message::Accept {
            epoch: me.epoch,
            place: me.length,
            entry,
        };
        self.send(
            Members::from(lead.members).without(self.id.number()),
            message,
        );
    }
}
