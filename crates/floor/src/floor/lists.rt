ghost use Rattle.std.specs.Prelude.{◌≡◌, ◌-◌, ◌<◌, ◌≤◌, slice_index};
ghost use Rattle.service.specs.Meant.{meant_by};
ghost use Rattle.floor.specs.Lists.{appended, opening_kept, opening_taken, state_at};
ghost use Rattle.floor.specs.Turn.{seen_by, mine, Same};

use super::turn::Turn;
use crate::ids::EpochId;
use crate::stretch::{Stretch, copy_at};
use entries::Entry;
use machine::controller::{Controller, Role};
use service::Service;

// The lists of the controllers, and those with which epochs were opened.
impl<S: Service> Turn<'_, S> {
    // The entry stands at the end of the controller's list.
    pub(super) fn append(&mut self, entry: Entry<S::Update>)
        requires room { (mine self.old).length < 64 }
        ensures same { Same self.old self.new }
        ensures after { seen_by self.new ≡ appended (meant_by S.Service) (seen_by self.old) self.old.id.number (mine self.old) entry }
    {
        let length = self.me().length;
        Stretch::new(self.id, length).append(&mut self.tables.entries, entry);
        self.floor.lengthen(self.id);
    }

    // The controller's committed state, with its entries up to this place that are not delivered.
    pub(super) fn caught_up(&self, to: u32) -> S
        requires beyond { (mine self.now).delivered ≤ to }
        requires ground { to ≤ (mine self.now).length }
        ensures { result ≡ state_at (meant_by S.Service) (seen_by self.now) self.now.id.number (mine self.now) to }
    {
        let state = self.tables.committed[self.id.index()];
        Stretch::new(self.id, to).run(state, &self.tables.entries, self.me().delivered)
    }

    // The controller's list becomes the opening list of the epoch.
    pub(super) fn keep_opening(&mut self, epoch: EpochId)
        ensures same { Same self.old self.new }
        ensures after { seen_by self.new ≡ opening_kept (meant_by S.Service) (seen_by self.old) self.old.id.number (mine self.old) epoch.number }
    {
        let length = self.me().length;
        // by a name of its own, since the check lends no two parts of a table through one field
        let tables = &mut *self.tables;
        copy_at(
            &mut tables.openings,
            epoch.first_place(),
            Stretch::new(self.id, length).list(&tables.entries),
        );
        self.floor.lengths[epoch.index()] = length;
    }

    // The opening list of the epoch becomes the list of the controller, which follows in it.
    pub(super) fn take_opening(&mut self, epoch: EpochId)
        requires ground { (mine self.old).delivered ≤ slice_index self.old.floor.now.lengths (epoch.number - 1) }
        ensures same { Same self.old self.new }
        ensures after { seen_by self.new ≡ opening_taken (meant_by S.Service) (seen_by self.old) self.old.id.number (mine self.old) epoch.number (slice_index self.old.floor.now.lengths (epoch.number - 1)) }
    {
        let length = self.floor.lengths[epoch.index()];
        let from = epoch.first_place();
        let tables = &mut *self.tables;
        copy_at(
            &mut tables.entries,
            self.id.first_place(),
            &tables.openings[from..from + length as usize],
        );
        self.put(Controller {
            role: Role::Follower,
            epoch: epoch.number(),
            promise: epoch.number(),
            length,
            ..self.me()
        });
    }
}
