ghost use Rattle.std.specs.Prelude.{◌≡◌, true, ◌&&◌, IfOk, ◌==◌, nat_le, nat_lt};
ghost use Rattle.machine.specs.Machine.{in_range, untaken, unhanded};
ghost use Rattle.floor.specs.Asked.{refusal};
ghost use Rattle.floor.specs.Ground.{Ground};
ghost use Rattle.floor.specs.Seen.{controller_at};

use super::Floor;
use crate::ids::ControllerId;
use config::members::{CONTROLLERS, Members};
use config::service::EPOCHS;
use machine::controller::Controller;
use machine::envelope::{Envelope, Message};
use machine::fault::Fault;
use machine::seat::SEATS;
use machine::tables::{MOST_SENT, PLACES};

// What an envelope is refused for.
impl Floor {
    // The first refusal of an envelope that is handed to the controller.
    pub(super) fn may_hand<U: Copy>(
        &self,
        id: ControllerId,
        envelope: &Envelope<U>,
    ) -> Result<(), Fault>
        ensures answer { refusal result ≡ unhanded self.now.sent self.now.lengths id.number (controller_at self.now id) envelope.now }
        ensures known { IfOk result (λ _. Ground self.now id envelope.now.sender envelope.now.message) }
    {
        if !is_in_range(envelope) {
            return Err(Fault::OutOfRange);
        }
        if !self.at(id).running {
            return Err(Fault::Stopped);
        }
        if !Members::from(envelope.to).has(id.number()) {
            return Err(Fault::NotAddressed);
        }
        self.may_take(id, envelope)
    }

    // The same of an envelope that is in range and addressed to a running controller.
    fn may_take<U: Copy>(&self, id: ControllerId, envelope: &Envelope<U>) -> Result<(), Fault>
        requires { in_range envelope.now.sender envelope.now.message ≡ true }
        ensures answer { refusal result ≡ untaken self.now.sent self.now.lengths id.number (controller_at self.now id) envelope.now.message }
        ensures known { IfOk result (λ _. Ground self.now id envelope.now.sender envelope.now.message) }
    {
        let c = id.number();
        let me = self.at(id);
        match envelope.message {
            Message::Commit { epoch, .. } if !me.takes_part(epoch) => Err(Fault::WrongState),
            Message::Commit { count, .. } if count <= me.delivered => Err(Fault::NothingNew),
            Message::Commit { count, .. } if count > me.length => Err(Fault::NoGround),
            Message::Accept { epoch, .. } if !me.follows(epoch) => Err(Fault::WrongState),
            Message::Accept { place, .. } if place < me.length => Err(Fault::NothingNew),
            Message::Accept { place, .. } if place > me.length => Err(Fault::NoGround),
            Message::Accept { .. } if me.length >= PLACES => Err(Fault::ListFull),
            Message::Held {
                epoch,
                follower,
                ..
            } if !me.leads(epoch, c, follower) => Err(Fault::WrongState),
            Message::Held {
                length,
                follower,
                ..
            } if !me.hears_more(follower, length) => Err(Fault::NothingNew),
            Message::Held { length, .. } if length > me.length => Err(Fault::NoGround),
            Message::Probe { new, .. } if me.promise > new => Err(Fault::WrongState),
            Message::Answer { .. } => Err(Fault::NotAddressed),
            Message::NewConfig { epoch, .. } if !may_open(&me, epoch) => Err(Fault::WrongState),
            Message::NewConfig { members, .. } => self.space_for(Members::from(members).without(c)),
            Message::NewState { epoch } if !awaits(&me, epoch) => Err(Fault::WrongState),
            Message::NewState { epoch } if self.lengths[(epoch - 1) as usize] < me.delivered => Err(
                Fault::NoGround,
            ),
            Message::Accept { .. } | Message::Probe { .. } | Message::NewState { .. }
                if self.sent >= MOST_SENT => Err(Fault::BagFull),
            _ => Ok(()),
        }
    }
}

// Whether the envelope's own numbers are in range.
fn is_in_range<U: Copy>(envelope: &Envelope<U>) -> bool
    ensures { result ≡ in_range envelope.now.sender envelope.now.message }
{
    match envelope.message {
        Message::Commit { .. } | Message::Held { .. } | Message::Probe { .. } => true,
        Message::Accept { .. } => envelope.sender < CONTROLLERS,
        Message::Answer { follower, seat, .. } => follower < CONTROLLERS && seat < SEATS,
        Message::NewConfig { epoch, .. } => is_epoch(epoch),
        Message::NewState { epoch } => envelope.sender < CONTROLLERS && is_epoch(epoch),
    }
}

// Whether there is such an epoch.
fn is_epoch(epoch: u32) -> bool
    ensures { result ≡ (nat_le 1 epoch && nat_le epoch 32) }
{
    1 <= epoch && epoch <= EPOCHS
}

// Whether the controller promised no epoch past this one, and has not come to it yet.
fn awaits(me: &Controller, epoch: u32) -> bool
    ensures { result ≡ (nat_le me.now.promise epoch && nat_lt me.now.epoch epoch) }
{
    me.promise <= epoch && me.epoch < epoch
}

// Whether it promised this one, and has not come to it yet.
fn may_open(me: &Controller, epoch: u32) -> bool
    ensures { result ≡ (me.now.promise == epoch && nat_lt me.now.epoch epoch) }
{
    me.promise == epoch && me.epoch < epoch
}
