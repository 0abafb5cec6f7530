ghost use Rattle.std.specs.Prelude.{◌≡◌};
ghost use Rattle.machine.specs.Rows.{least as least_told, lesser as lesser_told, first_lead};

use super::Lead;
use config::members::{CONTROLLERS, Members};
use std::array;

// The lesser of two lengths; none where one has not been told.
// A match, since `min` of two Options compares them twice over.
fn lesser(told: Option<u32>, least: Option<u32>) -> Option<u32>
    ensures { result ≡ lesser_told told least }
{
    match (told, least) {
        (Some(told), Some(least)) => Some(told.min(least)),
        _ => None,
    }
}

impl Lead {
    /// The least of the own length of the leader `this` and the lengths that the other members told;
    /// none where one of them has told nothing, which is less than any length.
    // A loop: filtered and folded it takes half as long again, and a settle that is refused is mostly this.
    #[tactic(auto, using(crate::proofs::Least::one_among))]
    pub fn least(&self, this: u32, own: u32) -> Option<u32>
        ensures { result ≡ least_told self.now this own }
    {
        let members = Members::from(self.members);
        let mut least = Some(own);
        for c in 0..CONTROLLERS {
            if members.has_other(this, c) {
                least = lesser(self.told[c as usize], least);
            }
        }
        least
    }

    /// What the first leader `this` keeps: each other member has told 0.
    pub fn first(members: Members, this: u32) -> Lead
        ensures { result ≡ first_lead members this }
    {
        Lead {
            members: members.into(),
            // an `if`, as with `then_some` the clause stays open
            told: array::from_fn(|c| if members.has_other(this, c as u32) {
                Some(0)
            } else {
                None
            }),
            settled: 0,
        }
    }
}
