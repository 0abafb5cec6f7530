ghost use Rattle.std.specs.Prelude.{◌≡◌, ◌≤◌, true, All};
ghost use Rattle.config.specs.Rows.{Lawful};
ghost use Rattle.triple.specs.Copies.{Sized, longest, is_beginning, two_hold_all};

use crate::copies::Copies;
use crate::fault::CopyFault;
use config::configuration::Configuration;
use config::row::{ConfigFault, ConfigRow};
use config::service::{ConfigService, EPOCHS, next_epoch};

const COPIES: u32 = 3;

const LIMIT: u32 = EPOCHS;

/// The configuration service that keeps its list of at most 32 configurations in three copies.
/// Each copy is a beginning of the longest, which is the list, and at least two hold all of it.
// Ghost fields and no model: the trait's law speaks of all values, and needs the facts inside each.
#[derive(Debug, Drop)]
pub struct Triple {
    copies: Copies,
    // which copies are up; not in the copies, which `down` and `up` leave as they are
    up: [bool; 3],
    ghost sized: { Sized copies },
    ghost begins: { All (λ p. is_beginning copies p ≡ true) copies.at },
    ghost twice: { two_hold_all copies ≡ true },
    ghost fits: { (longest copies).len ≤ 32 },
    ghost sound: { Lawful (longest copies).rows (longest copies).len },
}

impl Triple {
    ghost use Rattle.std.specs.Prelude.{false, [], ◌∷◌};
    ghost use Rattle.triple.specs.Copies.{held};
    ghost use Rattle.triple.specs.Meant.{meant, two_up, copy_answer, turned, opened};

    /// Three empty copies, all up.
    pub fn new() -> Triple
        ensures flags { result.up ≡ true ∷ true ∷ true ∷ [] }
        ensures meaning { meant result.copies result.up ≡ record { all = []; limit = 32; is_open = true } }
    {
        Triple {
            copies: Copies::new(),
            up: [true; 3],
        }
    }

    /// Takes copy 0, 1 or 2 down.
    // With `up` two names over one `turn`, as the two are asked for by name.
    pub fn down(&mut self, copy: u32) -> Result<(), CopyFault>
        ensures answer { result ≡ copy_answer copy }
        ensures flags { self.new.up ≡ turned self.old.up copy false }
        ensures kept { self.new.copies ≡ self.old.copies }
        ensures meaning { meant self.new.copies self.new.up ≡ opened (meant self.old.copies self.old.up) (two_up (turned self.old.up copy false)) }
    {
        self.turn(copy, false)
    }

    /// Takes copy 0, 1 or 2 up again, as it was left.
    pub fn up(&mut self, copy: u32) -> Result<(), CopyFault>
        ensures answer { result ≡ copy_answer copy }
        ensures flags { self.new.up ≡ turned self.old.up copy true }
        ensures kept { self.new.copies ≡ self.old.copies }
        ensures meaning { meant self.new.copies self.new.up ≡ opened (meant self.old.copies self.old.up) (two_up (turned self.old.up copy true)) }
    {
        self.turn(copy, true)
    }

    fn turn(&mut self, copy: u32, up: bool) -> Result<(), CopyFault>
        ensures answer { result ≡ copy_answer copy }
        ensures flags { self.new.up ≡ turned self.old.up copy up }
        ensures kept { self.new.copies ≡ self.old.copies }
    {
        if copy >= COPIES {
            return Err(CopyFault::NoCopy);
        }
        self.up[copy as usize] = up;
        Ok(())
    }

    // The list: what the longest copy holds.
    fn list(&self) -> &[ConfigRow]
        ensures { result.now ≡ held (longest self.now.copies) }
    {
        self.copies.longest().held()
    }
}

impl ConfigService for Triple {
    ghost use Rattle.config.specs.Made.{row_of};
    ghost use Rattle.config.specs.Configured.{store_answer, stored};
    ghost use Rattle.config.specs.Firsts.{kept_firsts};
    ghost use Rattle.triple.specs.Meant.{meant, two_up, copies_after};

    ghost meaning = { λ t. meant t.copies t.up };

    ghost keeps = { λ s. kept_firsts (longest s.copies).rows (longest s.copies).len (two_up s.up) s.fits s.sound };

    fn last(&self) -> Result<u32, ConfigFault> {
        if self.is_open() {
            Ok(self.list().len() as u32)
        } else {
            Err(ConfigFault::Closed)
        }
    }

    fn configuration(&self, epoch: u32) -> Result<Configuration, ConfigFault> {
        if !self.is_open() {
            return Err(ConfigFault::Closed);
        }
        Configuration::of_epoch(self.list(), epoch)
    }

    fn limit(&self) -> u32 {
        LIMIT
    }

    // Two copies or more are up.
    fn is_open(&self) -> bool {
        let [first, second, third] = self.up;
        u8::from(first) + u8::from(second) + u8::from(third) >= 2
    }

    // Besides, each copy that is up is level afterwards, and each that is down is as it was.
    fn store(&mut self, expected: u32, configuration: Configuration) -> Result<u32, ConfigFault>
        ensures answer { result ≡ store_answer (meant self.old.copies self.old.up) expected }
        ensures after { meant self.new.copies self.new.up ≡ stored (meant self.old.copies self.old.up) expected (row_of configuration) }
        ensures flags { self.new.up ≡ self.old.up }
        ensures copied { self.new.copies ≡ copies_after result self.old.copies self.old.up (row_of configuration) }
    {
        let epoch = next_epoch(self.last()?, expected, LIMIT)?;
        self.copies.store(&self.up, configuration.into());
        Ok(epoch)
    }
}
