ghost use Rattle.std.specs.Prelude.{◌≡◌, ℕ};
ghost use Rattle.config.specs.Made.{row_of};
ghost use Rattle.config.specs.Configured.{Configured, Kept, last as last_of, configuration as configuration_of, epoch_after, store_answer, stored, rowed};

use crate::configuration::Configuration;
use crate::row::ConfigFault;

/// How many epochs there can be: no configuration service takes more configurations.
pub const EPOCHS: u32 = 32;

/// A configuration service, by its meaning: a list of configurations, a limit, and whether it is open.
pub trait ConfigService {
    ghost meaning: { Self → Configured };

    /// How many configurations are stored: the last epoch.
    fn last(&self) -> Result<u32, ConfigFault>
        ensures { result ≡ last_of (meaning self.now) };

    /// The configuration of an epoch.
    fn configuration(&self, epoch: u32) -> Result<Configuration, ConfigFault>
        ensures { rowed result ≡ configuration_of (meaning self.now) epoch };

    /// The most that it takes, 1 to 32; answered at any time.
    fn limit(&self) -> u32
        ensures { result ≡ (meaning self.now).limit };

    /// Whether it is open; answered at any time.
    fn is_open(&self) -> bool
        ensures { result ≡ (meaning self.now).is_open };

    /// Appends the configuration where `expected` is the last epoch; answers the epoch that it makes.
    fn store(&mut self, expected: u32, configuration: Configuration) -> Result<u32, ConfigFault>
        ensures answer { result ≡ store_answer (meaning self.old) expected }
        ensures after { meaning self.new ≡ stored (meaning self.old) expected (row_of configuration) };

    ghost keeps: { (s : Self) → Kept (meaning s) };
}

/// The epoch that a store makes in an open service whose last epoch is `last`.
pub fn next_epoch(last: u32, expected: u32, limit: u32) -> Result<u32, ConfigFault>
    ensures { result ≡ epoch_after last expected limit }
{
    if expected != last {
        return Err(ConfigFault::Stale);
    }
    if last >= limit {
        return Err(ConfigFault::Full);
    }
    Ok(last + 1)
}
