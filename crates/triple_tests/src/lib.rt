//! Tests of the three copies.
#![tactic(auto)]

#[cfg(test)]
mod tests {
    use config::configuration::Configuration;
    use config::row::{ConfigFault, ConfigRow};
    use config::service::ConfigService;
    use triple::fault::CopyFault;
    use triple::table::Triple;

    // Stores the configuration of these members with the leader 0.
    fn store(table: &mut Triple, expected: u32, members: u32) -> Result<u32, ConfigFault> {
        let configuration = Configuration::new(members, 0).ok_or(ConfigFault::NoEpoch)?;
        table.store(expected, configuration)
    }

    // The members of an epoch's configuration.
    fn members(table: &Triple, epoch: u32) -> Result<u8, ConfigFault> {
        let row = ConfigRow::from(table.configuration(epoch)?);
        Ok(row.members)
    }

    // Each store misses another copy; copy 0, which is read at last, has missed the second.
    #[test]
    fn a_copy_that_was_down_is_level_after_the_next_store(rt: HostRuntime) {
        let mut table = Triple::new();
        assert_eq!(rt; table.down(2), Ok(()));
        assert_eq!(rt; store(&mut table, 0, 1), Ok(1));
        assert_eq!(rt; table.up(2), Ok(()));
        assert_eq!(rt; table.down(0), Ok(()));
        assert_eq!(rt; store(&mut table, 1, 3), Ok(2));
        assert_eq!(rt; table.up(0), Ok(()));
        assert_eq!(rt; table.down(1), Ok(()));
        assert_eq!(rt; store(&mut table, 2, 7), Ok(3));
        assert_eq!(rt; members(&table, 1), Ok(1));
        assert_eq!(rt; members(&table, 2), Ok(3));
        assert_eq!(rt; members(&table, 3), Ok(7));
    }

    #[test]
    fn with_one_copy_up_it_is_closed(rt: HostRuntime) {
        let mut table = Triple::new();
        assert_eq!(rt; store(&mut table, 0, 1), Ok(1));
        assert_eq!(rt; table.down(0), Ok(()));
        assert!(rt; table.is_open());
        assert_eq!(rt; table.down(1), Ok(()));
        assert!(rt; !table.is_open());
        assert_eq!(rt; store(&mut table, 1, 3), Err(ConfigFault::Closed));
        assert_eq!(rt; table.last(), Err(ConfigFault::Closed));
        assert_eq!(rt; table.up(0), Ok(()));
        assert_eq!(rt; table.last(), Ok(1));
        assert_eq!(rt; members(&table, 1), Ok(1));
        assert_eq!(rt; store(&mut table, 0, 3), Err(ConfigFault::Stale));
        assert_eq!(rt; store(&mut table, 1, 3), Ok(2));
    }

    #[test]
    fn there_is_no_copy_3(rt: HostRuntime) {
        let mut table = Triple::new();
        assert_eq!(rt; table.down(3), Err(CopyFault::NoCopy));
        assert_eq!(rt; table.up(3), Err(CopyFault::NoCopy));
        assert!(rt; table.is_open());
        assert_eq!(rt; store(&mut table, 0, 1), Ok(1));
    }
}
