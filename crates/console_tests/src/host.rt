// The keeper of a history.

use history::Keeper;
use sector_core::{Config, ConfigDraft};
use std::alloc::Global;
use std::test::Fail;

/// The keeper of the default configuration, over an image of so many sectors, before its first call.
pub fn opened(alloc: Global, sectors: u64) -> Result<Keeper, Fail> {
    if sectors >= 1 << 55 {
        return Err(Fail::from("too many sectors"));
    }
    Ok(Keeper::new(alloc, usual()?, sectors)?)
}

/// The usual configuration. This has no clauses, so that nothing carries the limits of its numbers.
// A match costs a proof less than `?`, which makes a text of the fault.
pub fn usual() -> Result<Config, Fail> {
    match Config::check(ConfigDraft::default()) {
        Ok(config) => Ok(config),
        Err(_) => Err(Fail::from("a configuration within its limits")),
    }
}
