// What no clause says: that a call succeeds while memory is left, the limits as numbers, and the printed texts.
use bytes::Bytes;
use sector_core::{
    Block, Config, ConfigDraft, ConfigFault, OutOfMemory, Range, SECTOR_BYTES, Scheduler,
    empty_table, first_free,
};
use std::alloc::Global;
use std::test::Fail;

#[test]
fn default_configuration(rt: HostRuntime) -> Result<(), Fail> {
    let config = Config::check(ConfigDraft::default())?;
    let tables = (config.scheduler, config.nr_requests, config.tags);
    let budgets = (config.first_budget, config.max_budget, config.timeout);
    let line = (config.history_max, config.first_vtime);
    assert_eq!(rt;
        (tables, budgets, line),
        ((Scheduler::Bfq, 64, 4), (1024, 4096, 8), (65_536, 0))
    );
    Ok(())
}

// A draft with these numbers, in the order in which faults are looked for.
fn draft(numbers: [u64; 7]) -> ConfigDraft {
    let [
        nr_requests,
        tags,
        max_budget,
        first_budget,
        timeout,
        history_max,
        first_vtime,
    ] = numbers;
    ConfigDraft {
        scheduler: Scheduler::Plain,
        nr_requests,
        tags,
        first_budget,
        max_budget,
        timeout,
        history_max,
        first_vtime,
    }
}

#[test]
fn limits(rt: HostRuntime) {
    for (numbers, fault) in [
        // All at their least, and all at their most.
        ([1, 1, 256, 256, 1, 1, 0], None),
        ([256, 64, 65_536, 65_536, 1000, 16_777_216, 1 << 62], None),
        // One below the least: the first that is out of its limits is named.
        (
            [0, 0, 255, 255, 0, 0, u64::MAX],
            Some(ConfigFault::NrRequests),
        ),
        ([1, 0, 255, 255, 0, 0, u64::MAX], Some(ConfigFault::Tags)),
        (
            [1, 1, 255, 255, 0, 0, u64::MAX],
            Some(ConfigFault::MaxBudget),
        ),
        (
            [1, 1, 256, 255, 0, 0, u64::MAX],
            Some(ConfigFault::FirstBudget),
        ),
        ([1, 1, 256, 256, 0, 0, u64::MAX], Some(ConfigFault::Timeout)),
        (
            [1, 1, 256, 256, 1, 0, u64::MAX],
            Some(ConfigFault::HistoryMax),
        ),
        // One above the most.
        (
            [257, 65, 65_537, 65_538, 1001, 16_777_217, (1 << 62) + 1],
            Some(ConfigFault::NrRequests),
        ),
        (
            [256, 65, 65_537, 65_538, 1001, 16_777_217, (1 << 62) + 1],
            Some(ConfigFault::Tags),
        ),
        (
            [256, 64, 65_537, 65_538, 1001, 16_777_217, (1 << 62) + 1],
            Some(ConfigFault::MaxBudget),
        ),
        (
            [256, 64, 65_536, 65_537, 1001, 16_777_217, (1 << 62) + 1],
            Some(ConfigFault::FirstBudget),
        ),
        (
            [256, 64, 65_536, 65_536, 1001, 16_777_217, (1 << 62) + 1],
            Some(ConfigFault::Timeout),
        ),
        (
            [256, 64, 65_536, 65_536, 1000, 16_777_217, (1 << 62) + 1],
            Some(ConfigFault::HistoryMax),
        ),
        (
            [256, 64, 65_536, 65_536, 1000, 16_777_216, (1 << 62) + 1],
            Some(ConfigFault::FirstVtime),
        ),
        // A greatest budget below the default of the first one is the first one's fault.
        (
            [64, 4, 512, 1024, 8, 65_536, 0],
            Some(ConfigFault::FirstBudget),
        ),
    ] {
        assert_eq!(rt; Config::check(draft(numbers)).err(), fault, "{numbers:?}");
    }
}

// What a text is printed of.
#[derive(Clone, Copy)]
enum Printed {
    Fault(ConfigFault),
    OutOfMemory,
}

fn text_of(alloc: Global, printed: Printed) -> Result<String, Fail> {
    match printed {
        Printed::Fault(fault) => Ok(format!(in alloc; "{fault}")?),
        Printed::OutOfMemory => Ok(format!(in alloc; "{OutOfMemory}")?),
    }
}

#[test]
fn texts(rt: HostRuntime) -> Result<(), Fail> {
    for (printed, text) in [
        (Printed::Fault(ConfigFault::NrRequests), "nr_requests"),
        (Printed::Fault(ConfigFault::Tags), "tags"),
        (Printed::Fault(ConfigFault::MaxBudget), "max_budget"),
        (Printed::Fault(ConfigFault::FirstBudget), "first_budget"),
        (Printed::Fault(ConfigFault::Timeout), "timeout"),
        (Printed::Fault(ConfigFault::HistoryMax), "history_max"),
        (Printed::Fault(ConfigFault::FirstVtime), "first_vtime"),
        (Printed::OutOfMemory, "out of memory"),
    ] {
        assert_eq!(rt; text_of(rt.alloc(), printed)?.as_str(), text);
    }
    Ok(())
}

// A block of letters A has them.
fn is_kept(alloc: Global) -> Result<bool, Fail> {
    let block = Block::new(alloc, Bytes::from_static(&[65; 512]))?;
    Ok(block.as_slice() == [65; SECTOR_BYTES].as_slice())
}

#[test]
fn range_and_block(rt: HostRuntime) -> Result<(), Fail> {
    let range = Range { start: 4, count: 2 };
    assert_eq!(rt; (range.end(), is_kept(rt.alloc())?), (6, true));
    Ok(())
}

// A new table of three places, and the first free one where none is taken, where all but place 1 are, and where all are.
fn free_places(alloc: Global) -> Result<(bool, [Option<usize>; 3]), Fail> {
    let mut table = empty_table::<u8>(alloc, 3)?;
    let is_empty = table.as_slice() == [None, None, None].as_slice();
    let first = first_free(table.as_slice());
    for (free, place) in table.iter_mut().enumerate() {
        if free != 1 {
            *place = Some(7);
        }
    }
    let second = first_free(table.as_slice());
    for place in table.iter_mut() {
        *place = Some(7);
    }
    Ok((is_empty, [first, second, first_free(table.as_slice())]))
}

#[test]
fn tables(rt: HostRuntime) -> Result<(), Fail> {
    let wanted = (true, [Some(0), Some(1), None]);
    assert_eq!(rt; free_places(rt.alloc())?, wanted);
    Ok(())
}
