// Fixed tables: a list of places, each taken or free.
ghost use Rattle.std.specs.Prelude.{◌≡◌, ◌<◌, ◌^◌, None, IfOk, MatchOption, length, replicate, vec_len};
ghost use Rattle.sector_core.specs.Table.{IsFirstFree, AllTaken};

use crate::OutOfMemory;
use std::alloc::Global;

/// A table of `len` free places.
pub fn empty_table<T: Drop>(alloc: Global, len: usize) -> Result<Vec<Option<T>>, OutOfMemory>
    ensures { IfOk result (λ table. table.items ≡ replicate len None) }
{
    let mut table = Vec::with_capacity(alloc, len)?;
    for _ in 0..len {
        table.push(None)?;
    }
    Ok(table)
}

/// The first free place of a table.
pub fn first_free<T>(table: &[Option<T>]) -> Option<usize>
    ensures { MatchOption result (AllTaken table.now) (λ place. IsFirstFree table.now place) }
{
    for (place, value) in table.iter().enumerate() {
        if value.is_none() {
            return Some(place);
        }
    }
    None
}
