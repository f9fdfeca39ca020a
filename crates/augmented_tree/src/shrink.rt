// A member goes out of the tree.
ghost use Rattle.std.specs.Prelude.{◌≡◌};
ghost use Rattle.augmented_tree.specs.Tables.{first_rows, join_rows, remove_rows};

use crate::rotations::balance;
use crate::row::{Row, goes_left, row_at};

// Takes the first member out of the tree with this top: its number, and the link of the rest.
#[tactic(auto, using(crate::proofs::Steps::first_below), unfolding(crate::specs::Tables::first_rows))]
fn take_first(rows: &mut [Row], levels: u8, m: u8) -> (u8, Option<u8>)
    ensures rows { rows.new ≡ (first_rows levels rows.old m).0 }
    ensures first { result.0 ≡ (first_rows levels rows.old m).1 }
    ensures rest { result.1 ≡ (first_rows levels rows.old m).2 }
{
    let top = row_at(rows, m);
    if levels == 0 {
        return (m, top.right);
    }
    match top.left {
        Some(l) => {
            let (first, rest) = take_first(rows, levels - 1, l);
            let left = balance(rows, rest, m, top.figures, top.right);
            (first, Some(left))
        }
        None => (m, top.right),
    }
}

// One tree of two, where all members of the first stand before those of the second.
fn join(rows: &mut [Row], levels: u8, left: Option<u8>, right: Option<u8>) -> Option<u8>
    ensures rows { rows.new ≡ (join_rows levels rows.old left right).0 }
    ensures link { result ≡ (join_rows levels rows.old left right).1 }
{
    match right {
        Some(r) => {
            let (first, rest) = take_first(rows, levels, r);
            let top = row_at(rows, first);
            Some(balance(rows, left, first, top.figures, rest))
        }
        None => left,
    }
}

/// Takes a member with a key out of the tree at a link, which has so many levels at most.
#[tactic(auto, using(crate::proofs::Steps::remove_below, crate::proofs::Steps::remove_none), unfolding(crate::specs::Tables::remove_rows))]
pub fn remove_at(rows: &mut [Row], levels: u8, root: Option<u8>, n: u8, key: u64) -> Option<u8>
    ensures rows { rows.new ≡ (remove_rows levels rows.old root n key).0 }
    ensures link { result ≡ (remove_rows levels rows.old root n key).1 }
{
    let Some(m) = root else {
        return None;
    };
    if levels == 0 {
        return Some(m);
    }
    let top = row_at(rows, m);
    if m == n {
        return join(rows, levels - 1, top.left, top.right);
    }
    if goes_left(n, key, m, top.figures.key) {
        let left = remove_at(rows, levels - 1, top.left, n, key);
        Some(balance(rows, left, m, top.figures, top.right))
    } else {
        let right = remove_at(rows, levels - 1, top.right, n, key);
        Some(balance(rows, top.left, m, top.figures, right))
    }
}
