// Questions about the tree, each a walk down one path.
ghost use Rattle.std.specs.Prelude.{◌≡◌};
ghost use Rattle.augmented_tree.specs.Tables.{pick_rows, above_rows, first_key_rows};

use crate::row::{Row, Turn, least_at, lesser, row_at, sum_at};

/// The first turn of the members with a key up to a limit: one walk down, which asks each row that it passes for the least
/// of its left side.
#[tactic(auto, using(crate::proofs::Steps::pick_below, crate::proofs::Steps::pick_none), unfolding(crate::specs::Tables::pick_rows))]
pub fn pick_at(rows: &[Row], levels: u8, root: Option<u8>, limit: u64) -> Option<Turn>
    ensures { result ≡ pick_rows levels rows.now root limit }
{
    let Some(m) = root else {
        return None;
    };
    if levels == 0 {
        return None;
    }
    let top = row_at(rows, m);
    if limit < top.figures.key {
        return pick_at(rows, levels - 1, top.left, limit);
    }
    let own = Turn {
        finish: top.figures.finish,
        number: m,
    };
    let right = pick_at(rows, levels - 1, top.right, limit);
    Some(lesser(lesser(own, least_at(rows, top.left)), right))
}

/// The sum of the weights of the members with a key above a limit: one walk down, which takes the sums of right sides.
#[tactic(auto, using(crate::proofs::Steps::above_below, crate::proofs::Steps::above_none), unfolding(crate::specs::Tables::above_rows))]
pub fn sum_above_at(rows: &[Row], levels: u8, root: Option<u8>, limit: u64) -> u64
    ensures { result ≡ above_rows levels rows.now root limit }
{
    let Some(m) = root else {
        return 0;
    };
    if levels == 0 {
        return 0;
    }
    let top = row_at(rows, m);
    if limit < top.figures.key {
        let left = sum_above_at(rows, levels - 1, top.left, limit);
        let right = sum_at(rows, top.right);
        return u64::from(top.figures.weight)
            .saturating_add(left)
            .saturating_add(right);
    }
    sum_above_at(rows, levels - 1, top.right, limit)
}

/// The least key.
#[tactic(auto, using(crate::proofs::Steps::first_key_below, crate::proofs::Steps::first_key_none), unfolding(crate::specs::Tables::first_key_rows))]
pub fn first_key_at(rows: &[Row], levels: u8, root: Option<u8>) -> Option<u64>
    ensures { result ≡ first_key_rows levels rows.now root }
{
    let Some(m) = root else {
        return None;
    };
    if levels == 0 {
        return None;
    }
    let top = row_at(rows, m);
    match first_key_at(rows, levels - 1, top.left) {
        Some(key) => Some(key),
        None => Some(top.figures.key),
    }
}
