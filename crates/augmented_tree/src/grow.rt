// A member goes into the tree.
ghost use Rattle.std.specs.Prelude.{◌≡◌};
ghost use Rattle.augmented_tree.specs.Tables.{insert_rows};

use crate::rotations::balance;
use crate::row::{Figures, Row, fork, goes_left, row_at};

/// Puts a member into the tree at a link, which has so many levels at most; the new top comes back.
#[tactic(auto, using(crate::proofs::Steps::insert_below, crate::proofs::Steps::insert_none), unfolding(crate::specs::Tables::insert_rows))]
pub fn insert_at(rows: &mut [Row], levels: u8, root: Option<u8>, n: u8, figures: Figures) -> u8
    ensures rows { rows.new ≡ (insert_rows levels rows.old root n figures).0 }
    ensures top { result ≡ (insert_rows levels rows.old root n figures).1 }
{
    let Some(m) = root else {
        fork(rows, None, n, figures, None);
        return n;
    };
    if levels == 0 {
        fork(rows, None, n, figures, None);
        return n;
    }
    let top = row_at(rows, m);
    if goes_left(n, figures.key, m, top.figures.key) {
        let left = insert_at(rows, levels - 1, top.left, n, figures);
        balance(rows, Some(left), m, top.figures, top.right)
    } else {
        let right = insert_at(rows, levels - 1, top.right, n, figures);
        balance(rows, top.left, m, top.figures, Some(right))
    }
}
