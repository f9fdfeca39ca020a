// Rotations: where one side is higher by two, its top comes up.
ghost use Rattle.std.specs.Prelude.{◌≡◌};
ghost use Rattle.augmented_tree.specs.Tables.{rotate_right_rows, rotate_left_rows, balance_rows};

use crate::row::{Figures, Row, fork, height_at, row_at};

// A member over two trees, of which the left one, with this top, is too high. Where the inner side of that one is the
// higher, its own top comes up, which is a double rotation.
pub fn rotate_right(rows: &mut [Row], x: u8, n: u8, figures: Figures, right: Option<u8>) -> u8
    ensures rows { rows.new ≡ (rotate_right_rows rows.old x n figures right).0 }
    ensures top { result ≡ (rotate_right_rows rows.old x n figures right).1 }
{
    let l = row_at(rows, x);
    if height_at(rows, l.left) < height_at(rows, l.right) {
        match l.right {
            Some(y) => {
                let m = row_at(rows, y);
                fork(rows, l.left, x, l.figures, m.left);
                fork(rows, m.right, n, figures, right);
                fork(rows, Some(x), y, m.figures, Some(n));
                y
            }
            None => {
                fork(rows, Some(x), n, figures, right);
                n
            }
        }
    } else {
        fork(rows, l.right, n, figures, right);
        fork(rows, l.left, x, l.figures, Some(n));
        x
    }
}

// A member over two trees, of which the right one, with this top, is too high: the mirror image of `rotate_right`.
pub fn rotate_left(rows: &mut [Row], left: Option<u8>, n: u8, figures: Figures, x: u8) -> u8
    ensures rows { rows.new ≡ (rotate_left_rows rows.old left n figures x).0 }
    ensures top { result ≡ (rotate_left_rows rows.old left n figures x).1 }
{
    let r = row_at(rows, x);
    if height_at(rows, r.right) < height_at(rows, r.left) {
        match r.left {
            Some(y) => {
                let m = row_at(rows, y);
                fork(rows, left, n, figures, m.left);
                fork(rows, m.right, x, r.figures, r.right);
                fork(rows, Some(n), y, m.figures, Some(x));
                y
            }
            None => {
                fork(rows, left, n, figures, Some(x));
                n
            }
        }
    } else {
        fork(rows, left, n, figures, r.left);
        fork(rows, Some(n), x, r.figures, r.right);
        x
    }
}

// A member over two trees whose heights differ by two at most.
#[tactic(auto, unfolding(crate::specs::Tables::balance_rows))]
pub fn balance(rows: &mut [Row], left: Option<u8>, n: u8, figures: Figures, right: Option<u8>) -> u8
    ensures rows { rows.new ≡ (balance_rows rows.old left n figures right).0 }
    ensures top { result ≡ (balance_rows rows.old left n figures right).1 }
{
    let a = u16::from(height_at(rows, left));
    let b = u16::from(height_at(rows, right));
    if b + 1 < a {
        match left {
            Some(x) => return rotate_right(rows, x, n, figures, right),
            None => {}
        }
    } else if a + 1 < b {
        match right {
            Some(x) => return rotate_left(rows, left, n, figures, x),
            None => {}
        }
    }
    fork(rows, left, n, figures, right);
    n
}
