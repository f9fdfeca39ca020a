#![tactic(auto)]
//! Balanced search trees over a fixed table of rows, each row with the least finish and the sum of weights of its subtree.
//!
//! | call | rule that it meets |
//! |---|---|
//! | [`insert_at`] | a member goes in by key and number, with the turns that the sides then need |
//! | [`remove_at`] | a member goes out, likewise |
//! | [`pick_at`] | of the members with a key up to a limit the first turn: the least finish, on a tie the lower number |
//! | [`first_key_at`] | the least key |
//! | [`sum_above_at`] | the sum of the weights of the members with a key above a limit |
//! | [`sum_at`], [`height_at`] | the sum of all weights, and the height, as the top's row tells them |
//!
//! These are AVL trees, augmented as the kernel's red-black trees of BFQ are. A member's number is that of its row, and a
//! link is the number of a row. So a table is made once, and no call takes memory. Several trees may stand in one table, if
//! no member is in two of them: a call writes the rows of its own members alone.
//!
//! No call asks anything of the table. A link past it leads to a blank row, and each walk ends after so many levels, which
//! the caller takes from [`height_at`]. What makes a tree a tree is the business of its owner, who keeps it from call to call.

mod grow;
mod rotations;
mod row;
mod shrink;
mod walk;

pub use grow::insert_at;
pub use row::{BLANK, Figures, Row, Turn, height_at, sum_at};
pub use shrink::remove_at;
pub use walk::{first_key_at, pick_at, sum_above_at};
