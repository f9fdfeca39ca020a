#![tactic(auto)]
//! The console of a host: the lines of a script become calls of a keeper, and its answers become text.
//!
//! | call | rule that it meets |
//! |---|---|
//! | `Teller::run` | a line is one call, and prints its answer; or it is a query, which changes nothing; a `work` line reads the image first |
//! | `Teller::runs` | a line that asks for bytes which the payload has not does not run: the line and the payload's length decide it |
//! | `run_keeper` | the lines of a script run at a keeper over an image, one after the other |
//! | `others_read_no_payload`, `payload_stays` | a line that takes no bytes from the payload does not read it, and no line changes it |
//! | `bad_by_length` | a line that does not run over a payload of that length may print nothing |
//! | `one_state` | machines that differ in names alone print one line for `show state` |
//! | `put_answer` | the text of an answer |
//! | `tell` | what a query prints at a keeper, which is not changed |
//! | `Shows`, `Keeps` | what a keeper must offer to be looked at, and to be run from a script |
//!
//! The rules stand in `specs/`: `Printed` says for each line which call it is and what it prints, `Payload` which bytes a line takes from
//! the payload, and `Texts` has the texts of groups and of entities. `Looks` says what a line that begins with `show` prints. `Views` has the
//! texts of what a machine has, and `State` its one line without names; `Naming` says which machines differ in names alone. `host_calls` has
//! the texts of answers.
//!
//! ```text
//! attach 0 0 4        // attached 1
//! write 0 1 5 1 65    // queued 2
//! undo 1              // refused 28
//! sector 5            // sector 5 base
//! queue 0             // queue 5+1x1
//! group 0 200         // group 1
//! vtime 1             // vtime 1 0
//! vtime 1 rt          // vtime 1 rt 0
//! class 0             // class 0 be
//! entity 17           // entity 17 idle 0 0 200 4096 0
//! ```

mod asked;
mod filled;
mod group;
mod keeps;
mod law;
mod query;
mod run;
mod source;
mod steps;
mod submit;
mod teller;
mod telling;
mod work;

pub use host_calls::put_answer;
pub use keeps::{Keeps, Shows};
pub use law::{bad_by_length, one_state, others_read_no_payload, payload_stays};
pub use run::run_keeper;
pub use teller::Teller;
pub use telling::tell;
