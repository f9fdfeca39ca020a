#![tactic(auto)]
//! A host that is run from a script: the console over the keeper of a history, over an image.
//!
//! | call | rule that it meets |
//! |---|---|
//! | [`run_script`] | what is written is the text of the lines read, with answers that the keeper's rules allow |
//! | [`run_script_over`] | the same over a payload, whose bytes a `write` line may take |
//! | [`run_script_at`] | the same on a keeper that is in whatever state |
//! | [`put_step`] | a step as a line of a script spells it |
//! | [`Host`] | a keeper as a console needs it, also one that is only looked at |
//! | [`Seen`] | a look at a keeper |
//!
//! What a console asks of a keeper the keeper of a history answers (`host`). The text of a line that begins with `show` is that of the
//! keeper, and nothing else (`looks`). A list of the machine is shown item by item, as it stands there: nothing is copied, and memory is
//! taken for the text alone. What each look shows is defined in `host_console`.
//!
//! Nothing else is public: who shows a type shows all that it is made of.
//!
//! ```text
//! show seat 0         // seat 0 1 0 4 1 0 here
//! show queue 0        // queue 0 fetch:5+1:2
//! show outbox 0       // outbox 0
//! show flight         // flight
//! show tree 0         // tree 0 - 0 0:active:0:107374182:40:40
//! show state          // state bfq running 15 seat 0 0 4 1 0 here queue fetch:5+1 outbox requeued ..
//! show host           // host bfq running free 15 2 2 2 2
//! show step 2         // step 2 2 read 0 1 5 1
//! ```

mod entities;
mod flights;
mod host;
mod looks;
mod requests;
mod script;
mod seats;
mod state;
mod steps;

pub use host::{Host, Seen};
pub use script::{run_script, run_script_at, run_script_over};
pub use steps::put_step;
