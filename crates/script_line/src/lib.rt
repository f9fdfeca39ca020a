#![tactic(auto)]
//! The lines of a script: one read and spelled, and all of them run from a reader, with one printed text for each to a writer.
//!
//! | call | rule that it meets |
//! |---|---|
//! | `line_of` | the one line that these bytes spell, or none where no line is spelled so |
//! | `one_line` | two lines that are spelled alike are equal |
//! | `is_query` | whether a line only looks at the keeper |
//! | `number` | the one number that these bytes spell in decimal: no sign, no leading zero |
//! | `run_lines` | the lines run in their order, each text written whole before the next line; the first bad line ends the run; the writer is flushed before each read and at the end |
//! | `Console::run` | what a line may print, and what the console is then |
//! | `Console::runs` | a line that does not run may print nothing at the console as it is |
//!
//! A line is words joined by one space, with nothing before the first or after the last, and its numbers are
//! in decimal and within their types. So each line has one spelling, and anything else is no line.
//!
//! ```text
//! line_of(b"undo 3")     // Some(Line::Undo { k: 3 })
//! line_of(b"undo 03")    // None
//! line_of(b"undo  3")    // None
//! ```
//!
//! A script is lines ended by byte 0A; a last line without it counts where it is not empty.
//! A line has at most 256 bytes without its 0A, and a script at most 1,048,576 lines.
//! An empty line and a line that begins with `#` print nothing, and every other is a `Line` that runs at the console,
//! or it is bad: then `bad line N` is written, with the line's number counted from 1, and the run ends.
//!
//! ```text
//! let end = run_lines(alloc, &mut reader, &mut writer, &mut console);
//! // "# a comment\nhold\nholds\n"  ends by BadLine(3), after what the console prints for `hold`, and "bad line 3\n"
//! ```

mod bad;
mod byte;
mod classed;
mod console;
mod decimal;
mod ended;
mod ending;
mod fields;
mod finish;
mod fitted;
mod held;
mod law;
mod line;
mod look;
mod plain;
mod query;
mod read;
mod run;
mod run_line;
mod show;
mod sourced;
mod switch;

pub use console::Console;
pub use decimal::number;
pub use ending::ScriptEnd;
pub use law::one_line;
pub use line::{Ending, Line};
pub use look::Look;
pub use query::is_query;
pub use read::line_of;
pub use run::run_lines;
