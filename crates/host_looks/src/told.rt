// What is told of a look.
ghost use Rattle.std.specs.Prelude.{◌≡◌, IfSome, true};
ghost use Rattle.script_line.specs.Query.{is_query};
ghost use Rattle.host_console.specs.Printed.{Tells};
ghost use Rattle.host_looks.specs.Telling.{IsTold};

use host_console::{Shows, tell};
use rtrb::Protocol;
use script_line::Line;
use std::alloc::Global;

/// Only queries go to the core.
#[derive(Clone, Copy)]
pub struct Queries;

impl Protocol<Line> for Queries {
    ghost allows = { λ _ line. is_query line ≡ true };
}

/// A query, and what it prints, with its end.
#[derive(Drop)]
pub struct Told {
    /// The query.
    pub line: Line,
    /// The text.
    pub text: Vec<u8>,
    ghost told: { ∥ IsTold line text.items ∥₁ },
}

/// What a query prints at a keeper, or nothing for want of memory.
pub fn reply_to<K: Shows>(alloc: Global, keeper: &K, line: Line) -> Option<Told>
    requires { is_query line ≡ true }
    ensures { IfSome result (λ t. (t.line ≡ line) × Tells (K.state keeper.now) line t.text.items) }
{
    let mut text = Vec::new(alloc);
    match tell(keeper, line, &mut text) {
        Ok(()) => Some(Told { line, text }),
        Err(_) => None,
    }
}
