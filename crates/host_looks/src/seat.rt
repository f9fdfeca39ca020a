// The side of who looks.
ghost use Rattle.std.specs.Prelude.{◌≡◌, ◌∷◌, [], ◌++◌, IfSome, None, Some, true};
ghost use Rattle.script_line.specs.Query.{is_query};
ghost use Rattle.host_looks.specs.Looking.{SameSeat, Asked, asked, heard};

use crate::same::is_same;
use crate::told::{Queries, Told};
use host_core::{Bell, Patience};
use rtrb::{Consumer, Producer};
use script_line::Line;
use std::alloc::Global;
use std::sync::Wait;

// How often who looks looks for a reply before it sleeps. No contract depends on it.
const LOOKS: u32 = 100;

/// Where looks are asked for.
#[derive(Drop)]
pub struct LookSeat {
    pub(crate) lines: Producer<Line, Global, Queries>,
    pub(crate) replies: Consumer<Option<Told>>,
    pub(crate) core: Bell,
    pub(crate) own: Bell,
}

impl LookSeat {
    /// Whether the core has ended. No contract speaks of the answer.
    pub fn is_ended(&mut self) -> bool
        ensures seat { SameSeat self.old self.new }
        ensures asked { (asked self.new ≡ asked self.old) × (heard self.new ≡ heard self.old) }
    {
        self.replies.is_abandoned()
    }

    /// Asks what a query prints, and waits for it. There is none if the core had no memory for it, or has ended.
    pub fn ask<R: Wait>(&mut self, rt: &R, line: Line) -> Option<Told>
        requires { is_query line ≡ true }
        ensures seat { SameSeat self.old self.new }
        ensures asked { IfSome result (λ t. Asked self.old line t self.new) }
    {
        // A query that nobody takes has its place still: only if the core has ended.
        if self.lines.push(line).is_err() {
            return None;
        }
        self.core.ring();
        match self.hear(rt) {
            Some(told) if is_same(told.line, line) => Some(told),
            _ => None,
        }
    }

    // The next reply, if one is there.
    fn next_reply(&mut self) -> Option<Option<Told>>
        ensures seat { SameSeat self.old self.new }
        ensures asked { asked self.new ≡ asked self.old }
        ensures some { IfSome result (λ r. heard self.new ≡ heard self.old ++ r ∷ []) }
        ensures none { result ≡ None → heard self.new ≡ heard self.old }
    {
        self.replies.pop().ok()
    }

    // Waits for the next reply, or for the core's end.
    fn hear<R: Wait>(&mut self, rt: &R) -> Option<Told>
        ensures seat { SameSeat self.old self.new }
        ensures asked { asked self.new ≡ asked self.old }
        ensures heard { IfSome result (λ t. heard self.new ≡ heard self.old ++ Some t ∷ []) }
    {
        let mut patience = Patience::new(LOOKS);
        for _ in rt.forever() {
            // This comes first: what the core told before it ended is there then.
            let is_ended = self.is_ended();
            if let Some(reply) = self.next_reply() {
                return reply;
            }
            if is_ended {
                return None;
            }
            patience.rest(rt, &self.own);
        }
        unreachable!()
    }
}
