// What a look prints.
ghost use Rattle.std.specs.Prelude.{◌≡◌, ◌++◌, List, ℕ, OnOk};
ghost use Rattle.host_console.specs.Looks.{Looked, host_look, step_look, step_at, hold_text};
ghost use Rattle.host_console.specs.State.{run_text};

use crate::entities::{put_service, put_stored, put_tree};
use crate::flights::put_flight;
use crate::requests::{put_queue, put_requeued};
use crate::seats::{put_outbox, put_seat};
use crate::state::put_state;
use crate::steps::{put_numbered, scheduler_word};
use history::{KeeperView, StampedStep};
use script_line::Look;
use std::io::{self, Write};

/// Appends what a look shows of a keeper. It fails only for want of memory.
pub fn put_look(view: &KeeperView<'_>, look: Look, out: &mut Vec<u8>) -> io::Result<()>
    ensures { OnOk result ((text : List ℕ) × Looked view.now.state look text × (out.new.items ≡ out.old.items ++ text)) }
{
    let machine = view.machine();
    match look {
        Look::Seat { seat } => put_seat(&machine, seat, out),
        Look::Outbox { seat } => put_outbox(&machine, seat, out),
        Look::Queue { seat } => put_queue(&machine, seat, out),
        Look::Requeued => put_requeued(&machine, out),
        Look::Flight => put_flight(&machine, out),
        Look::Service => put_service(&machine, out),
        Look::Tree { group } => put_tree(&machine, group, out),
        Look::Host => put_host(view, out),
        Look::State => put_state(&machine, out),
        Look::Stored { from } => put_stored(&machine, from, out),
        Look::Step { k } => put_step(view, k, out),
    }
}

// Appends what the host is at.
fn put_host(view: &KeeperView<'_>, out: &mut Vec<u8>) -> io::Result<()>
    ensures { OnOk result (out.new.items ≡ out.old.items ++ host_look view.now.state) }
{
    let machine = view.machine();
    let scheduler = scheduler_word(machine.scheduler());
    let run = run_word(machine.frozen());
    let hold = hold_word(view.held());
    let served = machine.served();
    let cursor = view.cursor();
    let length = view.length();
    let last = view.last_serial();
    let journal = view.journal_len();
    write!(
        out,
        "host {scheduler} {run} {hold} {served} {cursor} {length} {last} {journal}"
    )
}

/// Whether submits wait.
pub fn run_word(frozen: bool) -> &'static str
    ensures { result.now ≡ run_text frozen }
{
    if frozen { "frozen" } else { "running" }
}

// Whether the host is held.
fn hold_word(held: bool) -> &'static str
    ensures { result.now ≡ hold_text held }
{
    if held { "held" } else { "free" }
}

// Appends the step of a number from 1 on.
fn put_step(view: &KeeperView<'_>, number: u32, out: &mut Vec<u8>) -> io::Result<()>
    ensures { OnOk result (out.new.items ≡ out.old.items ++ step_look number (step_at view.now.state number)) }
{
    match stamped_at(view, number) {
        Some(stamped) => put_numbered(number, &stamped, out),
        None => write!(out, "step {number} none"),
    }
}

// The step of a number from 1 on.
fn stamped_at<'a>(view: &KeeperView<'a>, number: u32) -> Option<StampedStep<'a>>
    ensures { result ≡ step_at view.now.state number }
{
    match number.checked_sub(1) {
        Some(place) => view.stamped(place),
        None => None,
    }
}
