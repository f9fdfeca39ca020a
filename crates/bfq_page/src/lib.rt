#![tactic(auto)]
//! The host in a page: a whole script at each call.
//!
//! | export | rule that it meets |
//! |---|---|
//! | `bfq_page_run` | what is written is the text of a run of the script on a new host, and the status is that of its end |
//!
//! Nothing stays from one call to the next. A page that adds a line gives the lines before it again, and all memory of a call can be taken
//! back at once. So no handle goes out, which a page could spoil.
ghost use Rattle.std.specs.Prelude.{◌≡◌, ◌≤◌, ℕ, List, [], length};
ghost use Rattle.bfq_page.specs.Page.{draft_of, status_of, Tells, IsRunOver, IsFront};

use base_image::ZeroImage;
use script_host::run_script;
use script_line::ScriptEnd;
use sector_core::{Config, ConfigDraft, Scheduler};
use std::alloc::Global;

// The most sectors of a device of zeros.
const MOST_SECTORS: u64 = 65_536;

// The status if a number is out of its limits.
const REFUSED: u64 = 6;

/// The numbers of a configuration, and how many sectors of zeros the device has.
#[repr(C)]
#[derive(Drop)]
pub struct Dials {
    /// Whether the host starts with `bfq`.
    pub is_bfq: bool,
    /// How many requests may be queued, in the dispatch list or in flight.
    pub nr_requests: u64,
    /// How many tags the device has.
    pub tags: u64,
    /// The budget of a new queue in sectors.
    pub first_budget: u64,
    /// The greatest budget in sectors.
    pub max_budget: u64,
    /// After how many ticks a queue in service expires.
    pub timeout: u64,
    /// How many accepted calls the history holds.
    pub history_max: u64,
    /// The virtual time at which every group starts.
    pub first_vtime: u64,
    /// How many sectors the device has.
    pub sectors: u64,
}

/// How a run ended.
#[repr(C)]
#[derive(Drop)]
pub struct Ended {
    /// The status with which `bfqhost sim` would end.
    pub status: u64,
    /// How many bytes the text has, of which the room may hold a front.
    pub length: usize,
}

/// Runs the script on a new host, and writes as much of its text as there is room for.
#[unsafe(no_mangle)]
pub extern "C" fn bfq_page_run(
    alloc: Global,
    dials: &Dials,
    script: &[u8],
    room: &mut [u8],
    ended: &mut Ended,
)
    ensures { (text : List ℕ) × Tells (draft_of dials.now) dials.now.sectors script.now text ended.new.status
        × (ended.new.length ≡ length text) × IsFront text room.old room.new }
{
    let mut text = Vec::new(alloc);
    ended.status = run(alloc, draft_of(dials), dials.sectors, script, &mut text);
    ended.length = text.len();
    put_front(text.as_slice(), room);
}

// The draft of the dials.
fn draft_of(dials: &Dials) -> ConfigDraft
    ensures { result ≡ draft_of dials.now }
{
    ConfigDraft {
        scheduler: if dials.is_bfq {
            Scheduler::Bfq
        } else {
            Scheduler::Plain
        },
        nr_requests: dials.nr_requests,
        tags: dials.tags,
        first_budget: dials.first_budget,
        max_budget: dials.max_budget,
        timeout: dials.timeout,
        history_max: dials.history_max,
        first_vtime: dials.first_vtime,
    }
}

// Runs the script if the configuration and the device are within their limits, and gives the status.
fn run(alloc: Global, draft: ConfigDraft, sectors: u64, script: &[u8], text: &mut Vec<u8>) -> u64
    requires { text.now.items ≡ [] }
    ensures { Tells draft sectors script.now text.new.items result }
{
    match Config::check(draft) {
        Ok(config) if sectors <= MOST_SECTORS => run_within(alloc, config, sectors, script, text),
        _ => REFUSED,
    }
}

// Runs the script on a new host over sectors of zeros, and gives the status.
fn run_within(alloc: Global, config: Config, sectors: u64, script: &[u8], text: &mut Vec<u8>) -> u64
    requires empty { text.now.items ≡ [] }
    requires few { sectors ≤ 65536 }
    ensures { IsRunOver config sectors script.now text.new.items result }
{
    let mut reader = script;
    let end = run_script(alloc, config, &mut reader, text, ZeroImage::new(sectors));
    status_of(end)
}

// The status of an end.
fn status_of(end: ScriptEnd) -> u64
    ensures { result ≡ status_of end }
{
    match end {
        ScriptEnd::Done => 0,
        ScriptEnd::BadLine(_) => 2,
        ScriptEnd::ReadFault => 3,
        ScriptEnd::WriteFault => 4,
        ScriptEnd::OutOfMemory => 5,
    }
}

// Copies as much of the text as there is room for.
fn put_front(text: &[u8], room: &mut [u8])
    ensures { IsFront text.now room.old room.new }
{
    let count = text.len().min(room.len());
    room[..count].copy_from_slice(&text[..count]);
}
