// The words behind a row's name.
use script_line::number;
use sector_core::{Config, ConfigDraft, Scheduler};

// A device of zeros has no more sectors.
const MOST_SECTORS: u64 = 65_536;

/// What a script runs on.
#[derive(Clone, Copy)]
pub struct Setting {
    pub config: Config,
    pub sectors: u64,
}

/// The setting that options name, as those of `bfqhost sim`; or none if they name none.
pub fn setting_of(words: &[String]) -> Option<Setting> {
    let mut draft = ConfigDraft::default();
    let mut sectors = 1024;
    let mut rest = words;
    for _ in 0..words.len() {
        let [name, value, left @ ..] = rest else {
            break;
        };
        put(&mut draft, &mut sectors, name.as_bytes(), value.as_bytes())?;
        rest = left;
    }
    if sectors > MOST_SECTORS || !rest.is_empty() {
        return None;
    }
    checked(draft, sectors)
}

// This has no clauses, so that nothing carries the limits of its numbers.
fn checked(draft: ConfigDraft, sectors: u64) -> Option<Setting> {
    match Config::check(draft) {
        Ok(config) => Some(Setting { config, sectors }),
        Err(_) => None,
    }
}

fn put(draft: &mut ConfigDraft, sectors: &mut u64, name: &[u8], value: &[u8]) -> Option<()> {
    if name == b"--scheduler".as_slice() {
        draft.scheduler = if value == b"none".as_slice() {
            Scheduler::Plain
        } else {
            Scheduler::Bfq
        };
        return Some(());
    }
    let value = number(value)?;
    if name == b"--sectors".as_slice() {
        *sectors = value;
        return Some(());
    }
    put_number(draft, name, value)
}

fn put_number(draft: &mut ConfigDraft, name: &[u8], value: u64) -> Option<()> {
    if name == b"--nr-requests".as_slice() {
        draft.nr_requests = value;
    } else if name == b"--tags".as_slice() {
        draft.tags = value;
    } else if name == b"--first-budget".as_slice() {
        draft.first_budget = value;
    } else if name == b"--max-budget".as_slice() {
        draft.max_budget = value;
    } else if name == b"--timeout".as_slice() {
        draft.timeout = value;
    } else if name == b"--history".as_slice() {
        draft.history_max = value;
    } else if name == b"--first-vtime".as_slice() {
        draft.first_vtime = value;
    } else {
        return None;
    }
    Some(())
}
