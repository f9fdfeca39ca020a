// The configuration of a host: numbers within their limits.
ghost use Rattle.std.specs.Prelude.{◌≡◌, ◌≤◌, ◌^◌, OnOk, IfOk, IfErr, Some, None};

use std::fmt;
use thiserror::Error;

/// Which scheduler orders the requests.
#[derive(Clone, Copy, Debug, PartialEq, Eq)]
pub enum Scheduler {
    /// `none`: the software queues in turn, each in order of insertion.
    Plain,
    /// `bfq`: one queue in service at a time, with a budget, by weights.
    Bfq,
}

/// The numbers as they were given, of any size.
#[derive(Clone, Copy, Debug, PartialEq, Eq)]
pub struct ConfigDraft {
    /// The scheduler that the host starts with.
    pub scheduler: Scheduler,
    /// How many requests may be queued, in the dispatch list or in flight, 1 to 256.
    pub nr_requests: u64,
    /// How many tags the device has, 1 to 64.
    pub tags: u64,
    /// The budget of a new queue in sectors, 256 to `max_budget`.
    pub first_budget: u64,
    /// The greatest budget in sectors, 256 to 65,536.
    pub max_budget: u64,
    /// After how many ticks a queue in service expires, 1 to 1,000.
    pub timeout: u64,
    /// How many accepted calls the history holds, 1 to 16,777,216.
    pub history_max: u64,
    /// The virtual time at which every group starts, 0 to 2^62.
    pub first_vtime: u64,
}

impl Default for ConfigDraft {
    ghost use Rattle.sector_core.specs.Config.{default_draft};

    ghost is_default = { λ draft. draft ≡ default_draft };

    fn default() -> ConfigDraft {
        ConfigDraft {
            scheduler: Scheduler::Bfq,
            nr_requests: 64,
            tags: 4,
            first_budget: 1024,
            max_budget: 4096,
            timeout: 8,
            history_max: 65_536,
            first_vtime: 0,
        }
    }
}

/// The first field that is out of its limits, in this order.
#[derive(Clone, Copy, Debug, Drop, PartialEq, Eq, Error)]
pub enum ConfigFault {
    /// `nr_requests` is not 1 to 256.
    #[error("nr_requests")]
    NrRequests,
    /// `tags` is not 1 to 64.
    #[error("tags")]
    Tags,
    /// `max_budget` is not 256 to 65,536.
    #[error("max_budget")]
    MaxBudget,
    /// `first_budget` is not 256 to `max_budget`.
    #[error("first_budget")]
    FirstBudget,
    /// `timeout` is not 1 to 1,000.
    #[error("timeout")]
    Timeout,
    /// `history_max` is not 1 to 16,777,216.
    #[error("history_max")]
    HistoryMax,
    /// `first_vtime` is above 2^62.
    #[error("first_vtime")]
    FirstVtime,
}

/// A configuration within its limits, which [`Config::check`] alone makes.
#[derive(Clone, Copy, Debug)]
pub struct Config {
    /// The scheduler that the host starts with.
    pub scheduler: Scheduler,
    /// How many requests may be queued, in the dispatch list or in flight.
    pub nr_requests: u16,
    /// How many tags the device has.
    pub tags: u8,
    /// The budget of a new queue in sectors.
    pub first_budget: u32,
    /// The greatest budget in sectors.
    pub max_budget: u32,
    /// After how many ticks a queue in service expires.
    pub timeout: u32,
    /// How many accepted calls the history holds.
    pub history_max: u32,
    /// The virtual time at which every group starts.
    pub first_vtime: u64,
    ghost some_requests: { 1 ≤ nr_requests },
    ghost few_requests: { nr_requests ≤ 256 },
    ghost some_tags: { 1 ≤ tags },
    ghost few_tags: { tags ≤ 64 },
    ghost small_max_budget: { max_budget ≤ 65536 },
    ghost first_budget_at_most: { first_budget ≤ max_budget },
    ghost first_budget_at_least: { 256 ≤ first_budget },
    ghost some_timeout: { 1 ≤ timeout },
    ghost small_timeout: { timeout ≤ 1000 },
    ghost some_history: { 1 ≤ history_max },
    ghost small_history: { history_max ≤ 16777216 },
    ghost small_vtime: { first_vtime ≤ 2 ^ 62 },
}

impl Config {
    ghost use Rattle.sector_core.specs.Config.{fault_of, IsDraftOf};

    /// The configuration of a draft within the limits, or its first fault.
    pub fn check(draft: ConfigDraft) -> Result<Config, ConfigFault>
        ensures within { IfOk result (λ config. IsDraftOf config draft) }
        ensures ok { OnOk result (fault_of draft ≡ None) }
        ensures err { IfErr result (λ fault. fault_of draft ≡ Some fault) }
    {
        if draft.nr_requests < 1 || draft.nr_requests > 256 {
            return Err(ConfigFault::NrRequests);
        }
        if draft.tags < 1 || draft.tags > 64 {
            return Err(ConfigFault::Tags);
        }
        if draft.max_budget < 256 || draft.max_budget > 65_536 {
            return Err(ConfigFault::MaxBudget);
        }
        if draft.first_budget < 256 || draft.first_budget > draft.max_budget {
            return Err(ConfigFault::FirstBudget);
        }
        if draft.timeout < 1 || draft.timeout > 1000 {
            return Err(ConfigFault::Timeout);
        }
        if draft.history_max < 1 || draft.history_max > 16_777_216 {
            return Err(ConfigFault::HistoryMax);
        }
        if draft.first_vtime > 1 << 62 {
            return Err(ConfigFault::FirstVtime);
        }
        Ok(Config {
            scheduler: draft.scheduler,
            nr_requests: draft.nr_requests as u16,
            tags: draft.tags as u8,
            first_budget: draft.first_budget as u32,
            max_budget: draft.max_budget as u32,
            timeout: draft.timeout as u32,
            history_max: draft.history_max as u32,
            first_vtime: draft.first_vtime,
        })
    }
}
