// The choice of a device's next work.
ghost use Rattle.std.specs.Prelude.{◌≡◌, ℕ, IsTrue, IsFalse};
ghost use Rattle.dispatch_core.specs.Running.{plain_of, IsFor};
ghost use Rattle.host_core.specs.Takes.{IsOthers, IsBest};
ghost use Rattle.host_rings.specs.Nearer.{IsNearer};

use dispatch_core::{View, Work};

/// The request in flight of least issue, among those that are not the last that another device took. `lasts` has the last issue of
/// each device, by its number, and `own` is the number of the one that asks.
pub fn take_work(view: &View<'_>, lasts: &[Option<u64>], own: usize) -> Option<Work>
    ensures { (n : ℕ) → IsFor n view.now → IsBest (plain_of view.now) lasts.now own result }
{
    let mut best: Option<Work> = None;
    for tag in 0..view.tags() {
        match view.in_flight(tag) {
            None => {}
            Some(work) => {
                if !is_others(lasts, own, work.issue) {
                    best = nearer(best, work);
                }
            }
        }
    }
    best
}

// Whether another device took this issue last.
fn is_others(lasts: &[Option<u64>], own: usize, issue: u64) -> bool
    ensures others { IsTrue result → IsOthers lasts.now own issue }
    ensures free { IsFalse result → IsOthers lasts.now own issue → ⊥ }
{
    for (device, last) in lasts.iter().enumerate() {
        if device != own && *last == Some(issue) {
            return true;
        }
    }
    false
}

// The one of lesser issue.
fn nearer(best: Option<Work>, work: Work) -> Option<Work>
    ensures { IsNearer best work result }
{
    match best {
        None => Some(work),
        Some(known) => {
            if work.issue < known.issue {
                Some(work)
            } else {
                Some(known)
            }
        }
    }
}
