// Runs of stored sectors.
ghost use Rattle.std.specs.Prelude.{◌≡◌, ◌+◌, ◌*◌, ◌/◌, ◌%◌, ◌<◌, ◌≤◌, ◌^◌, ℕ, IfSome};
ghost use Rattle.plain.specs.Runs.{IsStored, IsFree, IsNextStored, IsRun, IsNextRun};

use crate::Overlay;
use crate::page::PAGE;
use sector_core::Range;

impl Overlay {
    /// The least stored sector from one on.
    pub fn next_stored(&self, from: u64) -> Option<u64>
        ensures { IsNextStored self.now from result }
    {
        match self.next_in_page(from) {
            Some(sector) => Some(sector),
            None => self.next_behind_page(from / PAGE),
        }
    }

    // The least stored sector from one on, of those in its page.
    fn next_in_page(&self, from: u64) -> Option<u64>
        ensures stored { IfSome result (λ sector. (from ≤ sector) × IsStored self.now sector) }
        ensures free { (sector : ℕ) → from ≤ sector → sector / 8 ≡ from / 8 → IfSome result (λ found. sector < found) → IsFree self.now sector }
        ensures page { IfSome result (λ sector. sector / 8 ≡ from / 8) }
    {
        match self.pages.get(&(from / PAGE)) {
            Some(page) => match page.first_from((from % PAGE) as usize) {
                Some(at) => Some(from / PAGE * PAGE + at as u64),
                None => None,
            },
            None => None,
        }
    }

    // The least stored sector behind a page. No page is empty, so it is in the next page that there is.
    fn next_behind_page(&self, number: u64) -> Option<u64>
        requires { number < 2 ^ 61 }
        ensures { IsNextStored self.now (8 * (number + 1)) result }
    {
        match self.pages.range(number + 1..).next() {
            Some((next, page)) => match page.first_from(0) {
                Some(at) => Some(*next * PAGE + at as u64),
                None => None,
            },
            None => None,
        }
    }

    /// The least stored sector from one on, and how many follow it without a gap, itself among them, at most so many.
    pub fn next_run(&self, from: u64, most: u32) -> Option<Range>
        ensures { IsNextRun self.now from most result }
    {
        let start = self.next_stored(from)?;
        let count = self.count_from(start, most);
        Some(Range { start, count })
    }

    // How many stored sectors follow each other from one on, at most so many.
    fn count_from(&self, start: u64, most: u32) -> u32
        ensures { IsRun self.now most (record { start = start; count = result }) }
    {
        let mut count = 0;
        while count < most {
            let Some(sector) = start.checked_add(u64::from(count)) else {
                return count;
            };
            let more = self.count_in_page(sector, most - count);
            if more == 0 {
                return count;
            }
            count += more;
        }
        most
    }

    // How many stored sectors follow each other from one on, of those in its page, at most so many.
    fn count_in_page(&self, from: u64, most: u32) -> u32
        ensures within { result ≤ most }
        ensures stored { (k : ℕ) → k < result → IsStored self.now (from + k) }
        ensures ends { result < most → from % 8 + result < 8 → IsFree self.now (from + result) }
    {
        match self.pages.get(&(from / PAGE)) {
            Some(page) => page.count_from((from % PAGE) as usize, most),
            None => 0,
        }
    }
}
