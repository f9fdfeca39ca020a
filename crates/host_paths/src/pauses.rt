// How long a worker sleeps before it tries again.
ghost use Rattle.std.specs.Prelude.{◌≡◌, ◌*◌, ◌≤◌, min};

use std::thread;
use std::time::{Clock, Duration};

/// The first pause, in milliseconds.
pub const FIRST: u64 = 1;

// The longest. A busy image then makes at most ten tries a second.
const LONGEST: u64 = 100;

// The pause after one of so many milliseconds: twice as long, and no longer than the longest.
fn longer(pause: u64) -> u64
    ensures is { result ≡ min (pause * 2) 100 }
    ensures few { result ≤ 100 }
{
    pause.saturating_mul(2).min(LONGEST)
}

/// Sleeps so many milliseconds, and gives the next pause.
pub fn sleep(clock: &impl Clock, pause: u64) -> u64
    ensures { result ≡ min (pause * 2) 100 }
{
    thread::sleep(clock, Duration::from_millis(pause));
    longer(pause)
}

/// Sleeps so many microseconds, and not at all for none.
pub fn linger(clock: &impl Clock, microseconds: u32) {
    if microseconds > 0 {
        thread::sleep(clock, Duration::from_micros(u64::from(microseconds)));
    }
}
