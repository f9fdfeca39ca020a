// What holds of all records and replays.
ghost use Rattle.std.specs.Prelude.{◌≡◌, ℕ, ◌<◌, ◌≤◌, ◌^◌, List, ◌++◌, length, IsFalse};
ghost use Rattle.plain.specs.declared.call.Call.{Call};
ghost use Rattle.plain.specs.Opening.{Limits};
ghost use Rattle.plain.specs.Headline.{replay};
ghost use Rattle.sector_core.specs.declared.config.Config.{Config};
ghost use Rattle.host_core.specs.Journal.{Entry as Page};
ghost use Rattle.run_record.specs.Header.{header_text, IsSameConfig};
ghost use Rattle.run_recording.specs.Recorded.{AreFrames};
ghost use Rattle.run_replay.specs.declared.loading.Replayed.{Replayed};
ghost use Rattle.run_replay.specs.declared.reel.Asked.{Asked};
ghost use Rattle.run_replay.specs.Replaying.{before, IsReplayOf};

use run_record::{Entry, one_header};
use session_proto::one_reading;

/// A record of a journal, replayed, gives the keeper of that journal, up to the entry that is asked for, under the names of its seats.
pub fn record_is_replayed()
    ensures { (config : Config) (sectors : ℕ) (pages : List Page) (bytes frames : List ℕ) (asked : Asked) (r : Replayed)
        → sectors < 2 ^ 55 → AreFrames pages frames → bytes ≡ header_text config sectors ++ frames → IsReplayOf bytes asked r
        → IsSameConfig r.header.config config × (r.header.sectors ≡ sectors) × (r.book.entries ≡ before asked.to pages) × IsFalse r.is_torn }
{
    one_header();
    one_reading::<Entry>();
}

/// A journal in a history of another size gives the same keeper, if it fits both: the machine, the line of steps and the rest.
pub fn more_room()
    ensures { (l : Limits) (most other : ℕ) (journal : List Call) → length journal ≤ most → length journal ≤ other
        → replay l other journal ≡ record (replay l most journal) { most = other } }
{}
