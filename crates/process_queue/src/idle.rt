// Whether there is anything to serve.
ghost use Rattle.std.specs.Prelude.{◌≡◌, [], ℕ, IsFalse, IsSome, IsTrue, None, slice_index_or};
ghost use Rattle.process_queue.specs.Queue.{queue_slots};

use crate::ProcessQueue;

impl ProcessQueue {
    /// Whether no queue has a slot. No walk: how many slots are in queues is counted.
    pub fn are_empty(&self) -> bool
        ensures none { IsTrue result → (seat : ℕ) → queue_slots seat self.now ≡ [] }
        ensures some { IsFalse result → (slot : ℕ) × IsSome (slice_index_or self.now slot None) }
    {
        self.queued == 0
    }
}
