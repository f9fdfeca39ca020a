// What came of a row.

/// Which requests for memory are refused.
#[derive(Clone, Copy, Debug, PartialEq, Eq)]
pub enum Mode {
    /// One at most.
    Once,
    /// Each from some one on.
    Always,
}

/// What a row has met.
#[derive(Clone, Copy, Debug, PartialEq, Eq)]
pub struct Met {
    /// How many calls found no memory.
    pub lacking: u32,
    /// Whether a Redo of several steps found none after its first one.
    pub is_half_way: bool,
}

/// A promise that was broken, and by what.
#[derive(Clone, Copy, Debug, PartialEq, Eq)]
pub struct Broken {
    pub promise: &'static str,
    pub by: &'static str,
}

/// How a row ended.
#[derive(Clone, Copy, Debug, PartialEq, Eq)]
pub enum Verdict {
    /// Memory was wanting before the row began.
    Unprepared,
    /// Each promise was kept.
    Kept(Met),
    /// A promise was broken, at the call of this number from 1 on, or at none.
    Broken(Broken, usize),
    /// There is no such row, or its script has a bad line.
    BadWords,
}

impl Met {
    /// Nothing yet.
    pub fn new() -> Met {
        Met {
            lacking: 0,
            is_half_way: false,
        }
    }

    /// One call more found no memory. With one request refused no second may.
    pub fn note(&mut self, mode: Mode) -> Result<(), Broken> {
        if mode == Mode::Once && self.lacking > 0 {
            return breaks("more than one call found no memory", "");
        }
        self.lacking = self.lacking.saturating_add(1);
        Ok(())
    }
}

/// A broken promise.
pub fn breaks<T>(promise: &'static str, by: &'static str) -> Result<T, Broken> {
    Err(Broken { promise, by })
}

/// The verdict on a row without numbered calls.
pub fn ended(came: Result<Met, Broken>) -> Verdict {
    match came {
        Ok(met) => Verdict::Kept(met),
        Err(fault) => Verdict::Broken(fault, 0),
    }
}
