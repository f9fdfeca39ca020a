// A member of a group, and a group's virtual times.
ghost use Rattle.std.specs.Prelude.{◌≡◌};
ghost use Rattle.plain.specs.Classes.{same_times, time_of, with_time};

use sector_core::Class;

/// Whether an entity waits for service, is served, or neither.
#[derive(Clone, Copy, Debug, PartialEq, Eq)]
pub enum State {
    /// It has nothing to send.
    Idle,
    /// It waits to be picked.
    Active,
    /// It is in service.
    Serving,
}

/// What B-WF2Q+ knows of a member of a group. Start and finish are virtual times.
#[derive(Clone, Copy, Debug, PartialEq, Eq)]
pub struct Member {
    /// The class in which it competes.
    pub class: Class,
    /// Whether it waits for service, is served, or neither.
    pub state: State,
    /// From this virtual time on it is eligible.
    pub start: u64,
    /// Its service ends by this virtual time: the least one of those eligible is picked.
    pub finish: u64,
    /// The weight in effect: the one that its start and finish were made with.
    pub weight: u32,
}

/// A virtual time of each class.
#[derive(Clone, Copy, Debug, PartialEq, Eq)]
pub struct Vtimes {
    /// Of the real-time class.
    pub real_time: u64,
    /// Of the best-effort class.
    pub best_effort: u64,
    /// Of the idle class.
    pub idle: u64,
}

impl Vtimes {
    /// Every class at the same virtual time.
    pub fn same(vtime: u64) -> Vtimes
        ensures { result ≡ same_times vtime }
    {
        Vtimes {
            real_time: vtime,
            best_effort: vtime,
            idle: vtime,
        }
    }

    /// The virtual time of a class.
    pub fn of(self, class: Class) -> u64
        ensures { result ≡ time_of self class }
    {
        match class {
            Class::RealTime => self.real_time,
            Class::BestEffort => self.best_effort,
            Class::Idle => self.idle,
        }
    }

    /// The times with this one of a class.
    pub fn with(self, class: Class, vtime: u64) -> Vtimes
        ensures { result ≡ with_time self class vtime }
    {
        match class {
            Class::RealTime => Vtimes {
                real_time: vtime,
                ..self
            },
            Class::BestEffort => Vtimes {
                best_effort: vtime,
                ..self
            },
            Class::Idle => Vtimes {
                idle: vtime,
                ..self
            },
        }
    }
}
