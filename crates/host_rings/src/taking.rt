// What a device is answered to a Take.
ghost use Rattle.std.specs.Prelude.{◌≡◌};
ghost use Rattle.plain.specs.Headline.{replay};
ghost use Rattle.host_core.specs.Journal.{calls_of};
ghost use Rattle.host_core.specs.Takes.{TakeRule, of_best};

use crate::book::Book;
use crate::takes::take_work;
use dispatch_core::Work;
use plain::{Answer, Cause, Code, Reply};

impl Book {
    /// What the device of number `own` is answered to a Take, in which it says that its number is `worker`. `lasts` has the issue that
    /// each device took last, by its number.
    pub fn take(&self, lasts: &[Option<u64>], own: u8, worker: u8) -> Answer
        ensures { TakeRule (replay self.now.limits self.now.most (calls_of self.now.entries)) own worker lasts.now result }
    {
        let view = self.view();
        if view.held() {
            return Answer::NotYet(Cause::Held);
        }
        if worker != own {
            return Answer::Refused(Code::BadWorker);
        }
        answer_of(take_work(&view.machine(), lasts, usize::from(own)))
    }
}

fn answer_of(best: Option<Work>) -> Answer
    ensures { result ≡ of_best best }
{
    match best {
        None => Answer::NotYet(Cause::NothingToTake),
        Some(work) => Answer::Accepted(Reply::Taken(work)),
    }
}
