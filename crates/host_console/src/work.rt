// The lines of device work.
ghost use Rattle.std.specs.Prelude.{◌≡◌, ℕ, List, ◌++◌, IfOk, OnOk, OnErr, ◌⊎◌};
ghost use Rattle.script_line.specs.declared.line.Line.TheVariants as line;
ghost use Rattle.plain.specs.Keeper.{machine_of};
ghost use Rattle.plain.specs.Device.{work_in_flight};
ghost use Rattle.host_console.specs.Printed.{Looks, StepOfWork};

use crate::{Keeps, Teller};
use base_image::Image;
use device_engine::work_once;
use plain::Step;
use sector_core::{OutOfMemory, Outcome};
use std::alloc::Global;

impl<K: Keeps, I: Image> Teller<K, I> {
    // The call of a `work` line; where there is no memory for the bytes that are read, no call is made.
    pub(crate) fn work(
        &mut self,
        alloc: Global,
        tag: u8,
        issue: u64,
        out: &mut Vec<u8>,
    ) -> Result<(), OutOfMemory>
        ensures ok { OnOk result ((text : List ℕ) × (out.new.items ≡ out.old.items ++ text)
            × Looks self.old (line.Work tag issue) text self.new) }
        ensures err { OnErr result ((self.new ≡ self.old) ⊎ ((text : List ℕ) × Looks self.old (line.Work tag issue) text self.new)) }
    {
        let step = self.step_of_work(alloc, tag, issue)?;
        self.step(alloc, step, out)
    }

    // The step that the device asks for, once it has done the work of this request.
    fn step_of_work(&mut self, alloc: Global, tag: u8, issue: u64) -> Result<Step, OutOfMemory>
        ensures keeper { self.new.keeper ≡ self.old.keeper }
        ensures payload { self.new.payload ≡ self.old.payload }
        ensures ok { IfOk result (λ step.
            StepOfWork self.old.disk tag issue (work_in_flight (machine_of self.old.keeper) tag issue) step self.new.disk) }
        ensures err { OnErr result (self.new ≡ self.old) }
    {
        let Some(work) = self.keeper.work(tag, issue) else {
            return Ok(Step::Finish {
                tag,
                issue,
                outcome: Outcome::Stored,
            });
        };
        // No script has so many lines that the count of failed reads comes to its end.
        if self.image.faults() == u64::MAX {
            return Err(OutOfMemory);
        }
        match work_once(alloc, &mut self.image, &work)?.into_step() {
            Some(step) => Ok(step),
            // Who has done some work asks for no other.
            None => unreachable!(),
        }
    }
}
