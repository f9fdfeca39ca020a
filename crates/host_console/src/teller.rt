// A keeper over an image and a payload, run from a script.
ghost use Rattle.std.specs.Prelude.{◌≡◌, ℕ, List, ◌++◌, None, IfOk, OnOk, OnErr, IsFalse, ◌⊎◌};
ghost use Rattle.script_line.specs.Script.{IsStrange, MayHaveRun};
ghost use Rattle.host_console.specs.Payload.{runs_over, size_of};
ghost use Rattle.host_console.specs.Printed.{AnswersOver, Looks, Prints, asked, outcome_of, sectors_in_flight};

use crate::Keeps;
use crate::asked::call_of;
use crate::filled::sectors_of;
use crate::source::runs_over;
use crate::telling::tell;
use base_image::Image;
use bytes::Bytes;
use host_calls::put_answer;
use plain::{Call, Step};
use script_line::{Console, Ending, Line};
use sector_core::{FailKind, OutOfMemory, Outcome};
use std::alloc::Global;
use std::marker::Model;

/// Runs the lines of a script at a keeper over an image and a payload.
#[derive(Drop)]
pub struct Teller<K: Keeps, I: Image> {
    /// The keeper.
    pub keeper: K,
    /// The image that the device reads at a `work` line.
    pub image: I,
    /// The bytes that a `write` line may take, where there are any.
    pub payload: Option<Bytes>,
}

impl<K: Keeps, I: Image> Model for Teller<K, I> {
    ghost use Rattle.host_console.specs.Printed.{Desk};

    ghost Value = { Desk };

    ghost view = { λ teller. record { keeper = K.state teller.keeper; disk = I.disk teller.image; payload = teller.payload } };
}

impl<K: Keeps, I: Image> Console for Teller<K, I> {
    ghost prints = { Prints };

    fn runs(&self, line: &Line) -> bool
        ensures runs { result ≡ runs_over (size_of self.now.payload) line.now }
        ensures strange { IsFalse result → IsStrange Prints self.now line.now }
    {
        runs_over(&self.payload, line)
    }

    fn run(&mut self, alloc: Global, line: Line, out: &mut Vec<u8>) -> Result<(), OutOfMemory> {
        self.run_line(alloc, line, out)
    }
}

impl<K: Keeps, I: Image> Teller<K, I> {
    // Runs a line, by the call that it makes or, if it makes none of its own, by what it looks at.
    fn run_line(&mut self, alloc: Global, line: Line, out: &mut Vec<u8>) -> Result<(), OutOfMemory>
        ensures ok { OnOk result ((text : List ℕ) × (out.new.items ≡ out.old.items ++ text) × Prints self.old line text self.new) }
        ensures err { OnErr result (MayHaveRun Prints self.old line self.new) }
    {
        match call_of(alloc, line, &self.payload)? {
            Some(call) => self.answer(alloc, &call, out),
            None => self.look(alloc, line, out),
        }
    }

    // Runs a line that asks the keeper or the device first, or only looks.
    fn look(&mut self, alloc: Global, line: Line, out: &mut Vec<u8>) -> Result<(), OutOfMemory>
        requires { asked self.old.payload line ≡ None }
        ensures ok { OnOk result ((text : List ℕ) × (out.new.items ≡ out.old.items ++ text) × Looks self.old line text self.new) }
        ensures err { OnErr result (MayHaveRun Looks self.old line self.new) }
    {
        match line {
            Line::Finish { tag, issue, ending } => self.finish(alloc, tag, issue, ending, out),
            Line::Work { tag, issue } => self.work(alloc, tag, issue, out),
            // Such a line is not asked to run if the payload has not its bytes, and else makes its call.
            Line::WriteFrom { .. } => Err(OutOfMemory),
            // Each other line makes its call, or is a query.
            _ => tell(&self.keeper, line, out),
        }
    }

    // Makes one call, and prints its answer; where there is no memory for its text, the call is made.
    fn answer(&mut self, alloc: Global, call: &Call, out: &mut Vec<u8>) -> Result<(), OutOfMemory>
        ensures ok { OnOk result ((text : List ℕ) × (out.new.items ≡ out.old.items ++ text)
            × AnswersOver self.old call.now text self.new) }
        ensures err { OnErr result ((text : List ℕ) × AnswersOver self.old call.now text self.new) }
    {
        let answer = self.keeper.call(alloc, call);
        put_answer(&answer, out).map_err(|_| OutOfMemory)?;
        out.push(b'\n')?;
        Ok(())
    }

    // The call of a step.
    pub(crate) fn step(
        &mut self,
        alloc: Global,
        step: Step,
        out: &mut Vec<u8>,
    ) -> Result<(), OutOfMemory>
        ensures ok { OnOk result ((text : List ℕ) × (out.new.items ≡ out.old.items ++ text)
            × AnswersOver self.old (Call.Do step) text self.new) }
        ensures err { OnErr result ((text : List ℕ) × AnswersOver self.old (Call.Do step) text self.new) }
    {
        self.answer(alloc, &Call::Do(step), out)
    }

    // The call of a `finish` line; where there is no memory for the bytes of the device, no call is made.
    fn finish(
        &mut self,
        alloc: Global,
        tag: u8,
        issue: u64,
        ending: Ending,
        out: &mut Vec<u8>,
    ) -> Result<(), OutOfMemory>
        ensures ok { OnOk result ((text : List ℕ) × (out.new.items ≡ out.old.items ++ text)
            × AnswersOver self.old (Call.Do (Step.Finish tag issue (outcome_of self.old.keeper tag issue ending))) text self.new) }
        ensures err { OnErr result ((self.new ≡ self.old) ⊎ ((text : List ℕ)
            × AnswersOver self.old (Call.Do (Step.Finish tag issue (outcome_of self.old.keeper tag issue ending))) text self.new)) }
    {
        let outcome = self.outcome(alloc, tag, issue, ending)?;
        let step = Step::Finish {
            tag,
            issue,
            outcome,
        };
        self.step(alloc, step, out)
    }

    // What the device says at a `finish` line.
    fn outcome(
        &self,
        alloc: Global,
        tag: u8,
        issue: u64,
        ending: Ending,
    ) -> Result<Outcome, OutOfMemory>
        ensures { IfOk result (λ outcome. outcome ≡ outcome_of self.now.keeper tag issue ending) }
    {
        match ending {
            Ending::Stored => Ok(Outcome::Stored),
            Ending::Fill(byte) => {
                let count = self.sectors_in_flight(tag, issue);
                let bytes = sectors_of(alloc, count, byte)?;
                Ok(Outcome::Fetched(bytes))
            }
            Ending::Short => Ok(Outcome::Failed(FailKind::Short)),
            Ending::Fault => Ok(Outcome::Failed(FailKind::Fault)),
        }
    }

    // How many sectors the request has that is in flight under this tag with this issue; none where there is none.
    fn sectors_in_flight(&self, tag: u8, issue: u64) -> u32
        ensures { result ≡ sectors_in_flight self.now.keeper tag issue }
    {
        match self.keeper.work(tag, issue) {
            Some(work) => work.range.count,
            None => 0,
        }
    }
}
