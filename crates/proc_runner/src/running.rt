// A child that runs.
ghost use Rattle.std.specs.Prelude.{◌≡◌, IfOk, true};
ghost use Rattle.std.specs.Arc.{arc_value};
ghost use Rattle.child_input.specs.Feedings.{after_end, after_feeding, feeding_of};
ghost use Rattle.proc_runner.specs.Ends.{IsTold};
ghost use Rattle.proc_runner.specs.Running.{IsStatus};

use crate::desk::{Desk, ToWrite, Work};
use crate::line::Line;
use crate::system::{Exit, Process, System};
use child_input::{Feeder, Writer};
use mail_bytes::Memory;
use outside::Status;
use std::alloc::Global;
use std::sync::{Arc, Wait};

/// A child that was started and whose status wasn't asked for. Its input, with what is to write there, is here until it has a
/// writer.
#[derive(Drop)]
pub(crate) struct Running<S: System> {
    pub(crate) chan: u32,
    pub(crate) process: Arc<S::Process, Global>,
    pub(crate) line: Arc<Line, Global>,
    pub(crate) feeder: Feeder,
    pub(crate) input: Option<(Writer, S::Input)>,
}

/// What a writer and a watcher share: the line twice, and the process twice.
type ToShare<P> = (
    Arc<Line, Global>,
    Arc<Line, Global>,
    Arc<P, Global>,
    Arc<P, Global>,
);

impl<S: System> Running<S> {
    /// What its writer is to share, and room on the desk.
    fn shared<R: Wait>(
        &self,
        rt: &R,
        desk: &Desk<S::Process, S::Input, S::Output>,
    ) -> Result<ToShare<S::Process>, Memory>
        ensures lines { IfOk result (λ shared. (arc_value shared.0 ≡ arc_value self.now.line) × (arc_value shared.1 ≡ arc_value self.now.line)) }
        ensures processes { IfOk result (λ shared. (arc_value shared.2 ≡ arc_value self.now.process) × (arc_value shared.3 ≡ arc_value self.now.process)) }
    {
        desk.reserve(rt)?;
        let line = Arc::try_clone(&self.line)?;
        let also = Arc::try_clone(&self.line)?;
        let process = Arc::try_clone(&self.process)?;
        let kept = Arc::try_clone(&self.process)?;
        Ok((line, also, process, kept))
    }

    /// Sees to it that it has a writer. If that can't be done the child is to be ended before its input is closed.
    fn start_writer<R: Wait>(
        &mut self,
        rt: &R,
        desk: &Desk<S::Process, S::Input, S::Output>,
    ) -> bool
        ensures same { (self.new.chan ≡ self.old.chan) × (self.new.process ≡ self.old.process) }
        ensures fed { self.new.feeder ≡ self.old.feeder }
    {
        if self.input.is_none() {
            return true;
        }
        let Ok((line, also, process, kept)) = self.shared(rt, desk) else {
            return false;
        };
        let Some((writer, input)) = self.input.take() else {
            return true;
        };
        let work = ToWrite {
            line,
            also,
            process,
            kept,
            writer,
            input,
        };
        desk.put(rt, Work::Write(work)).is_ok()
    }

    /// Feeds it a copy of these bytes. Answers whether all of them were taken; if not the child is ended, since what it was fed
    /// isn't whole, and nothing more is taken.
    pub(crate) fn give<R: Wait>(
        &mut self,
        rt: &R,
        alloc: Global,
        desk: &Desk<S::Process, S::Input, S::Output>,
        bytes: &[u8],
    ) -> bool
        ensures same { (self.new.chan ≡ self.old.chan) × (self.new.process ≡ self.old.process) }
        ensures fed { feeding_of self.new.feeder.pass.me.view.client self.new.feeder.is_open
            ≡ after_feeding result bytes.now (feeding_of self.old.feeder.pass.me.view.client self.old.feeder.is_open) }
        ensures open { result ≡ true → self.old.feeder.is_open ≡ true }
    {
        if self.start_writer(rt, desk) && self.feeder.feed_copy(rt, alloc, bytes) {
            return true;
        }
        self.end();
        false
    }

    /// Ends its input, once all is written that it was fed. If that can't be done the child is ended.
    pub(crate) fn finish<R: Wait>(&mut self, rt: &R, desk: &Desk<S::Process, S::Input, S::Output>)
        ensures same { (self.new.chan ≡ self.old.chan) × (self.new.process ≡ self.old.process) }
        ensures fed { feeding_of self.new.feeder.pass.me.view.client self.new.feeder.is_open
            ≡ after_end (feeding_of self.old.feeder.pass.me.view.client self.old.feeder.is_open) }
    {
        let is_ended = self.start_writer(rt, desk) && self.feeder.end(rt);
        if !is_ended {
            self.end();
        }
        self.line.end_input();
    }

    /// Ends the child, and lets go of its input: nothing more is fed.
    fn end(&mut self)
        ensures same { (self.new.chan ≡ self.old.chan) × (self.new.process ≡ self.old.process) }
        ensures fed { feeding_of self.new.feeder.pass.me.view.client self.new.feeder.is_open
            ≡ after_end (feeding_of self.old.feeder.pass.me.view.client self.old.feeder.is_open) }
    {
        self.process.kill();
        self.feeder.give_up();
        self.input = None;
    }

    /// How it ended. It waits for its reader, and not for its writer: one that is stuck, since something else holds the input
    /// open, is left behind.
    pub(crate) fn status<R: Wait>(self, rt: &R) -> Status
        ensures { IsStatus (IsTold (S.Process.ends (arc_value self.process)) (S.Process.fate (arc_value self.process))) result }
    {
        let mut child = self;
        child.feeder.end(rt);
        child.line.await_end(rt);
        match child.process.ask() {
            Ok(Some(Exit::Code(code))) => Status::Ended(code),
            Ok(Some(Exit::Signal)) => Status::Crashed,
            _ => Status::Failed,
        }
    }
}
