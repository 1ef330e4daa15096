// The jobs of a channel.
ghost use Rattle.std.specs.Prelude.{◌≡◌, ◌≤◌, [], OnOk, OnErr, vec_len, vec_capacity};
ghost use Rattle.send_jobs.specs.Jobs.{job_of, put, unmark, unmarked_if, without};

use mail_bytes::Memory;
use std::alloc::Global;
use std::marker::Model;

/// A pass over a channel file, from its begin until each of its places was settled.
#[derive(Clone, Copy)]
pub struct Job {
    /// The number of the message.
    pub n: u64,
    /// The moment at which the pass was begun.
    pub begun: u64,
    /// Whether a place of it stays `T`.
    pub unmarked: bool,
}

/// The jobs of a channel, at most one a message; contracts see their list.
#[derive(Drop)]
pub struct Jobs {
    jobs: Vec<Job>,
}

impl Model for Jobs {
    ghost use Rattle.std.specs.Prelude.{List};
    ghost use Rattle.send_jobs.specs.declared.jobs.Job.{Job};

    ghost Value = { List Job };

    ghost view = { λ j. j.jobs.items };
}

impl Jobs {
    /// None. Takes no memory.
    pub fn new(alloc: Global) -> Self
        ensures { result ≡ [] }
    {
        Jobs {
            jobs: Vec::new(alloc),
        }
    }

    /// The job on this message.
    pub fn of(&self, n: u64) -> Option<Job>
        ensures { result ≡ job_of n self.now }
    {
        self.jobs.iter().find(|job| job.n == n).copied()
    }

    /// A job in place of the one on its message. After an `Err` all is as before.
    pub fn put(&mut self, job: Job) -> Result<(), Memory>
        ensures ok { OnOk result (self.new ≡ put job self.old) }
        ensures err { OnErr result (self.new ≡ self.old) }
    {
        // With this room the push can't fail.
        self.jobs.reserve(1)?;
        remove(&mut self.jobs, job.n);
        self.jobs.push(job)?;
        Ok(())
    }

    /// A place of the job on this message stays `T`.
    pub fn unmark(&mut self, n: u64)
        ensures { self.new ≡ unmark n self.old }
    {
        unmark(&mut self.jobs, n);
    }

    /// There is no job on this message any more.
    pub fn end(&mut self, n: u64)
        ensures { self.new ≡ without n self.old }
    {
        remove(&mut self.jobs, n);
    }
}

/// Removes the jobs on this message.
fn remove(jobs: &mut Vec<Job>, n: u64)
    ensures items { jobs.new.items ≡ without n jobs.old.items }
    ensures len { vec_len jobs.new ≤ vec_len jobs.old }
    ensures capacity { vec_capacity jobs.new ≡ vec_capacity jobs.old }
{
    jobs.retain(|job| job.n != n);
}

/// A place of the jobs on this message stays `T`.
fn unmark(jobs: &mut [Job], n: u64)
    ensures { jobs.new ≡ unmark n jobs.old }
{
    for job in jobs.iter_mut() {
        *job = unmarked_if(*job, n);
    }
}

/// The job, of which a place stays `T` if it's on this message.
fn unmarked_if(job: Job, n: u64) -> Job
    ensures { result ≡ unmarked_if n job }
{
    let unmarked = job.unmarked || job.n == n;
    Job { unmarked, ..job }
}
