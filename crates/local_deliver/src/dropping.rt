// A drop into a maildir within a local delivery.
ghost use Rattle.std.specs.Prelude.{◌≡◌, IfOk, is_some};
ghost use Rattle.call_fs.specs.Program.{came_of, due_of, IsKind};
ghost use Rattle.local_deliver.specs.Drops.{Drop, begun_drop, drop_arguments, due_drop, end_drop, is_linked, moved_drop};
ghost use Rattle.local_deliver.specs.DropInside.{told_end};

use call_fs::{Got, Need};
use dot_qmail::path_in;
use local_parts::{Blocks, LocalArgs, maildir_blocks};
use mail_bytes::Memory;
use maildir_drop::{End, MaildirDrop};
use std::alloc::Global;
use std::marker::Model;

/// A drop at work; contracts see its names and where it stands.
#[derive(Drop)]
pub struct Dropping {
    machine: MaildirDrop,
}

impl Model for Dropping {
    ghost use Rattle.local_deliver.specs.Drops.{Drop};

    ghost Value = { Drop };

    ghost use Rattle.local_deliver.specs.DropInside.{drop_inside};

    ghost view = { drop_inside };
}

impl Dropping {
    /// The drop of the message into the maildir of this path, made at this moment. The error: out of memory.
    pub fn new(
        alloc: Global,
        args: &LocalArgs,
        now: u64,
        path: &[u8],
        host: &[u8],
        message: &Blocks,
    ) -> Result<Dropping, Memory>
        ensures { IfOk result (λ drop. drop ≡ begun_drop (drop_arguments args.now now path.now host.now message.now)) }
    {
        let dir = path_in(alloc, args.home.as_slice(), path)?;
        let blocks = maildir_blocks(alloc, args, message)?;
        let machine = MaildirDrop::new(alloc, dir.as_slice(), now, args.pid, host, blocks)?;
        Ok(Dropping { machine })
    }

    /// What it does next.
    pub fn need(&self) -> Need<'_>
        ensures { due_of result ≡ due_drop self.now }
    {
        self.machine.need()
    }

    /// Whether its link was made, and only the unlink is left.
    pub fn is_linked(&self) -> bool
        ensures { result ≡ is_linked self.now }
    {
        self.machine.is_linked()
    }

    /// How it ended; `None` while it goes on.
    pub fn end(&self) -> Option<End<'_>>
        ensures { told_end result ≡ end_drop self.now }
    {
        self.machine.end()
    }

    /// Whether it has ended.
    pub fn is_over(&self) -> bool
        ensures { result ≡ is_some (end_drop self.now) }
    {
        self.end().is_some()
    }

    /// Hands in what came of its need. Takes no memory. The condition: this is of the kind of its need.
    pub fn done(&mut self, got: Got<'_>)
        requires { IsKind (due_drop self.old) (came_of got) }
        ensures { self.new ≡ moved_drop (came_of got.entry) self.old }
    {
        let _ = self.machine.done(got);
    }
}
