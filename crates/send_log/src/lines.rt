// The lines of the log.
ghost use Rattle.std.specs.Prelude.{◌≡◌, ◌≤◌, length};
ghost use Rattle.send_log.specs.Lines.{address_of, channel_of, line_room, outcome_of, shown_in, word_of};

/// How many bytes a line has at most, without the address or the report that it shows.
pub const LINE_ROOM: usize = 120;

/// What came of a delivery, as the log tells it.
#[derive(Clone, Copy)]
pub enum Outcome {
    /// The message was delivered.
    Success,
    /// It won't be tried again.
    Failure,
    /// It will be tried again.
    Deferral,
}

impl Outcome {
    /// What comes of a report, by its letter: of `K` a success, of `D` a failure, and of any other letter a deferral, or a failure
    /// if the pass was a dying one, whose message is too old to be tried again.
    pub fn of_report(letter: u8, dying: bool) -> Self
        ensures { result ≡ outcome_of letter dying }
    {
        match letter {
            b'K' => Outcome::Success,
            b'D' => Outcome::Failure,
            _ if dying => Outcome::Failure,
            _ => Outcome::Deferral,
        }
    }

    /// Its word in the log.
    pub(crate) fn word(self) -> &'static [u8]
        ensures word { result.now ≡ word_of self }
        ensures short { length result.now ≤ 8 }
    {
        match self {
            Outcome::Success => b"success",
            Outcome::Failure => b"failure",
            Outcome::Deferral => b"deferral",
        }
    }
}

/// Where a delivery goes: a recipient, as its channel file has it.
#[derive(Clone, Copy)]
pub enum Target<'a> {
    /// By qmail-lspawn(8).
    Local(&'a [u8]),
    /// By qmail-rspawn(8).
    Remote(&'a [u8]),
}

impl Target<'_> {
    /// The word of its channel.
    pub(crate) fn channel(&self) -> &'static [u8]
        ensures word { result.now ≡ channel_of self.now }
        ensures short { length result.now ≤ 6 }
    {
        match self {
            Target::Local(_) => b"local",
            Target::Remote(_) => b"remote",
        }
    }

    /// The address.
    pub(crate) fn address(&self) -> &[u8]
        ensures { result.now ≡ address_of self.now }
    {
        match self {
            Target::Local(address) | Target::Remote(address) => address,
        }
    }
}

/// How many deliveries of a channel are in flight, and how many may be.
#[derive(Clone, Copy)]
pub struct Load {
    /// How many are in flight.
    pub busy: u8,
    /// How many may be, at most 120.
    pub limit: u8,
}

/// A line of the sender's log, which borrows the addresses and reports that it shows. In these a newline is shown as `/`, and
/// each other byte below 33 or above 126, and `%`, as `_`.
#[derive(Clone, Copy)]
pub enum Line<'a> {
    /// `new msg N`: a message was preprocessed.
    NewMessage {
        /// Its number.
        message: u64,
    },
    /// `info msg N: bytes B from <S> qp P uid U`: what it is.
    MessageInfo {
        /// Its number.
        message: u64,
        /// How many bytes its message file has.
        bytes: u64,
        /// The sender of its envelope.
        sender: &'a [u8],
        /// The process that queued it.
        pid: u32,
        /// The user who queued it.
        uid: u32,
    },
    /// `starting delivery D: msg N to local R`, or `to remote R`: an attempt was asked for.
    Starting {
        /// The delivery's number, from 1.
        delivery: u64,
        /// The message's number.
        message: u64,
        /// Where it goes.
        target: Target<'a>,
    },
    /// `status: local A/L remote B/M`: what is in flight, after a delivery began or ended.
    Status {
        /// By qmail-lspawn(8).
        local: Load,
        /// By qmail-rspawn(8).
        remote: Load,
    },
    /// `delivery D: success: T`, or `failure`, or `deferral`: a delivery ended.
    Delivered {
        /// The delivery's number.
        delivery: u64,
        /// What came of it.
        outcome: Outcome,
        /// The text of its report, as it was taken.
        report: &'a [u8],
    },
    /// `bounce msg N qp P`: a bounce was queued.
    Bounced {
        /// The number of the message that it returns.
        message: u64,
        /// The process that queued it.
        pid: u32,
    },
    /// `triple bounce: discarding bounce/N`: a double bounce couldn't be delivered, and is dropped.
    TripleBounce {
        /// Its number.
        message: u64,
    },
    /// `end msg N`: nothing is left of a message.
    EndMessage {
        /// Its number.
        message: u64,
    },
    /// `alert: report D`: a report came of a slot in which nothing was in flight.
    StrayReport {
        /// The slot.
        slot: u8,
    },
    /// `alert: skip N`: at its start the sender couldn't read the envelope of a message.
    Skipped {
        /// The message's number.
        message: u64,
    },
    /// `alert: left N`: a message couldn't be preprocessed, and is left in `todo/`.
    Left {
        /// The message's number.
        message: u64,
    },
}

impl Line<'_> {
    /// How much room its text takes at most: `LINE_ROOM`, and the length of the address or the report that it shows.
    pub fn room(&self) -> usize
        ensures { result ≡ line_room self.now }
    {
        LINE_ROOM + self.shown().len()
    }

    /// The address or the report that it shows.
    fn shown(&self) -> &[u8]
        ensures { result.now ≡ shown_in self.now }
    {
        match self {
            Line::MessageInfo { sender, .. } => sender,
            Line::Starting { target, .. } => target.address(),
            Line::Delivered { report, .. } => report,
            _ => b"",
        }
    }
}
