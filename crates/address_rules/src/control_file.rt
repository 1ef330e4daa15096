// The twelve control files.
ghost use Rattle.std.specs.Prelude.{◌≡◌, ◌<◌, IsTrue};
ghost use Rattle.address_rules.specs.Files.{name, place, kind, line_limit, is_number_file};

/// A file in `control/` (qmail-control(5)), in the order in which they are read.
#[derive(Clone, Copy, Debug, PartialEq, Eq)]
pub enum ControlFile {
    /// `me`: the name of this host; without the file `localhost`.
    Me,
    /// `locals`: the domains that are here, one a line; without the file `me`.
    Locals,
    /// `percenthack`: the domains at which `user%host` is `user@host`, one a line; without the file none.
    PercentHack,
    /// `virtualdomains`: `DOMAIN:PREFIX` a line; without the file none.
    VirtualDomains,
    /// `envnoathost`: the domain of addresses without `@`; without the file `me`.
    EnvNoAtHost,
    /// `bouncefrom`: the user name of bounces; without the file `MAILER-DAEMON`.
    BounceFrom,
    /// `bouncehost`: the host of bounces; without the file `me`.
    BounceHost,
    /// `doublebounceto`: who gets double bounces; without the file `postmaster`.
    DoubleBounceTo,
    /// `doublebouncehost`: the host that gets them; without the file `me`.
    DoubleBounceHost,
    /// `concurrencylocal`: how many local deliveries run at once; without the file 10.
    ConcurrencyLocal,
    /// `concurrencyremote`: how many remote ones; without the file 20.
    ConcurrencyRemote,
    /// `queuelifetime`: how many seconds a message may stay; without the file 604800.
    QueueLifetime,
}

impl ControlFile {
    /// All of them, in the order in which they are read.
    pub const ALL: [ControlFile; 12] = [
        ControlFile::Me,
        ControlFile::Locals,
        ControlFile::PercentHack,
        ControlFile::VirtualDomains,
        ControlFile::EnvNoAtHost,
        ControlFile::BounceFrom,
        ControlFile::BounceHost,
        ControlFile::DoubleBounceTo,
        ControlFile::DoubleBounceHost,
        ControlFile::ConcurrencyLocal,
        ControlFile::ConcurrencyRemote,
        ControlFile::QueueLifetime,
    ];

    /// Its name in `control/`.
    pub fn name(self) -> &'static str
        ensures { result.now ≡ name self }
    {
        match self {
            ControlFile::Me => "me",
            ControlFile::Locals => "locals",
            ControlFile::PercentHack => "percenthack",
            ControlFile::VirtualDomains => "virtualdomains",
            ControlFile::EnvNoAtHost => "envnoathost",
            ControlFile::BounceFrom => "bouncefrom",
            ControlFile::BounceHost => "bouncehost",
            ControlFile::DoubleBounceTo => "doublebounceto",
            ControlFile::DoubleBounceHost => "doublebouncehost",
            ControlFile::ConcurrencyLocal => "concurrencylocal",
            ControlFile::ConcurrencyRemote => "concurrencyremote",
            ControlFile::QueueLifetime => "queuelifetime",
        }
    }

    /// Its place in that order, from 0.
    pub fn place(self) -> usize
        ensures place { result ≡ place self }
        ensures below { result < 12 }
    {
        match self {
            ControlFile::Me => 0,
            ControlFile::Locals => 1,
            ControlFile::PercentHack => 2,
            ControlFile::VirtualDomains => 3,
            ControlFile::EnvNoAtHost => 4,
            ControlFile::BounceFrom => 5,
            ControlFile::BounceHost => 6,
            ControlFile::DoubleBounceTo => 7,
            ControlFile::DoubleBounceHost => 8,
            ControlFile::ConcurrencyLocal => 9,
            ControlFile::ConcurrencyRemote => 10,
            ControlFile::QueueLifetime => 11,
        }
    }

    /// How many bytes a line of it may have: 1000 in a file with a list, 400 in one with a value.
    pub(crate) fn line_limit(self) -> usize
        ensures { result ≡ line_limit (kind self) }
    {
        match self {
            ControlFile::Locals | ControlFile::PercentHack | ControlFile::VirtualDomains => 1000,
            _ => 400,
        }
    }

    /// Whether its value is a number.
    pub(crate) fn is_number(self) -> bool
        ensures { result ≡ is_number_file (kind self) }
    {
        match self {
            ControlFile::ConcurrencyLocal
            | ControlFile::ConcurrencyRemote
            | ControlFile::QueueLifetime => true,
            _ => false,
        }
    }
}
