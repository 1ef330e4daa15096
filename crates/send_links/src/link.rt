// The link to a spawner.

use crate::Requests;
use spawn_protocol::ReportReader;
use std::alloc::Global;

/// What the sender keeps of the link to a spawner.
#[derive(Drop)]
pub struct Link {
    /// What has come of a report that hasn't ended.
    pub reader: ReportReader,
    /// The requests that the open pass has still to give.
    pub requests: Requests,
}

impl Link {
    ghost use Rattle.std.specs.Prelude.{◌≡◌};
    ghost use Rattle.send_links.specs.Requests.{quiet};

    /// Nothing has come, and there is nothing to give. Takes no memory.
    pub fn new(alloc: Global) -> Self
        ensures { result ≡ quiet }
    {
        Link {
            reader: ReportReader::new(alloc),
            requests: Requests::new(alloc),
        }
    }
}
