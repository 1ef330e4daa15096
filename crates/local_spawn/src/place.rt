// What a local spawner keeps.

use crate::assign::Assign;
use crate::delivery::Delivery;
use crate::row::Row;
use mail_bytes::ByteText;
use spawner_parts::Place as Work;

/// What a local spawner keeps: where it stands, and what its steps need.
#[derive(Drop)]
pub struct Place {
    /// Where it stands.
    pub row: Row,
    /// What was read of users/assign so far.
    pub text: ByteText,
    /// The lines of users/assign; none if it couldn't be read, or wasn't yet.
    pub users: Option<Assign>,
    /// The delivery that is to be started, or was last.
    pub delivery: Delivery,
    /// What it keeps to serve requests.
    pub work: Work,
}
