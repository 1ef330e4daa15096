// What came of an event, as a machine is handed it.
ghost use Rattle.std.specs.Prelude.{◌≡◌};
ghost use Rattle.call_fs.specs.Program.{came_of};

use call_fs::{Got, GotData};

/// What came, as a machine is handed it.
pub fn got_of(came: &GotData) -> Got<'_>
    ensures { came_of result ≡ came.now }
{
    match came {
        GotData::Answered(told) => Got::File(told.answer.copy(), told.bytes.as_slice()),
        GotData::Took(bytes) => Got::Took(bytes.as_slice()),
        GotData::End => Got::End,
        GotData::Ended(status) => Got::Ended(*status),
        GotData::Crashed => Got::Crashed,
        GotData::Gave => Got::Gave,
        GotData::Started { pid } => Got::Started { pid: *pid },
        GotData::Failed => Got::Failed,
        GotData::Memory => Got::Memory,
    }
}
