// What the refusals and the moments of the system mean.
ghost use Rattle.std.specs.Prelude.{◌≡◌, OnErr, IsErrOf};
ghost use Rattle.call_fs.specs.declared.calls.FsError.TheVariants as FsError;
ghost use Rattle.host_fs.specs.Refusals.{missing_or_fault, refused, or_fault, without_memory, moment_of};

use call_fs::FsError;
use mail_bytes::LAST_MOMENT;
use std::io::{self, ErrorKind};

/// Why a call was refused that needs a name, or a directory, that is there.
pub fn missing_or_fault(kind: ErrorKind) -> FsError
    ensures { result ≡ missing_or_fault kind }
{
    match kind {
        ErrorKind::NotFound | ErrorKind::NotADirectory => FsError::NotThere,
        _ => FsError::Fault,
    }
}

/// Why a call was refused that makes a name. The flag says whether what stands there is a directory, which is no name.
pub fn refused(kind: ErrorKind, is_dir: bool) -> FsError
    ensures { result ≡ refused kind is_dir }
{
    match kind {
        ErrorKind::AlreadyExists if !is_dir => FsError::Exists,
        _ => missing_or_fault(kind),
    }
}

/// The outcome of a call of the system whose every failure is a fault.
pub fn or_fault<T>(outcome: io::Result<T>) -> Result<T, FsError>
    ensures value { result ≡ or_fault outcome }
    ensures fault { OnErr result (IsErrOf result FsError.Fault) }
{
    match outcome {
        Ok(value) => Ok(value),
        Err(_) => Err(FsError::Fault),
    }
}

/// Why a call was refused that has no answer for being out of memory, which counts as a fault there.
pub fn without_memory(why: FsError) -> FsError
    ensures { result ≡ without_memory why }
{
    match why {
        FsError::Memory => FsError::Fault,
        _ => why,
    }
}

/// The moment of so many seconds since 1 January 1970 UTC: the nearest one that a clock may tell.
pub fn moment_of(seconds: i64) -> u64
    ensures { result ≡ moment_of seconds }
{
    match u64::try_from(seconds) {
        Ok(seconds) => seconds.min(LAST_MOMENT),
        Err(_) => 0,
    }
}
