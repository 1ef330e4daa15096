// The control files, read.
ghost use Rattle.std.specs.Prelude.{◌≡◌, ◌∷◌, [], IfOk, IfErr, IsSome, None, codes};
ghost use Rattle.address_rules.specs.Files.{content, controls_of, fault_line, fault_of, first_fault, kind, list_in, number_in, text_in, virtual_domains_in, IsCause};

use crate::control_file::ControlFile;
use crate::lines::{first_bad_line, listed, short_number, value_of, virtual_domains};
use crate::text_list::TextList;
use crate::virtual_domains::VirtualDomains;
use mail_bytes::{ByteText, Memory};
use std::alloc::{AllocError, Global};
use thiserror::Error;

/// What the control files say (qmail-control(5)).
#[derive(Drop)]
pub struct Controls {
    /// The name of this host.
    pub me: ByteText,
    /// The domains that are here.
    pub locals: TextList,
    /// The domains at which `user%host` is `user@host`.
    pub percent_hack: TextList,
    /// The lines of virtualdomains.
    pub virtual_domains: VirtualDomains,
    /// The domain of addresses without `@`.
    pub env_no_at_host: ByteText,
    /// The user name of bounces.
    pub bounce_from: ByteText,
    /// The host of bounces.
    pub bounce_host: ByteText,
    /// Who gets double bounces.
    pub double_bounce_to: ByteText,
    /// The host that gets them.
    pub double_bounce_host: ByteText,
    /// How many local deliveries may run at once, at most 999,999,999.
    pub concurrency_local: u32,
    /// How many remote deliveries may run at once, at most 999,999,999.
    pub concurrency_remote: u32,
    /// How many seconds a message may stay in the queue, at most 999,999,999.
    pub queue_lifetime: u32,
}

/// Why control files can't be read.
#[derive(Debug, Drop, Error)]
pub enum ControlError {
    /// The first file, in their order, with a fault.
    #[error("control/{}: line {line}", .file.name())]
    BadControl {
        /// The file.
        file: ControlFile,
        /// Its first line with a fault, from 1; 0 if the file has over 1,048,576 bytes.
        line: usize,
    },
    /// Out of memory.
    #[error("out of memory")]
    Memory,
}

impl From<AllocError> for ControlError {
    ghost use Rattle.std.specs.Prelude.{◌≡◌};
    ghost use Rattle.address_rules.specs.declared.controls.ControlError.TheVariants.{Memory};

    ghost from_gives = { λ _ why. why ≡ Memory };

    fn from(_: AllocError) -> Self {
        ControlError::Memory
    }
}

impl Controls {
    /// Reads the twelve files in the order of `ControlFile`, `None` if one is missing. Spaces and tabs at the end of
    /// a line are dropped; in a list empty lines and lines that begin with `#` are passed over, and in virtualdomains
    /// lines without `:`. Any other file has its value in its first line.
    ///
    /// `BadControl` exactly if a file has over 1,048,576 bytes, a line has over 1000 bytes in a file with a list or
    /// over 400 in another one, a line has a NUL, or a number isn't 1 to 9 digits. It names the first file with a fault,
    /// and the least line of it that has one: 0 for the length of the file, 1 for a number.
    pub fn read(alloc: Global, files: &[Option<ByteText>; 12]) -> Result<Controls, ControlError>
        ensures good { IfOk result (λ controls. first_fault files.now ≡ None) }
        ensures says { IfOk result (λ controls. controls ≡ controls_of files.now) }
        ensures err { IfErr result (IsCause files.now) }
    {
        if let Some((file, line)) = first_fault(files) {
            return Err(ControlError::BadControl { file, line });
        }
        Ok(controls_of(alloc, files)?)
    }
}

/// What a file holds.
fn content(files: &[Option<ByteText>; 12], file: ControlFile) -> &Option<ByteText>
    ensures { result.now ≡ content files.now file }
{
    &files[file.place()]
}

/// The first file with a fault, and its first line with one.
fn first_fault(files: &[Option<ByteText>; 12]) -> Option<(ControlFile, usize)>
    ensures { result ≡ first_fault files.now }
{
    for file in ControlFile::ALL {
        if let Some(line) = fault_of(files, file) {
            return Some((file, line));
        }
    }
    None
}

/// The first line with a fault of a file that is there.
fn fault_of(files: &[Option<ByteText>; 12], file: ControlFile) -> Option<usize>
    ensures { result ≡ fault_of files.now file }
{
    match content(files, file) {
        Some(bytes) => fault_line(file, bytes.as_slice()),
        None => None,
    }
}

/// The first line of a file with a fault, from 1; 0 if the file is too long.
fn fault_line(file: ControlFile, bytes: &[u8]) -> Option<usize>
    ensures { result ≡ fault_line (kind file) bytes.now }
{
    if bytes.len() > 1_048_576 {
        return Some(0);
    }
    if file.is_number() && short_number(value_of(bytes)).is_none() {
        return Some(1);
    }
    first_bad_line(bytes, file.line_limit())
}

/// What the files say, whatever is wrong with them.
fn controls_of(alloc: Global, files: &[Option<ByteText>; 12]) -> Result<Controls, Memory>
    ensures { IfOk result (λ controls. controls ≡ controls_of files.now) }
{
    let me = text_in(alloc, files, ControlFile::Me, b"localhost")?;
    let locals = locals_in(alloc, files, me.as_slice())?;
    let percent_hack = percent_hack_in(alloc, files)?;
    let virtual_domains = virtual_domains_in(alloc, files)?;
    let env_no_at_host = text_in(alloc, files, ControlFile::EnvNoAtHost, me.as_slice())?;
    let bounce_from = text_in(alloc, files, ControlFile::BounceFrom, b"MAILER-DAEMON")?;
    let bounce_host = text_in(alloc, files, ControlFile::BounceHost, me.as_slice())?;
    let double_bounce_to = text_in(alloc, files, ControlFile::DoubleBounceTo, b"postmaster")?;
    let double_bounce_host = text_in(alloc, files, ControlFile::DoubleBounceHost, me.as_slice())?;
    Ok(Controls {
        me,
        locals,
        percent_hack,
        virtual_domains,
        env_no_at_host,
        bounce_from,
        bounce_host,
        double_bounce_to,
        double_bounce_host,
        concurrency_local: number_in(files, ControlFile::ConcurrencyLocal, 10),
        concurrency_remote: number_in(files, ControlFile::ConcurrencyRemote, 20),
        queue_lifetime: number_in(files, ControlFile::QueueLifetime, 604_800),
    })
}

/// The value of a file, or the default.
fn text_in(
    alloc: Global,
    files: &[Option<ByteText>; 12],
    file: ControlFile,
    default: &[u8],
) -> Result<ByteText, Memory>
    ensures { IfOk result (λ text. text ≡ text_in (content files.now file) default.now) }
{
    match content(files, file) {
        Some(bytes) => ByteText::from_slice(alloc, value_of(bytes.as_slice())),
        None => ByteText::from_slice(alloc, default),
    }
}

/// The domains that are here: what the file lists, or this host alone.
fn locals_in(alloc: Global, files: &[Option<ByteText>; 12], me: &[u8]) -> Result<TextList, Memory>
    ensures { IfOk result (λ list. list ≡ list_in (content files.now ControlFile.Locals) (me.now ∷ [])) }
{
    match content(files, ControlFile::Locals) {
        Some(bytes) => listed(alloc, bytes.as_slice()),
        None => {
            let mut texts = Vec::new(alloc);
            texts.push(ByteText::from_slice(alloc, me)?)?;
            Ok(TextList::from_vec(texts))
        }
    }
}

/// What the file lists, or nothing.
fn percent_hack_in(alloc: Global, files: &[Option<ByteText>; 12]) -> Result<TextList, Memory>
    ensures { IfOk result (λ list. list ≡ list_in (content files.now ControlFile.PercentHack) []) }
{
    match content(files, ControlFile::PercentHack) {
        Some(bytes) => listed(alloc, bytes.as_slice()),
        None => Ok(TextList::from_vec(Vec::new(alloc))),
    }
}

/// The lines of virtualdomains, or none.
fn virtual_domains_in(
    alloc: Global,
    files: &[Option<ByteText>; 12],
) -> Result<VirtualDomains, Memory>
    ensures { IfOk result (λ list. list ≡ virtual_domains_in (content files.now ControlFile.VirtualDomains)) }
{
    match content(files, ControlFile::VirtualDomains) {
        Some(bytes) => virtual_domains(alloc, bytes.as_slice()),
        None => Ok(VirtualDomains::from_vec(Vec::new(alloc))),
    }
}

/// The number of a file, or the default.
fn number_in(files: &[Option<ByteText>; 12], file: ControlFile, default: u32) -> u32
    ensures { result ≡ number_in (content files.now file) default }
{
    match content(files, file) {
        Some(bytes) => short_number(value_of(bytes.as_slice())).unwrap_or(default),
        None => default,
    }
}
