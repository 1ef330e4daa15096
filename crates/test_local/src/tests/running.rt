// Deliveries over a disk in memory, with commands and an injector that end as they are told.
ghost use Rattle.std.specs.Prelude.{◌≤◌, ℕ, List, [], IfOk};
ghost use Rattle.std.specs.Bool.{OnTrue};
ghost use Rattle.call_fs.specs.declared.past.ChildData.{ChildData};
ghost use Rattle.call_fs.specs.declared.past.NeedData.TheVariants.{Command, Give, Start as Starts, Take};
ghost use Rattle.call_fs.specs.declared.program.Port.{Port as Way};
ghost use Rattle.call_fs.specs.declared.program.Port.TheVariants as port;
ghost use Rattle.call_fs.specs.Program.{MayCome, came_of};
ghost use Rattle.mail_bytes.specs.Moments.{IsMoment};
ghost use Rattle.local_deliver.specs.Stands.{Stands};
ghost use Rattle.local_parts.specs.declared.arguments.LocalArgs.{LocalArgs as Words};
ghost use Rattle.test_local.specs.Deliveries.{IsRunning};

use super::cases::DIRS;
use super::rows::{Case, Exit, bytes_of, is_joined, number_of};
use call_fs::{Answer, CallFs, Child, DeliveryWordsData, Got, Need, PIECE, Port, UNREADY, perform};
use crash_fs::CrashDisk;
use local_deliver::{Local, LocalArgs};
use mail_bytes::{ByteText, LAST_MOMENT, Memory};
use mem_fs::MemFs;
use std::alloc::Global;

/// What a delivery did, and what it meets later.
#[derive(Drop)]
pub struct Around {
    now: u64,
    part: usize,
    taken: usize,
    ran: usize,
    gives: u64,
    outputs: usize,
    feeds: usize,
    started: Vec<(u32, u64)>,
    said: ByteText,
    commands: ByteText,
    given: ByteText,
    status: Option<u8>,
}

impl Around {
    /// Nothing was done.
    pub fn new(alloc: Global, case: &Case<'_>) -> Self {
        Around {
            now: case.number("moment"),
            part: 0,
            taken: 0,
            ran: 0,
            gives: 0,
            outputs: 0,
            feeds: 0,
            started: Vec::new(alloc),
            said: ByteText::new(alloc),
            commands: ByteText::new(alloc),
            given: ByteText::new(alloc),
            status: None,
        }
    }

    /// Whether all is as the case says. What is printed is printed at once, and the injector is fed at once.
    fn is(&self, case: &Case<'_>) -> bool {
        is_ended(self.status, case.number("status"))
            && self.said.is(case.bytes("said"))
            && self.commands.is(case.bytes("commands"))
            && is_started(self.started.as_slice(), case.text("started"))
            && is_joined(self.given.as_slice(), case.text("given"))
            && self.outputs <= 1
            && self.feeds <= 1
    }
}

/// Whether a delivery has ended with this status.
fn is_ended(status: Option<u8>, wanted: u64) -> bool {
    match status {
        Some(status) => u64::from(status) == wanted,
        None => false,
    }
}

/// Whether the one injector that was to be started was so, if one was to be.
fn is_started(started: &[(u32, u64)], wanted: &str) -> bool {
    match (started, wanted.split_once(' ')) {
        ([], None) => wanted.is_empty(),
        ([(uid, room)], Some((user, wanted))) => {
            u64::from(*uid) == number_of(user) && *room == number_of(wanted)
        }
        _ => false,
    }
}

/// What the clock tells at the next step.
fn clock(case: &Case<'_>, around: &mut Around) -> u64
    ensures { IsMoment result }
{
    let now = around.now.min(LAST_MOMENT);
    around.now = now.saturating_add(case.number("pace"));
    now
}

/// How many bytes of a piece were read.
fn count_of(answer: &Answer) -> usize
    ensures { result ≤ 8192 }
{
    match answer {
        Answer::Count(count) => (*count).min(PIECE as u64) as usize,
        _ => 0,
    }
}

/// The part of the input that is at hand; empty after the last one.
fn part_of<'a>(case: &Case<'a>, around: &Around) -> &'a [u8] {
    match case.text("input").split('^').nth(around.part) {
        Some(part) => bytes_of(part),
        None => b"",
    }
}

/// In pieces of how many bytes the input is taken.
fn piece_of(case: &Case<'_>) -> usize {
    case.text("piece").parse::<usize>().unwrap_or(0)
}

/// The next piece of the input; empty at its end.
fn next_piece<'a>(case: &Case<'a>, around: &mut Around) -> &'a [u8] {
    let part = part_of(case, around);
    let from = around.taken.min(part.len());
    let count = piece_of(case).min(part.len() - from);
    around.taken = from + count;
    if around.taken == part.len() {
        around.part = around.part.saturating_add(1);
        around.taken = 0;
    }
    &part[from..from + count]
}

/// How the next command ends.
fn next_exit(case: &Case<'_>, around: &mut Around) -> Exit {
    let exit = case.exit(around.ran);
    around.ran = around.ran.saturating_add(1);
    exit
}

/// What comes of a command that ends so.
fn command_end(exit: Exit) -> Got<'static>
    ensures { (text : List ℕ) → MayCome (Command text) (came_of result) }
{
    match exit {
        Exit::With(code) => Got::Ended(code),
        Exit::Crash => Got::Crashed,
        Exit::Failed => Got::Failed,
        Exit::Memory => Got::Memory,
    }
}

/// What comes of taking the injector's status if it ends so.
fn status_end(exit: Exit) -> Got<'static>
    ensures { (d : ℕ) → MayCome (Take (port.Status d)) (came_of result) }
{
    match exit {
        Exit::With(code) => Got::Ended(code),
        Exit::Crash => Got::Crashed,
        Exit::Failed | Exit::Memory => Got::Failed,
    }
}

/// What comes of the next command, which is noted.
fn ran(case: &Case<'_>, around: &mut Around, text: &[u8]) -> Got<'static>
    ensures { (text : List ℕ) → MayCome (Command text) (came_of result) }
{
    let _ = around.commands.extend(text);
    let _ = around.commands.extend(b"\n");
    command_end(next_exit(case, around))
}

/// What comes of the injector's start, which is noted.
fn started(case: &Case<'_>, around: &mut Around, child: Child<'_>) -> Got<'static>
    ensures { (child : ChildData) → MayCome (Starts child) (came_of result) }
{
    note_start(around, child);
    match case.text("start") {
        "well" => Got::Started { pid: 83 },
        "memory" => Got::Memory,
        _ => Got::Failed,
    }
}

/// An injector was to be started; another program counts as one of no user and without room.
fn note_start(around: &mut Around, child: Child<'_>) {
    let it = match child {
        Child::Forward { uid, room } => (uid, room),
        _ => (0, 0),
    };
    let _ = around.started.push(it);
}

/// What comes of a give, which is noted if it doesn't fail.
fn gave(case: &Case<'_>, around: &mut Around, port: Port, bytes: &[u8]) -> Got<'static>
    ensures { (way : Way) (text : List ℕ) → MayCome (Give way text) (came_of result) }
{
    around.gives = around.gives.saturating_add(1);
    if around.gives == case.number("deaf") {
        return Got::Failed;
    }
    note_give(around, port, bytes);
    Got::Gave
}

/// Bytes were given to the output, or to the injector.
fn note_give(around: &mut Around, port: Port, bytes: &[u8]) {
    match port {
        Port::Output => {
            around.outputs = around.outputs.saturating_add(1);
            let _ = around.said.extend(bytes);
        }
        _ => {
            around.feeds = around.feeds.saturating_add(1);
            let _ = around.given.extend(bytes);
        }
    }
}

/// What comes of a taking.
fn taken<'a>(case: &Case<'a>, around: &mut Around, port: Port) -> Got<'a>
    ensures { MayCome (Take port) (came_of result) }
{
    match port {
        Port::Input => took(case, around),
        Port::Status(_) => status_end(case.injector()),
        Port::Output | Port::Clean | Port::Lspawn | Port::Rspawn | Port::Todo | Port::Program(_) =>
            { Got::Failed }
    }
}

/// What comes of a taking of the input.
fn took<'a>(case: &Case<'a>, around: &mut Around) -> Got<'a>
    ensures { MayCome (Take port.Input) (came_of result) }
{
    let piece = next_piece(case, around);
    if !piece.is_empty() {
        Got::Took(piece)
    } else if case.is("breaks") {
        Got::Failed
    } else {
        Got::End
    }
}

/// Makes the next step of a delivery; whether it goes on.
fn makes_step<D: CallFs>(
    alloc: Global,
    local: &mut Local,
    disk: &mut D,
    case: &Case<'_>,
    around: &mut Around,
) -> bool
    requires { IsRunning local.old (D.disk disk.old) }
    ensures { OnTrue result (IsRunning local.new (D.disk disk.new)) }
{
    let mut into = [0; PIECE];
    let now = clock(case, around);
    local.look(now, UNREADY);
    match local.need() {
        Need::File(call) => {
            let answer = perform(alloc, disk, now, call, &mut into);
            let count = count_of(&answer);
            local.done(alloc, Got::File(answer, &into[..count])).is_ok()
        }
        Need::Take(port) => {
            let got = taken(case, around, port);
            local.done(alloc, got).is_ok()
        }
        Need::Give(port, bytes) => {
            let got = gave(case, around, port, bytes);
            local.done(alloc, got).is_ok()
        }
        Need::Start(child) => {
            let got = started(case, around, child);
            local.done(alloc, got).is_ok()
        }
        Need::Command(text) => {
            let got = ran(case, around, text);
            local.done(alloc, got).is_ok()
        }
        Need::Ended(status) => {
            around.status = Some(status);
            false
        }
        Need::Wait => false,
    }
}

/// Makes so many steps of a delivery, or fewer until it has ended.
fn run<D: CallFs>(
    alloc: Global,
    local: &mut Local,
    disk: &mut D,
    case: &Case<'_>,
    around: &mut Around,
    steps: usize,
)
    requires { IsRunning local.old (D.disk disk.old) }
{
    for _ in 0..steps {
        if !makes_step(alloc, local, disk, case, around) {
            return;
        }
    }
}

/// Words without a byte.
fn no_words(alloc: Global) -> DeliveryWordsData {
    DeliveryWordsData {
        user: ByteText::new(alloc),
        home: ByteText::new(alloc),
        local: ByteText::new(alloc),
        dash: ByteText::new(alloc),
        ext: ByteText::new(alloc),
        domain: ByteText::new(alloc),
        sender: ByteText::new(alloc),
        line: ByteText::new(alloc),
    }
}

/// Adds the words of a case's command line to those without a byte; whether there was memory.
fn are_filled(words: &mut DeliveryWordsData, case: &Case<'_>) -> bool {
    words.user.extend(b"j").is_ok()
        && words.home.extend(case.bytes("home")).is_ok()
        && words.local.extend(case.bytes("local")).is_ok()
        && words.dash.extend(case.bytes("dash")).is_ok()
        && words.ext.extend(case.bytes("ext")).is_ok()
        && words.domain.extend(case.bytes("domain")).is_ok()
        && words.sender.extend(case.bytes("sender")).is_ok()
        && words.line.extend(case.bytes("line")).is_ok()
}

/// A delivery with these words, which has done nothing yet.
fn made(alloc: Global, words: &DeliveryWordsData) -> Result<Local, Memory>
    ensures { IfOk result (λ m. (args : Words) × Stands m args []) }
{
    Local::new(alloc, LocalArgs::of(alloc, words, 1000, 82)?)
}

/// Makes at most so many steps of a delivery with these words; whether there was memory for it.
fn runs(
    alloc: Global,
    words: &DeliveryWordsData,
    case: &Case<'_>,
    disk: &mut CrashDisk,
    around: &mut Around,
    steps: usize,
) -> bool {
    match made(alloc, words) {
        Ok(mut local) => {
            run(alloc, &mut local, disk, case, around, steps);
            drop(local);
            true
        }
        Err(_) => false,
    }
}

/// Makes at most so many steps of a delivery over a disk, which are noted; whether there was memory for it.
pub fn did(
    alloc: Global,
    case: &Case<'_>,
    disk: &mut CrashDisk,
    around: &mut Around,
    steps: usize,
) -> bool {
    let mut words = no_words(alloc);
    let is_done = are_filled(&mut words, case) && runs(alloc, &words, case, disk, around, steps);
    drop(words);
    is_done
}

/// The calls that fail.
fn faults_of(alloc: Global, case: &Case<'_>) -> Result<Vec<u64>, Memory> {
    let fault = case.number("fault");
    if fault > 0 {
        Vec::from_slice(alloc, &[fault])
    } else {
        Ok(Vec::new(alloc))
    }
}

/// Adds the directories; whether there was memory.
fn add_dirs(alloc: Global, disk: &mut CrashDisk) -> bool {
    for dir in DIRS.split(' ') {
        if disk.dir(alloc, dir.as_bytes()).is_err() {
            return false;
        }
    }
    true
}

/// Adds the case's files; whether there was memory.
fn add_files(alloc: Global, disk: &mut CrashDisk, case: &Case<'_>) -> bool {
    for file in case.text("files").split('^') {
        if !is_added(alloc, disk, file) {
            return false;
        }
    }
    true
}

/// Adds a file, if it is one; whether there was memory.
fn is_added(alloc: Global, disk: &mut CrashDisk, file: &str) -> bool {
    match file.split_once('=') {
        Some((name, text)) => disk.place(alloc, name.as_bytes(), bytes_of(text)).is_ok(),
        None => file.is_empty(),
    }
}

/// A disk without anything on it.
pub fn empty_disk(alloc: Global, case: &Case<'_>) -> Result<CrashDisk, Memory> {
    let faults = faults_of(alloc, case)?;
    Ok(CrashDisk::new(MemFs::new(alloc, Vec::new(alloc), faults)?))
}

/// Adds the directories and the case's files; whether there was memory.
pub fn is_laid(alloc: Global, disk: &mut CrashDisk, case: &Case<'_>) -> bool {
    add_dirs(alloc, disk) && add_files(alloc, disk, case)
}

/// More steps than any of these deliveries makes.
const STEPS: usize = 400;

/// Whether a case comes out as it says, on this disk.
fn is_so(alloc: Global, case: &Case<'_>, disk: &mut CrashDisk) -> bool {
    let mut around = Around::new(alloc, case);
    let is_right = did(alloc, case, disk, &mut around, STEPS)
        && around.is(case)
        && has_dropped(case, disk)
        && has_left(case, disk);
    drop(around);
    is_right
}

/// Whether a case comes out as it says.
fn comes_out(alloc: Global, case: &Case<'_>) -> bool {
    match empty_disk(alloc, case) {
        Ok(mut disk) => {
            let is_right = is_laid(alloc, &mut disk, case) && is_so(alloc, case, &mut disk);
            drop(disk);
            is_right
        }
        Err(_) => false,
    }
}

/// Which row of these first comes out in another way than it says, from 1; none if all come out so.
pub fn first_wrong(alloc: Global, rows: &str) -> Option<u64> {
    let mut at: u64 = 0;
    for row in rows.split("~like ").skip(1) {
        at = at.saturating_add(1);
        if !comes_out(alloc, &Case::of(row)) {
            return Some(at);
        }
    }
    None
}

/// The exit status of a case on this disk.
fn status_on(alloc: Global, case: &Case<'_>, disk: &mut CrashDisk) -> Option<u8> {
    let mut around = Around::new(alloc, case);
    let status = if did(alloc, case, disk, &mut around, STEPS) {
        around.status
    } else {
        None
    };
    drop(around);
    status
}

/// Whether a case, ends with this status.
pub fn ends(alloc: Global, case: &Case<'_>, status: u8) -> bool {
    match empty_disk(alloc, case) {
        Ok(mut disk) => {
            let is_right = is_laid(alloc, &mut disk, case)
                && status_on(alloc, case, &mut disk) == Some(status);
            drop(disk);
            is_right
        }
        Err(_) => false,
    }
}

/// Whether that stands in the file looked at which the case says.
pub fn has_dropped(case: &Case<'_>, disk: &CrashDisk) -> bool {
    match (disk.bytes_of(case.bytes("at")), case.text("dropped")) {
        (None, parts) => parts == "-",
        (Some(_), "-") => false,
        (Some(bytes), parts) => is_joined(bytes, parts),
    }
}

/// Whether a file is left in `tmp` just if the case says so.
fn has_left(case: &Case<'_>, disk: &CrashDisk) -> bool {
    disk.name_after(b"home/j/Maildir/tmp", b"").is_some() == case.is("left")
}
