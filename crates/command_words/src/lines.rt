// The simple `clap` commands.
ghost use Rattle.std.specs.Prelude.{◌≡◌, IfOk};
ghost use Rattle.clap.specs.Words.{app_of};
ghost use Rattle.command_words.specs.Lines.{audit_line, clean_line, local_line, lspawn_line, make_line, play_line, qmqpd_line, queue_line, rspawn_line, send_line, with_program, with_word, work_line};

use clap::builder::ValueParser;
use clap::{Arg, ArgAction, Command};
use mail_bytes::Memory;
use std::alloc::Global;

/// The words of `play`: no more than its name.
pub fn play_line<'a>(alloc: Global) -> Command<'a>
    ensures { app_of result ≡ play_line }
{
    Command::new(alloc, "play")
}

/// The words of `queue`. The error: out of memory.
pub fn queue_line<'a>(alloc: Global) -> Result<Command<'a>, Memory>
    ensures { IfOk result (λ line. app_of line ≡ queue_line) }
{
    Command::new(alloc, "queue")
        .arg(Arg::new(alloc, "env").required(true))?
        .arg(Arg::new(alloc, "dir").required(true))?
        .arg(Arg::new(alloc, "uid").long("uid"))?
        .arg(
            Arg::new(alloc, "bounce")
                .long("bounce")
                .action(ArgAction::SetTrue),
        )
}

/// The words of `qmqpd`. The error: out of memory.
pub fn qmqpd_line<'a>(alloc: Global) -> Result<Command<'a>, Memory>
    ensures { IfOk result (λ line. app_of line ≡ qmqpd_line) }
{
    with_word(alloc, Command::new(alloc, "qmqpd"), "dir")?.arg(Arg::new(alloc, "uid").long("uid"))
}

/// The words of `audit`. The error: out of memory.
pub fn audit_line<'a>(alloc: Global) -> Result<Command<'a>, Memory>
    ensures { IfOk result (λ line. app_of line ≡ audit_line) }
{
    Command::new(alloc, "audit").arg(Arg::new(alloc, "dir").required(true))
}

/// The words of `clean`. The error: out of memory.
pub fn clean_line<'a>(alloc: Global) -> Result<Command<'a>, Memory>
    ensures { IfOk result (λ line. app_of line ≡ clean_line) }
{
    Command::new(alloc, "clean").arg(Arg::new(alloc, "dir").required(true))
}

/// The words of `lspawn`. The error: out of memory.
pub fn lspawn_line<'a>(alloc: Global) -> Result<Command<'a>, Memory>
    ensures { IfOk result (λ line. app_of line ≡ lspawn_line) }
{
    with_word(alloc, Command::new(alloc, "lspawn"), "dir")
}

/// The words of `rspawn`. The error: out of memory.
pub fn rspawn_line<'a>(alloc: Global) -> Result<Command<'a>, Memory>
    ensures { IfOk result (λ line. app_of line ≡ rspawn_line) }
{
    let line = with_word(alloc, Command::new(alloc, "rspawn"), "dir")?;
    with_program(alloc, line)
}

/// The words of `work`. The error: out of memory.
pub fn work_line<'a>(alloc: Global) -> Result<Command<'a>, Memory>
    ensures { IfOk result (λ line. app_of line ≡ work_line) }
{
    Command::new(alloc, "work").arg(Arg::new(alloc, "threads").long("threads"))
}

/// The words of `send`. The error: out of memory.
pub fn send_line<'a>(alloc: Global) -> Result<Command<'a>, Memory>
    ensures { IfOk result (λ line. app_of line ≡ send_line) }
{
    let line = with_word(alloc, Command::new(alloc, "send"), "dir")?;
    with_program(alloc, line)?.arg(Arg::new(alloc, "turns").long("turns"))
}

/// The words of `make`. The error: out of memory.
pub fn make_line<'a>(alloc: Global) -> Result<Command<'a>, Memory>
    ensures { IfOk result (λ line. app_of line ≡ make_line) }
{
    let line = with_word(alloc, Command::new(alloc, "make"), "seed")?;
    with_word(alloc, line, "count")
}

/// The words of `local`. The error: out of memory.
pub fn local_line<'a>(alloc: Global) -> Result<Command<'a>, Memory>
    ensures { IfOk result (λ line. app_of line ≡ local_line) }
{
    let line = with_word(alloc, Command::new(alloc, "local"), "dir")?;
    let line = with_word(alloc, line, "user")?;
    let line = with_word(alloc, line, "home")?;
    let line = with_word(alloc, line, "local")?;
    let line = with_word(alloc, line, "dash")?;
    let line = with_word(alloc, line, "ext")?;
    let line = with_word(alloc, line, "domain")?;
    let line = with_word(alloc, line, "sender")?;
    let line = with_word(alloc, line, "line")?;
    line.arg(Arg::new(alloc, "uid").long("uid"))
}

/// This command with one more word that has to stand. The error: out of memory.
fn with_word<'a>(alloc: Global, line: Command<'a>, id: &'a str) -> Result<Command<'a>, Memory>
    ensures { IfOk result (λ more. app_of more ≡ with_word (app_of line.entry) id.entry.now) }
{
    line.arg(Arg::new(alloc, id).required(true))
}

/// This command with the word of a program, which isn't empty. The error: out of memory.
fn with_program<'a>(alloc: Global, line: Command<'a>) -> Result<Command<'a>, Memory>
    ensures { IfOk result (λ more. app_of more ≡ with_program (app_of line.entry)) }
{
    line.arg(
        Arg::new(alloc, "program")
            .required(true)
            .value_parser(ValueParser::NonEmptyString),
    )
}
