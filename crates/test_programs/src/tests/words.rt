// Words of the command line, and what they are.

use command_words::{
    Command, LocalWords, MakeWords, Places, QueueWords, SendWords, WordsError, channels, places,
    read_words,
};
use mail_bytes::{ByteText, Memory};
use std::alloc::Global;

/// In each line words, parted by spaces, of which `""` is the empty word; and after `->` what they are. That is the command
/// with what it is told, in the order of the fields of its type; then the file of the envelope and the directory that the
/// words name, each `-` if there is none, and the channels.
const ROWS: &str = r#"play -> play; - -; Nothing
make 7 2000 -> make 7 2000; - -; Nothing
make 0 0 -> make 0 0; - -; Nothing
make -- 65536 100000 -> make 65536 100000; - -; Nothing
queue - DIR -> queue - DIR 0 false; - DIR; Nothing
queue ENV DIR -> queue ENV DIR 0 false; ENV DIR; Nothing
queue - DIR --bounce -> queue - DIR 0 true; - DIR; Nothing
queue - DIR --uid 1000 -> queue - DIR 1000 false; - DIR; Nothing
queue - DIR --uid=1000 -> queue - DIR 1000 false; - DIR; Nothing
queue - DIR --uid 0 -> queue - DIR 0 false; - DIR; Nothing
queue --uid 4294967295 - --bounce DIR -> queue - DIR 4294967295 true; - DIR; Nothing
queue --bounce -- - --uid -> queue - --uid 0 true; - --uid; Nothing
audit DIR -> audit DIR; - DIR; Nothing
audit -- -DIR -> audit -DIR; - -DIR; Nothing
clean DIR -> clean DIR; - DIR; Nothing
clean -- -DIR -> clean -DIR; - -DIR; Nothing
lspawn DIR -> lspawn DIR; - DIR; InputAndChildren
lspawn -- -DIR -> lspawn -DIR; - -DIR; InputAndChildren
qmqpd DIR -> qmqpd DIR 0; - DIR; Nothing
qmqpd --uid=4294967295 -- -DIR -> qmqpd -DIR 4294967295; - -DIR; Nothing
qmqpd DIR --uid 7 -> qmqpd DIR 7; - DIR; Nothing
rspawn DIR p -> rspawn DIR p; - DIR; InputAndChildren
rspawn -- -DIR -p -> rspawn -DIR -p; - -DIR; InputAndChildren
rspawn DIR /usr/bin/deliver -> rspawn DIR /usr/bin/deliver; - DIR; InputAndChildren
send DIR p --turns 5 -> send DIR p 5; - DIR; Links
send --turns=1000000 DIR ./deliver -> send DIR ./deliver 1000000; - DIR; Links
send --turns 1 -- -DIR p -> send -DIR p 1; - -DIR; Links
work -> work 2; - -; Nothing
work --threads 1 -> work 1; - -; Nothing
work --threads=16 -> work 16; - -; Nothing
local DIR =j =h =j = = =x =a =l -> local DIR =j =h =j = = =x =a =l 0; - DIR; Children
local DIR =j =home/j =j = = =localhost =a@x =./Maildir/ -> local DIR =j =home/j =j = = =localhost =a@x =./Maildir/ 0; - DIR; Children
local --uid 1000 DIR =j =/home/j =J-%3d =- =%3D =x =%20%0A =l -> local DIR =j =/home/j =J-= =- == =x = \n =l 1000; - DIR; Children
local DIR == =%00%ff =%25 =- =a-b =x = =|true --uid=4294967295 -> local DIR == =\x00\xff =% =- =a-b =x = =|true 4294967295; - DIR; Children"#;

/// In each line words that are no command.
const NO_COMMANDS: &str = r#"
nosuch
--help
--version
-h
help
Play
play more
play --help
play --version
make
make 7
make 7 2000 more
make 7 2000 --help
make 65537 1
make 1 100001
make 1 18446744073709551616
make 01 1
make 1 01
make +1 1
make -1 1
make 1 ""
make --seed 7 --count 1
queue
queue -
queue - DIR more
queue - DIR --help
queue - DIR -h
queue - DIR --version
queue - DIR --uid
queue - DIR --uid 01
queue - DIR --uid +1
queue - DIR --uid -1
queue - DIR --uid 1a
queue - DIR --uid=
queue - DIR --uid 4294967296
queue - DIR --uid 18446744073709551616
queue - DIR --uid 1 --uid 1
queue - DIR --bounce --bounce
queue - DIR --bounce=true
queue - DIR --bounc
queue - -DIR
queue - DIR --nosuch
audit
audit DIR more
audit --help
audit DIR --uid 1
clean
clean DIR more
lspawn
lspawn DIR more
lspawn DIR --help
qmqpd
qmqpd DIR more
qmqpd DIR --uid 07
qmqpd DIR --uid 4294967296
qmqpd DIR --bounce
rspawn DIR
rspawn DIR ""
rspawn DIR p more
rspawn DIR p --uid 1
rspawn --version DIR p
send DIR p
send DIR --turns 1
send DIR "" --turns 1
send DIR p more --turns 1
send DIR p --turns
send DIR p --turns 0
send DIR p --turns 01
send DIR p --turns +1
send DIR p --turns 1000001
send DIR p --turns 18446744073709551616
send DIR p --turns 1 --turns 1
send DIR p --turns 1 --help
work --threads 0
work --threads 17
work --threads 02
work --threads
work more
work --threads 2 --threads 2
local DIR
local DIR =j =h =j = = =x =a
local DIR =j =h =j = = =x =a =l more
local DIR =j h =j = = =x =a =l
local DIR j =h =j = = =x =a =l
local DIR =j =h =j = = =x =a l
local DIR =j =h =j = = =x =% =l
local DIR =j =h =j = = =x =a%4 =l
local DIR =j =h =j = = =x%g0 =a =l
local DIR =j =h =j = = =x =a =l --uid 01
local DIR =j =h =j = = =x =a =l --uid 4294967296
local DIR =j =h =j = = =x =a =l --bounce"#;

/// The words of a line.
fn words_of(alloc: Global, line: &str) -> Result<Vec<String>, Memory> {
    let mut words = Vec::new(alloc);
    for word in line.split_whitespace() {
        words.push(String::from_str(alloc, word.trim_matches('"'))?)?;
    }
    Ok(words)
}

/// A text, or `-` for none.
fn or_dash(text: &Option<ByteText>) -> &[u8] {
    match text {
        Some(text) => text.as_slice(),
        None => b"-",
    }
}

/// What `queue` is told.
fn queue_text(alloc: Global, queue: &QueueWords) -> Result<String, Memory> {
    let (env, dir) = (
        or_dash(&queue.env).escape_ascii(),
        queue.dir.as_slice().escape_ascii(),
    );
    let (uid, bounce) = (queue.uid, queue.bounce);
    format!(in alloc; "queue {env} {dir} {uid} {bounce}")
}

/// What `local` is told.
fn local_text(alloc: Global, told: &LocalWords) -> Result<String, Memory> {
    let words = &told.words;
    format!(in alloc;
        "local {} ={} ={} ={} ={} ={} ={} ={} ={} {}",
        told.dir.as_slice().escape_ascii(),
        words.user.as_slice().escape_ascii(),
        words.home.as_slice().escape_ascii(),
        words.local.as_slice().escape_ascii(),
        words.dash.as_slice().escape_ascii(),
        words.ext.as_slice().escape_ascii(),
        words.domain.as_slice().escape_ascii(),
        words.sender.as_slice().escape_ascii(),
        words.line.as_slice().escape_ascii(),
        told.uid,
    )
}

/// What `send` is told.
fn send_text(alloc: Global, told: &SendWords) -> Result<String, Memory> {
    let (dir, program) = (
        told.dir.as_slice().escape_ascii(),
        told.program.as_slice().escape_ascii(),
    );
    let turns = told.turns;
    format!(in alloc; "send {dir} {program} {turns}")
}

/// What `make` is told.
fn make_text(alloc: Global, told: MakeWords) -> Result<String, Memory> {
    let MakeWords { seed, count } = told;
    format!(in alloc; "make {seed} {count}")
}

/// A command with what it is told, or why words are none.
fn text_of(alloc: Global, found: &Result<Command, WordsError>) -> Result<String, Memory> {
    match found {
        Ok(Command::Play) => String::from_str(alloc, "play"),
        Ok(Command::Make(told)) => make_text(alloc, *told),
        Ok(Command::Queue(queue)) => queue_text(alloc, queue),
        Ok(Command::Qmqpd(told)) => {
            let (dir, uid) = (told.dir.as_slice().escape_ascii(), told.uid);
            format!(in alloc; "qmqpd {dir} {uid}")
        }
        Ok(Command::Audit(dir)) => named(alloc, "audit", dir, b""),
        Ok(Command::Clean(dir)) => named(alloc, "clean", dir, b""),
        Ok(Command::Lspawn(dir)) => named(alloc, "lspawn", dir, b""),
        Ok(Command::Rspawn(told)) => named(alloc, "rspawn", &told.dir, told.program.as_slice()),
        Ok(Command::Local(told)) => local_text(alloc, told),
        Ok(Command::Send(told)) => send_text(alloc, told),
        Ok(Command::Work(threads)) => format!(in alloc; "work {threads}"),
        Err(why) => format!(in alloc; "{why}"),
    }
}

/// A command of this name with its directory and one more text.
fn named(alloc: Global, name: &str, dir: &ByteText, more: &[u8]) -> Result<String, Memory> {
    let (dir, more) = (dir.as_slice().escape_ascii(), more.escape_ascii());
    format!(in alloc; "{name} {dir} {more}")
}

/// What these words are, as a row says it.
fn told(alloc: Global, words: &[String]) -> Result<String, Memory> {
    let found = read_words(alloc, words);
    let text = text_of(alloc, &found)?;
    let at = places(alloc, words)?;
    let (env, dir) = (
        or_dash(&at.env).escape_ascii(),
        or_dash(&at.dir).escape_ascii(),
    );
    let channels = channels(alloc, words)?;
    let text = text.as_str().trim_end();
    format!(in alloc; "{text}; {env} {dir}; {channels:?}")
}

/// What the words of a line are.
fn told_of(alloc: Global, line: &str) -> Result<String, Memory> {
    told(alloc, words_of(alloc, line)?.as_slice())
}

/// Whether the words of a line are this.
fn are(alloc: Global, line: &str, wanted: &str) -> bool {
    match told_of(alloc, line) {
        Ok(told) => told.as_str() == wanted,
        Err(_) => false,
    }
}

#[test]
fn words_are_what_they_say(rt: HostRuntime) {
    for row in ROWS.lines() {
        let (line, wanted) = row.split_once(" -> ").unwrap_or((row, ""));
        assert!(rt; are(rt.alloc(), line, wanted), "{row}");
    }
}

#[test]
fn other_words_are_no_command(rt: HostRuntime) {
    for line in NO_COMMANDS.lines() {
        assert!(rt; are(rt.alloc(), line, "usage; - -; Nothing"), "{line}");
    }
}

#[test]
fn a_lack_of_memory_has_its_text(rt: HostRuntime) {
    let text = text_of(rt.alloc(), &Err(WordsError::Memory));
    assert!(rt; text.is_ok_and(|text| text.as_str() == "out of memory"));
}
