// The passes of a sender over the channel file of a message, by the events that a script prints.

/// A channel: its directory, its spawner, and what is added to the root of a message's age until the next retry.
pub(crate) struct Channel {
    pub(crate) name: &'static str,
    pub(crate) spawner: &'static str,
    pub(crate) skip: u64,
}

/// A pass: when it began, how many requests were given in it, and how many records of the message were marked since.
#[derive(Clone, Copy)]
pub(crate) struct Pass {
    pub(crate) begun: u64,
    pub(crate) asked: u64,
    pub(crate) marked: u64,
}

/// Which channel file the newest event of a sender opened.
#[derive(Clone, Copy, PartialEq, Eq)]
enum Opened {
    Nothing,
    Own,
    Another,
}

/// The last pass of a message on a channel, by the events of a sender that started at this moment: since its number became this
/// message's, if it was another's before. A pass begins at the opening of a channel file that is read then; a mark writes to it.
pub(crate) fn last_pass(life: &str, channel: &Channel, number: &str, start: u64) -> Option<Pass> {
    let mut now = start;
    let mut last = None;
    let mut is_on = false;
    let mut opened = Opened::Nothing;
    let mut opened_at = start;
    for line in life.lines() {
        now = moment_after(line, now);
        if makes_info(line, number) {
            last = None;
        }
        if let Some(deed) = line.strip_prefix("sender ") {
            if deed.starts_with("read ") && opened != Opened::Nothing {
                is_on = opened == Opened::Own;
                last = begun_if(is_on, opened_at, last);
            }
            last = counted(
                last,
                deed,
                is_on && asks(deed, channel),
                opened == Opened::Own,
            );
            opened = opened_by(deed, channel, number);
            opened_at = now;
        }
    }
    last
}

/// A pass that begins at this moment, if one does; else the last one.
fn begun_if(begins: bool, begun: u64, last: Option<Pass>) -> Option<Pass> {
    if !begins {
        return last;
    }
    Some(Pass {
        begun,
        asked: 0,
        marked: 0,
    })
}

/// A pass with one deed more, which may ask for a delivery in it, and may mark a record if the message's file was opened just before.
fn counted(last: Option<Pass>, deed: &str, asks: bool, is_open: bool) -> Option<Pass> {
    let mut pass = last?;
    if asks {
        pass.asked = pass.asked.saturating_add(1);
    }
    if is_open && deed.starts_with("write ") {
        pass.marked = pass.marked.saturating_add(1);
    }
    Some(pass)
}

/// Whether a deed gives a request on a channel.
fn asks(deed: &str, channel: &Channel) -> bool {
    length_of(deed, "give ", channel.spawner).is_some()
}

/// Which of a channel's files a deed opens.
fn opened_by(deed: &str, channel: &Channel, number: &str) -> Opened {
    let Some(path) = deed.strip_prefix("open ") else {
        return Opened::Nothing;
    };
    if after_path(path, channel.name, number).is_some() {
        Opened::Own
    } else if path.starts_with(channel.name) {
        Opened::Another
    } else {
        Opened::Nothing
    }
}

/// The moment at the end of these events.
pub(crate) fn moment_of(events: &str) -> u64 {
    let mut now = 0;
    for line in events.lines() {
        now = moment_after(line, now);
    }
    now
}

/// The moment after an event, if it was this one before.
fn moment_after(event: &str, now: u64) -> u64 {
    length_of(event, "world ", "moment").unwrap_or(now)
}

/// The moment at which the info file of a message was written last.
pub(crate) fn birth_of(events: &str, number: &str) -> u64 {
    let mut now = 0;
    let mut birth = 0;
    let mut is_made = false;
    for line in events.lines() {
        now = moment_after(line, now);
        if is_made && line.starts_with("sender append ") {
            birth = now;
            is_made = false;
        }
        is_made = is_made || makes_info(line, number);
    }
    birth
}

/// Whether an event makes the info file of a message.
fn makes_info(event: &str, number: &str) -> bool {
    match event.strip_prefix("sender create ") {
        Some(path) => after_path(path, "info", number).is_some(),
        None => false,
    }
}

/// What follows the path of a message's file in this directory, if a text begins with it, after a space.
pub(crate) fn after_path<'a>(text: &'a str, dir: &str, number: &str) -> Option<&'a str> {
    let (_, name) = text.strip_prefix(dir)?.strip_prefix('/')?.split_once('/')?;
    name.strip_prefix(number)?.strip_prefix(' ')
}

/// The number after these words, if a text begins with them.
pub(crate) fn length_of(text: &str, first: &str, second: &str) -> Option<u64> {
    let rest = text.strip_prefix(first)?.strip_prefix(second)?;
    match rest.strip_prefix(' ')?.parse::<u64>() {
        Ok(length) => Some(length),
        Err(_) => None,
    }
}
