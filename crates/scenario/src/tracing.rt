// The lines of events.
ghost use Rattle.std.specs.Prelude.{◌≡◌, ◌++◌, OnOk, drop, flat_map};
ghost use Rattle.script_traces.specs.Events.{kept_line};
ghost use Rattle.scenario.specs.Traced.{traced_after};

use mail_bytes::Memory;
use mail_world::Event;
use script_lines::{Alone, Line};
use script_traces::put_event;
use std::alloc::Global;

/// Whether events are traced after a line, if before it they are, or aren't.
pub fn traced_after(traced: bool, line: &Line) -> bool
    ensures { result ≡ traced_after traced line.now }
{
    match line {
        Line::Alone(Alone::Trace) => true,
        _ => traced,
    }
}

/// Puts the lines of the events after the first so many at the end of a text, the oldest event first.
pub fn put_events_after(
    alloc: Global,
    text: &mut Vec<u8>,
    events: &[Event],
    before: usize,
) -> Result<(), Memory>
    ensures { OnOk result (text.new.items ≡ text.old.items ++ flat_map kept_line (drop before events.now)) }
{
    match events.get(before..) {
        Some(added) => put_events(alloc, text, added),
        None => Ok(()),
    }
}

/// Puts the lines of these events at the end of a text, the oldest event first.
fn put_events(alloc: Global, text: &mut Vec<u8>, events: &[Event]) -> Result<(), Memory>
    ensures { OnOk result (text.new.items ≡ text.old.items ++ flat_map kept_line events.now) }
{
    for event in events {
        put_event(alloc, text, event)?;
    }
    Ok(())
}
