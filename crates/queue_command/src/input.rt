// The input of an injection: a message and its envelope.
ghost use Rattle.std.specs.Prelude.{◌≡◌};
ghost use Rattle.queue_inject.specs.Machine.{asks, room_of};
ghost use Rattle.queue_command.specs.declared.netstring.Place.TheVariants as place;
ghost use Rattle.queue_command.specs.Feeding.{Feeds, FeedsBy};

use crate::netstring::{Place, feed_netstring};
use crate::tell::tell_end;
use call_fs::PIECE;
use outside::{Source, Took};
use program_runner::take;
use queue_inject::{Injector, InputEnd, Part};

/// How a message and its envelope come in.
#[derive(Clone, Copy)]
pub enum Form {
    /// The envelope has a source of its own, beside the message's.
    Beside,
    /// The message's source gives both, each as a netstring: the message, and then the envelope.
    Netstrings,
}

/// Feeds an injector what it asks for now, of the source that has it, which in a netstring stands at this place.
pub fn feed<M: Source, E: Source>(
    injector: &mut Injector,
    form: Form,
    place: &mut Place,
    message: &mut M,
    envelope: &mut E,
)
    ensures feeds { FeedsBy (asks injector.old) form place.old place.new injector.old injector.new
        (record { old = M.left message.old; new = M.left message.new; faults_old = M.faults message.old; faults_new = M.faults message.new })
        (record { old = E.left envelope.old; new = E.left envelope.new; faults_old = E.faults envelope.old; faults_new = E.faults envelope.new }) }
    ensures full { room_of injector.new ≡ 0 }
    ensures beside { form ≡ Form.Netstrings → envelope.new ≡ envelope.old }
{
    match injector.asks() {
        None => {}
        Some(part) => match form {
            Form::Netstrings => feed_netstring(injector, message, place),
            Form::Beside => match part {
                Part::Message => feed_all(injector, message),
                Part::Envelope => feed_all(injector, envelope),
            },
        },
    }
}

/// Feeds an injector what it asks for now, of a source of its own, until there is no more room for it or its end was told.
fn feed_all<S: Source>(injector: &mut Injector, source: &mut S)
    ensures feeds { Feeds Form.Beside place.Head place.Head injector.old injector.new
        (record { old = S.left source.old; new = S.left source.new; faults_old = S.faults source.old; faults_new = S.faults source.new }) }
    ensures full { room_of injector.new ≡ 0 }
{
    let mut buffer = [0; PIECE];
    while injector.room() > 0 {
        match take(source, injector.room(), &mut buffer) {
            Took::Got(count) => injector.feed(&buffer[..count]),
            Took::End => tell_end(injector, InputEnd::Whole),
            Took::Failed => tell_end(injector, InputEnd::Unread),
        }
    }
}
