// Feeding an injector a netstring (`5:hello,`) from a source.
ghost use Rattle.std.specs.Prelude.{◌≡◌, ◌≤◌, ◌<◌};
ghost use Rattle.mail_bytes.specs.Told.{Meets, Rose};
ghost use Rattle.queue_inject.specs.Machine.{room_of};
ghost use Rattle.queue_command.specs.declared.input.Form.TheVariants.{Netstrings};
ghost use Rattle.queue_command.specs.Feeding.{Feeds};
ghost use Rattle.queue_command.specs.inside.Reading.{IsByteRead, IsHeadRead, IsCommaRead};

use crate::tell::tell_end;
use call_fs::PIECE;
use mail_bytes::{NetHead, net_head};
use outside::{Source, Took};
use program_runner::take;
use queue_inject::{Injector, InputEnd};

/// Where in a netstring its reading stands.
#[derive(Clone, Copy)]
pub enum Place {
    /// Before its head.
    Head,
    /// In its value, of which so many bytes are left.
    Value { left: u64 },
}

/// Feeds an injector what it asks for now, of the netstring that the source gives at this place. It is malformed if a byte
/// can't stand in its head, or another one stands in place of its comma; unread if the source ends before that, or fails.
/// Its comma is read only if the injector still asks for more.
pub fn feed_netstring<S: Source>(injector: &mut Injector, source: &mut S, place: &mut Place)
    ensures feeds { Feeds Netstrings place.old place.new injector.old injector.new
        (record { old = S.left source.old; new = S.left source.new; faults_old = S.faults source.old; faults_new = S.faults source.new }) }
    ensures full { room_of injector.new ≡ 0 }
{
    match *place {
        Place::Head => feed_head(injector, source, place),
        Place::Value { left } => feed_value(injector, source, left, place),
    }
}

/// The same from the netstring's head on. The condition: it stands there.
fn feed_head<S: Source>(injector: &mut Injector, source: &mut S, place: &mut Place)
    requires { place.old ≡ Place.Head }
    ensures feeds { Feeds Netstrings Place.Head place.new injector.old injector.new
        (record { old = S.left source.old; new = S.left source.new; faults_old = S.faults source.old; faults_new = S.faults source.new }) }
    ensures full { room_of injector.new ≡ 0 }
{
    if injector.room() == 0 {
        return;
    }
    match take_head(source) {
        Head::Length(length) => feed_value(injector, source, length, place),
        Head::Bad => tell_end(injector, InputEnd::Malformed),
        Head::Cut => tell_end(injector, InputEnd::Unread),
    }
}

/// The same from inside its value on, of which so many bytes are left.
fn feed_value<S: Source>(injector: &mut Injector, source: &mut S, left: u64, place: &mut Place)
    ensures feeds { Feeds Netstrings (Place.Value left) place.new injector.old injector.new
        (record { old = S.left source.old; new = S.left source.new; faults_old = S.faults source.old; faults_new = S.faults source.new }) }
    ensures full { room_of injector.new ≡ 0 }
{
    let left = feed_bytes(injector, source, left);
    if left == 0 && injector.room() > 0 {
        *place = Place::Head;
        feed_comma(injector, source);
    } else {
        *place = Place::Value { left };
    }
}

/// Feeds an injector bytes of a value of which so many are left, and answers how many then are: none, unless there is no
/// more room for them or the value is cut.
fn feed_bytes<S: Source>(injector: &mut Injector, source: &mut S, mut left: u64) -> u64
    ensures feeds { Feeds Netstrings (Place.Value left) (Place.Value result) injector.old injector.new
        (record { old = S.left source.old; new = S.left source.new; faults_old = S.faults source.old; faults_new = S.faults source.new }) }
    ensures full { 0 < result → room_of injector.new ≡ 0 }
{
    let mut buffer = [0; PIECE];
    while left > 0 && injector.room() > 0 {
        let most = left.min(injector.room() as u64) as usize;
        match take(source, most, &mut buffer) {
            Took::Got(count) => {
                injector.feed(&buffer[..count]);
                left -= count as u64;
            }
            Took::End | Took::Failed => tell_end(injector, InputEnd::Unread),
        }
    }
    left
}

/// Takes the byte after a value, and tells the injector the end. The condition: it asks for more.
fn feed_comma<S: Source>(injector: &mut Injector, source: &mut S)
    requires { 0 < room_of injector.old }
    ensures feeds { Feeds Netstrings (Place.Value 0) Place.Head injector.old injector.new
        (record { old = S.left source.old; new = S.left source.new; faults_old = S.faults source.old; faults_new = S.faults source.new }) }
    ensures full { room_of injector.new ≡ 0 }
{
    let end = take_comma(source);
    tell_end(injector, end);
}

/// What a source gave as the head of a netstring.
#[derive(Clone, Copy)]
enum Head {
    /// A head, with this length.
    Length(u64),
    /// A byte that no head has there.
    Bad,
    /// A part, after which the source ended or failed.
    Cut,
}

/// Reads a head byte by byte, since the source may have nothing after it yet.
fn take_head<S: Source>(source: &mut S) -> Head
    ensures later { S.faults source.old ≤ S.faults source.new }
    ensures read { Meets (S.left source.old) (S.left source.new)
        (λ before after. IsHeadRead result before after (Rose (S.faults source.old) (S.faults source.new))) }
{
    let mut text = [0; 21];
    for len in 0..21 {
        let Some(byte) = take_byte(source) else {
            return Head::Cut;
        };
        text[len] = byte;
        match net_head(&text[..len + 1]) {
            NetHead::More => {}
            NetHead::Len { value, .. } => return Head::Length(value),
            NetHead::Bad => return Head::Bad,
        }
    }
    unreachable!()
}

/// Takes the byte after a value: whether it is a comma.
fn take_comma<S: Source>(source: &mut S) -> InputEnd
    ensures later { S.faults source.old ≤ S.faults source.new }
    ensures read { Meets (S.left source.old) (S.left source.new)
        (λ before after. IsCommaRead result before after (Rose (S.faults source.old) (S.faults source.new))) }
{
    match take_byte(source) {
        Some(b',') => InputEnd::Whole,
        Some(_) => InputEnd::Malformed,
        None => InputEnd::Unread,
    }
}

/// Takes one byte; none if the source ends or fails.
fn take_byte<S: Source>(source: &mut S) -> Option<u8>
    ensures later { S.faults source.old ≤ S.faults source.new }
    ensures read { Meets (S.left source.old) (S.left source.new)
        (λ before after. IsByteRead result before after (Rose (S.faults source.old) (S.faults source.new))) }
{
    let mut byte = [0];
    match source.take(&mut byte) {
        Took::Got(_) => Some(byte[0]),
        Took::End | Took::Failed => None,
    }
}
