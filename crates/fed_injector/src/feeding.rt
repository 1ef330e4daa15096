// Feeding an injector its input, a piece at a time.
ghost use Rattle.std.specs.Prelude.{◌≡◌, List};
ghost use Rattle.call_fs.specs.declared.past.Own.{Own};
ghost use Rattle.queue_inject.specs.declared.injection.Arguments.{Arguments};
ghost use Rattle.queue_inject.specs.Machine.{room_of};
ghost use Rattle.queue_inject.specs.Rows.{part_in};
ghost use Rattle.queue_inject.specs.Stands.{Stands};
ghost use Rattle.fed_injector.specs.Inputs.{IsInput, AreInputs, IsNoInput};

use queue_inject::{Injector, Part};

/// Feeds an injector as much as it asks for now, of this message and this envelope.
pub fn feed(injector: &mut Injector, message: &[u8], envelope: &[u8])
    ensures stands { (args : Arguments) (past : List Own) → AreInputs args message.now envelope.now
        → Stands injector.old args past → Stands injector.new args past }
    ensures full { room_of injector.new ≡ 0 }
{
    match injector.asks() {
        None => {}
        Some(Part::Message) => feed_text(injector, message),
        Some(Part::Envelope) => feed_text(injector, envelope),
    }
}

/// Feeds an injector as much as it asks for now, of this text, and tells it the end.
fn feed_text(injector: &mut Injector, text: &[u8])
    ensures stands { (args : Arguments) (past : List Own) → IsInput (part_in injector.old.row) args text.now
        → Stands injector.old args past → Stands injector.new args past }
    ensures full { room_of injector.new ≡ 0 }
{
    let rest = &text[injector.fed().min(text.len())..];
    let count = rest.len().min(injector.room());
    injector.feed(&rest[..count]);
    if count == rest.len() {
        injector.end_input();
    }
}

/// Tells an injector that its input has ended before its first byte.
pub fn cut(injector: &mut Injector)
    ensures stands { (args : Arguments) (past : List Own) → IsNoInput args
        → Stands injector.old args past → Stands injector.new args past }
    ensures full { room_of injector.new ≡ 0 }
{
    injector.fail_input(false);
}
