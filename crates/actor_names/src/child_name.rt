// The names of children.
ghost use Rattle.std.specs.Prelude.{◌≡◌, ◌∷◌};
ghost use Rattle.mail_bytes.specs.Decimal.{digits};
ghost use Rattle.actor_names.specs.ChildNames.{bounce_name, delivery_name, forward_of};

use crate::ActorName;
use mail_bytes::dec;

/// The name of the injector of the bounce of this number: `b.` and the number in decimal.
pub fn bounce_name(number: u64) -> ActorName
    ensures { result ≡ bounce_name number }
{
    numbered(b'b', number)
}

/// The name of the local delivery of this number: `l.` and the number in decimal.
pub fn delivery_name(number: u64) -> ActorName
    ensures { result ≡ delivery_name number }
{
    numbered(b'l', number)
}

/// The name of the injector of what the delivery of this name forwards: that of `l.7` is `f.7`.
pub fn forward_of(delivery: &ActorName) -> ActorName
    ensures { result ≡ forward_of delivery.now }
{
    delivery.with_first(b'f')
}

/// A letter, a dot, and the number in decimal.
fn numbered(letter: u8, number: u64) -> ActorName
    ensures { result ≡ letter ∷ 46 ∷ digits number }
{
    let mut digits = [0; 20];
    let len = dec(number, &mut digits);
    let mut bytes = [0; 22];
    bytes[..2].copy_from_slice(&[letter, b'.']);
    bytes[2..len + 2].copy_from_slice(&digits[..len]);
    ActorName::of(&bytes[..len + 2]).unwrap()
}
