// The link and the files of a channel.
ghost use Rattle.std.specs.Prelude.{◌≡◌};
ghost use Rattle.send_parts.specs.Channels.{file_of, port_of};

use call_fs::Port;
use queue_paths::Name;
use send_known::Channel;

/// The port of the spawner of a channel.
pub fn port_of(channel: Channel) -> Port
    ensures { result ≡ port_of channel }
{
    match channel {
        Channel::Local => Port::Lspawn,
        Channel::Remote => Port::Rspawn,
    }
}

/// The channel file of a message.
pub fn file_of(channel: Channel, n: u64) -> Name
    ensures { result ≡ file_of channel n }
{
    match channel {
        Channel::Local => Name::Local(n),
        Channel::Remote => Name::Remote(n),
    }
}
