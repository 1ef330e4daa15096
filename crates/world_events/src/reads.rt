// What a call brings, kept in room that was taken before it.
ghost use Rattle.std.specs.Prelude.{◌≡◌, ◌≤◌, [], IfOk, length, vec_len, vec_capacity};
ghost use Rattle.call_fs.specs.Calls.{told_with, data_of};
ghost use Rattle.call_fs.specs.Kept.{HasRoomForName};
ghost use Rattle.world_events.specs.Reads.{most_brought, HasFew};

use call_fs::{Answer, Call, KeptAnswer, PIECE, Told};
use mail_bytes::{ByteText, Memory};
use std::alloc::Global;

/// Room for what a call may bring: for the bytes of a read, or for a name. The error: out of memory.
pub fn room_for(alloc: Global, call: Call<'_>) -> Result<Vec<u8>, Memory>
    ensures empty { IfOk result (λ room. room.items ≡ []) }
    ensures len { IfOk result (λ room. vec_len room ≡ 0) }
    ensures room { IfOk result (λ room. vec_capacity room ≡ most_brought (data_of call.entry)) }
{
    let most = match call {
        Call::ReadAt(_, _, len) => len as usize,
        Call::NextName(..) => 255,
        _ => 0,
    };
    Vec::with_capacity(alloc, most)
}

/// An answer in this room, with the bytes of a read, which stand at the beginning of the buffer. What is left of the room is given
/// back. Takes no memory. The conditions: the room is empty, and what came has room there and in the buffer.
pub fn told_in(alloc: Global, room: Vec<u8>, answer: &Answer, buffer: &[u8; PIECE]) -> Told
    requires empty { room.items ≡ [] }
    requires len { vec_len room ≡ 0 }
    requires few { HasFew (vec_capacity room) answer.now }
    requires name { HasRoomForName (vec_capacity room) answer.now }
    ensures { result ≡ told_with answer.now buffer.now }
{
    match answer {
        Answer::Count(count) => Told {
            answer: KeptAnswer::in_room(Vec::new(alloc), answer),
            bytes: filled(room, &buffer[..*count as usize]),
        },
        _ => Told {
            answer: KeptAnswer::in_room(room, answer),
            bytes: ByteText::new(alloc),
        },
    }
}

/// These bytes in this room, of which it leaves nothing over. Takes no memory. The conditions: the room is empty, and has place for them.
fn filled(mut room: Vec<u8>, bytes: &[u8]) -> ByteText
    requires empty { room.items ≡ [] }
    requires len { vec_len room ≡ 0 }
    requires place { length bytes.now ≤ vec_capacity room }
    ensures { result ≡ bytes.now }
{
    room.extend_from_slice(bytes).unwrap();
    room.shrink_to_fit();
    ByteText::from_vec(room)
}
