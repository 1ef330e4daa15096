// What a machine asks for, with bytes of its own.
ghost use Rattle.std.specs.Prelude.{◌≡◌, IfOk};
ghost use Rattle.call_fs.specs.Program.{due_of, child_data, words_data};

use call_fs::{CallData, Child, ChildData, DeliveryWords, DeliveryWordsData, Need, NeedData};
use mail_bytes::{ByteText, Memory, OnHeap};
use std::alloc::Global;

/// What is asked for. The error: out of memory.
pub fn need_data(alloc: Global, need: Need<'_>) -> Result<NeedData, Memory>
    ensures { IfOk result (λ due. due ≡ due_of need.entry) }
{
    match need {
        Need::File(call) => Ok(NeedData::File(CallData::of(alloc, call)?)),
        Need::Take(port) => Ok(NeedData::Take(port)),
        Need::Give(port, bytes) => Ok(NeedData::Give(port, ByteText::from_slice(alloc, bytes)?)),
        Need::Start(child) => {
            let asked = child_data(alloc, child)?;
            Ok(NeedData::Start(OnHeap::new(alloc, asked)?))
        }
        Need::Command(bytes) => Ok(NeedData::Command(ByteText::from_slice(alloc, bytes)?)),
        Need::Wait => Ok(NeedData::Wait),
        Need::Ended(status) => Ok(NeedData::Ended(status)),
    }
}

/// A program that is to start.
fn child_data(alloc: Global, child: Child<'_>) -> Result<ChildData, Memory>
    ensures { IfOk result (λ asked. asked ≡ child_data child.entry) }
{
    match child {
        Child::Bounce { room } => Ok(ChildData::Bounce { room }),
        Child::Forward { uid, room } => Ok(ChildData::Forward { uid, room }),
        Child::Local { slot, words, uid } => {
            let words = words_data(alloc, words)?;
            Ok(ChildData::Local { slot, words, uid })
        }
        Child::Remote {
            slot,
            domain,
            sender,
            recipient,
        } => Ok(ChildData::Remote {
            slot,
            domain: ByteText::from_slice(alloc, domain)?,
            sender: ByteText::from_slice(alloc, sender)?,
            recipient: ByteText::from_slice(alloc, recipient)?,
        }),
    }
}

/// The words of a local delivery.
fn words_data(alloc: Global, words: DeliveryWords<'_>) -> Result<DeliveryWordsData, Memory>
    ensures { IfOk result (λ owned. owned ≡ words_data words.entry) }
{
    Ok(DeliveryWordsData {
        user: ByteText::from_slice(alloc, words.user)?,
        home: ByteText::from_slice(alloc, words.home)?,
        local: ByteText::from_slice(alloc, words.local)?,
        dash: ByteText::from_slice(alloc, words.dash)?,
        ext: ByteText::from_slice(alloc, words.ext)?,
        domain: ByteText::from_slice(alloc, words.domain)?,
        sender: ByteText::from_slice(alloc, words.sender)?,
        line: ByteText::from_slice(alloc, words.line)?,
    })
}
