// A gate that watches the lock of a sender.

use host_streams::{MemberLock, WriterSink};
use outside::{Gate, Sink};
use std::cell::Cell;

/// The line of a sender whose lock lost its name.
const REPLACED: &[u8] = b"send: lock/send was replaced\n";

/// Another gate, which looks at each pause whether the lock's path still leads to the file that is locked. If it doesn't, standard
/// error gets one line.
#[derive(Drop)]
pub(crate) struct WatchingGate<'a, G: Gate + Drop> {
    rt: HostRuntime,
    gate: G,
    lock: &'a MemberLock,
    is_told: Cell<bool>,
}

impl<'a, G: Gate + Drop> WatchingGate<'a, G> {
    /// This gate, of a sender with this lock.
    pub(crate) fn new(rt: &HostRuntime, gate: G, lock: &'a MemberLock) -> Self {
        WatchingGate {
            rt: *rt,
            gate,
            lock,
            is_told: Cell::new(false),
        }
    }
}

impl<'a, G: Gate + Drop> Gate for WatchingGate<'a, G> {
    fn pause(&self, mail: u64, step: u64) {
        self.gate.pause(mail, step);
        if !self.is_told.get() && self.lock.is_replaced(&self.rt) {
            self.is_told.set(true);
            let _given = WriterSink::new(self.rt.stderr()).give(REPLACED);
        }
    }
}
