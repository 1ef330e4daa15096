// What became of each mail and of its recipients.
ghost use Rattle.std.specs.Prelude.{◌≡◌, ◌++◌, IfOk, OnOk, map};
ghost use Rattle.std.specs.Option.{option_copied};
ghost use Rattle.mem_fs.specs.MemDisk.{disk_of};
ghost use Rattle.queue_law.specs.Books.{Books};
ghost use Rattle.script_disks.specs.Records.{AreNoted};
ghost use Rattle.script_fates.specs.Fates.{AreFates, IsUsed, spot_of};
ghost use Rattle.scenario.specs.Shown.{ending_of, entry_lines, failed_fate, fate_of, fates_of, is_delivered, is_queued, lasting, routes_by, sorted_fates};
ghost use Rattle.scenario.specs.Viewed.{view_at};

use address_rules::Controls;
use mail_bytes::{ByteText, Memory};
use mail_world::Entry;
use mem_fs::MemFs;
use queue_paths::Name;
use script_disks::{Routed, is_among, is_either, is_unmarked, noted_on, routes_of};
use script_fates::{Fates, Spot};
use script_traces::{RecipientFate, alike, put_fates, put_life};
use std::alloc::Global;

/// What is read of a world to tell what became of each mail.
#[derive(Clone, Copy)]
pub struct Overview<'a> {
    /// Its disk.
    pub disk: &'a MemFs,
    /// What its events say.
    pub fates: &'a Fates,
}

impl Overview<'_> {
    /// Puts the lines of a mail at the end of a text, by its entry in the books and by its envelope.
    pub fn put_mail(
        &self,
        alloc: Global,
        text: &mut Vec<u8>,
        entry: &Entry,
        envelope: &[u8],
    ) -> Result<(), Memory>
        ensures { (books : Books) → AreFates self.now.fates.now books → IsUsed entry.now.number
            → OnOk result (text.new.items ≡ text.old.items ++ entry_lines (view_at self.now books) entry.now envelope.now) }
    {
        put_life(text, entry.actor.as_slice(), entry.life)?;
        let fates = self.fates_of(alloc, entry, envelope)?;
        put_fates(text, entry.actor.as_slice(), &fates)
    }

    /// What became of each recipient of a mail, by its entry in the books and by its envelope; one that wasn't accepted has none.
    pub fn fates_of(
        &self,
        alloc: Global,
        entry: &Entry,
        envelope: &[u8],
    ) -> Result<Vec<RecipientFate>, Memory>
        ensures { (books : Books) → AreFates self.now.fates.now books → IsUsed entry.now.number
            → IfOk result (λ fates. fates.items ≡ fates_of (view_at self.now books) entry.now envelope.now) }
    {
        if !entry.accepted {
            Ok(Vec::new(alloc))
        } else if self.is_queued(self.lasting(entry.actor.as_slice(), entry.number)) {
            alike(alloc, RecipientFate::Pending, entry.recipients)
        } else {
            self.sorted_fates(alloc, entry, envelope)
        }
    }

    /// The same, of an accepted mail that todo doesn't hold.
    fn sorted_fates(
        &self,
        alloc: Global,
        entry: &Entry,
        envelope: &[u8],
    ) -> Result<Vec<RecipientFate>, Memory>
        ensures { (books : Books) → AreFates self.now.fates.now books → IsUsed entry.now.number
            → IfOk result (λ fates. fates.items ≡ sorted_fates (view_at self.now books) entry.now (routes_by books entry.now.actor entry.now.number) envelope.now) }
    {
        match self.routes(entry.actor.as_slice(), entry.number) {
            None => alike(alloc, RecipientFate::Dropped, entry.recipients),
            Some(controls) => {
                let mail = entry.actor.as_slice();
                let noted = noted_on(alloc, self.disk, self.lasting(mail, entry.number))?;
                let routes = routes_of(alloc, controls, envelope)?;
                self.routed_fates(alloc, entry, &noted, &routes, failed_fate(envelope))
            }
        }
    }

    /// What became of each of these recipients of a mail, with the names of which its bounce file has notes, and with what became of one
    /// that failed and isn't noted.
    fn routed_fates(
        &self,
        alloc: Global,
        entry: &Entry,
        noted: &[ByteText],
        routes: &[Routed],
        failed: RecipientFate,
    ) -> Result<Vec<RecipientFate>, Memory>
        ensures { (books : Books) → AreFates self.now.fates.now books → IsUsed entry.now.number
            → AreNoted (disk_of self.now.disk.now.held) (lasting books entry.now.actor entry.now.number) noted.now
            → IfOk result (λ fates. fates.items ≡ map (fate_of (view_at self.now books) entry.now.actor entry.now.number failed) routes.now) }
    {
        let mail = entry.actor.as_slice();
        let mut fates = Vec::new(alloc);
        for route in routes {
            fates.push(self.fate(mail, entry.number, noted, route, failed))?;
        }
        Ok(fates)
    }

    /// What became of a recipient of a mail that isn't in todo, with what became of one that failed and isn't noted.
    fn fate(
        &self,
        mail: &[u8],
        number: Option<u64>,
        noted: &[ByteText],
        route: &Routed,
        failed: RecipientFate,
    ) -> RecipientFate
        ensures { (books : Books) → AreFates self.now.fates.now books → IsUsed number
            → AreNoted (disk_of self.now.disk.now.held) (lasting books mail.now number) noted.now
            → result ≡ fate_of (view_at self.now books) mail.now number failed route.now }
    {
        if is_unmarked(self.disk, self.lasting(mail, number), route) {
            RecipientFate::Pending
        } else {
            self.ending(mail, number, noted, route, failed)
        }
    }

    /// The same, if its record doesn't read `T`.
    fn ending(
        &self,
        mail: &[u8],
        number: Option<u64>,
        noted: &[ByteText],
        route: &Routed,
        failed: RecipientFate,
    ) -> RecipientFate
        ensures { (books : Books) → AreFates self.now.fates.now books → IsUsed number
            → AreNoted (disk_of self.now.disk.now.held) (lasting books mail.now number) noted.now
            → result ≡ ending_of (view_at self.now books) mail.now number failed route.now }
    {
        let spot = Spot {
            channel: route.channel,
            place: route.place,
        };
        if self.is_delivered(mail, number, spot) {
            RecipientFate::Delivered
        } else if is_among(noted, route.name.as_slice()) {
            RecipientFate::Noted
        } else {
            failed
        }
    }

    /// The number of the message of a mail, as long as no other mail's message has it.
    fn lasting(&self, mail: &[u8], number: Option<u64>) -> Option<u64>
        ensures { (books : Books) → AreFates self.now.fates.now books → IsUsed number → result ≡ lasting books mail.now number }
    {
        match number {
            Some(n) if self.fates.lasts(n, mail) => Some(n),
            _ => None,
        }
    }

    /// Whether a report was taken that this recipient of a mail was delivered to.
    fn is_delivered(&self, mail: &[u8], number: Option<u64>, spot: Spot) -> bool
        ensures { (books : Books) → AreFates self.now.fates.now books → IsUsed number → result ≡ is_delivered books mail.now number (spot_of spot) }
    {
        match number {
            Some(n) => self.fates.is_delivered(n, mail, spot),
            None => false,
        }
    }

    /// By which control files the recipients of a mail are routed, by its number.
    fn routes(&self, mail: &[u8], number: Option<u64>) -> Option<&Controls>
        ensures { (books : Books) → AreFates self.now.fates.now books → IsUsed number → option_copied result ≡ routes_by books mail.now number }
    {
        match number {
            Some(n) => self.fates.routes(n, mail),
            None => None,
        }
    }

    /// Whether todo holds the message of this number.
    fn is_queued(&self, number: Option<u64>) -> bool
        ensures { result ≡ is_queued (disk_of self.now.disk.now.held) number }
    {
        match number {
            Some(n) => is_either(self.disk, Name::Todo(n), Name::SplitTodo(n)),
            None => false,
        }
    }
}

/// What became of a recipient that failed and isn't noted, by the envelope of its mail: a bounce of the mail was injected, but that of
/// a double bounce is dropped.
fn failed_fate(envelope: &[u8]) -> RecipientFate
    ensures { result ≡ failed_fate envelope.now }
{
    if envelope.starts_with(b"F#@[]\0") {
        RecipientFate::Dropped
    } else {
        RecipientFate::Bounced
    }
}
