// Reports, byte by byte.
ghost use Rattle.std.specs.Prelude.{◌≡◌, ◌++◌, ◌∷◌, [], ℕ, List, All, IfOk, OnOk, OnErr};
ghost use Rattle.spawn_protocol.specs.Report.{Reader, HasRead, IsReport, IsKept, kept, more_text, numbered, read_on, report_text, step};
ghost use Rattle.spawn_protocol.specs.Report.Reader.{AtBegin};
ghost use Rattle.spawn_protocol.specs.declared.report.Report.{Report};

use mail_bytes::{ByteText, Memory};
use std::alloc::Global;
use std::marker::Model;
use std::mem::replace;

/// What became of a delivery.
#[derive(Drop)]
pub struct Report {
    /// The delivery number.
    pub slot: u8,
    /// The letter as it came; 0 if the report has none.
    pub letter: u8,
    /// What the report says.
    pub text: ByteText,
}

impl Report {
    ghost use Rattle.std.specs.Prelude.{◌≡◌};
    ghost use Rattle.spawn_protocol.specs.Report.{counted};

    /// What its letter counts as: `K` for success, `D` for failure, and `Z`, for a later try, with any other letter and
    /// with none.
    pub fn counts_as(&self) -> u8
        ensures { result ≡ counted self.now.letter }
    {
        match self.letter {
            b'K' | b'D' => self.letter,
            _ => b'Z',
        }
    }
}

/// What bytes of a link tell: the reports that they end, in order, and a reader of what comes next.
#[derive(Drop)]
pub struct Heard {
    /// The reports.
    pub reports: Vec<Report>,
    /// A reader of what comes next.
    pub reader: ReportReader,
}

/// Where a reader stands.
#[derive(Clone, Copy)]
enum Place {
    Begin,
    AtLetter,
    InText,
}

/// Reads reports byte by byte, and keeps at most 10,000 bytes of each.
#[derive(Drop)]
pub struct ReportReader {
    place: Place,
    slot: u8,
    letter: u8,
    begun: ByteText,
}

impl Model for ReportReader {
    ghost use Rattle.spawn_protocol.specs.Report.{Reader, standing};

    ghost Value = { Reader };

    ghost view = { λ r. standing r.place r.slot r.letter r.begun };
}

impl ReportReader {
    ghost use Rattle.std.specs.Prelude.{◌≡◌, ◌++◌, [], ℕ, List, IfOk, OnErr};
    ghost use Rattle.spawn_protocol.specs.Report.{HasRead, Takes, eaten, given, read_on};
    ghost use Rattle.spawn_protocol.specs.Report.Reader.{AtBegin};
    ghost use Rattle.spawn_protocol.specs.declared.report.Report.{Report};

    /// A reader of no bytes yet. Takes no memory.
    pub fn new(alloc: Global) -> Self
        ensures read { HasRead [] [] result }
        ensures begins { result ≡ AtBegin }
    {
        ReportReader {
            place: Place::Begin,
            slot: 0,
            letter: 0,
            begun: ByteText::new(alloc),
        }
    }

    /// Takes the next byte, and gives the report that it ended, if it ended one. What goes past a report's 10,000th
    /// byte is dropped, so that at most 9,998 bytes of text stay. After an `Err` the reader is as before, and the byte
    /// isn't taken.
    pub fn feed(&mut self, alloc: Global, byte: u8) -> Result<Option<Report>, Memory>
        ensures read { (bytes : List ℕ) (reports : List Report) → HasRead bytes reports self.old
            → HasRead (bytes ++ eaten result byte) (reports ++ given result) self.new }
        ensures takes { Takes self.old byte result self.new }
        ensures memory { OnErr result (self.new ≡ self.old) }
    {
        self.advance(alloc, byte)
    }

    /// The same reader. The error: out of memory.
    pub fn copy(&self, alloc: Global) -> Result<Self, Memory>
        ensures { IfOk result (λ copy. copy ≡ self.now) }
    {
        Ok(ReportReader {
            place: self.place,
            slot: self.slot,
            letter: self.letter,
            begun: ByteText::from_slice(alloc, self.begun.as_slice())?,
        })
    }

    /// What these bytes tell a reader that stands here. The reader itself takes none of them.
    pub fn hear(&self, alloc: Global, bytes: &[u8]) -> Result<Heard, Memory>
        ensures reports { IfOk result (λ heard. heard.reports.items ≡ (read_on self.now bytes.now).0) }
        ensures reader { IfOk result (λ heard. heard.reader ≡ (read_on self.now bytes.now).1) }
    {
        let mut reader = self.copy(alloc)?;
        let mut reports = Vec::new(alloc);
        for byte in bytes {
            hear_byte(&mut reader, &mut reports, alloc, *byte)?;
        }
        Ok(Heard { reports, reader })
    }

    /// Each place with the bytes that lead on from it.
    fn advance(&mut self, alloc: Global, byte: u8) -> Result<Option<Report>, Memory>
        ensures { Takes self.old byte result self.new }
    {
        match (self.place, byte) {
            (Place::Begin, _) => {
                self.slot = byte;
                self.place = Place::AtLetter;
                Ok(None)
            }
            (Place::AtLetter, 0) => {
                self.place = Place::Begin;
                Ok(Some(Report {
                    slot: self.slot,
                    letter: 0,
                    text: ByteText::new(alloc),
                }))
            }
            (Place::AtLetter, _) => {
                self.letter = byte;
                self.begun = ByteText::new(alloc);
                self.place = Place::InText;
                Ok(None)
            }
            (Place::InText, 0) => {
                self.place = Place::Begin;
                Ok(Some(Report {
                    slot: self.slot,
                    letter: self.letter,
                    text: replace(&mut self.begun, ByteText::new(alloc)),
                }))
            }
            (Place::InText, _) => {
                put_byte(&mut self.begun, byte)?;
                Ok(None)
            }
        }
    }
}

/// Takes a byte, and puts the report that it ended at the end.
fn hear_byte(
    reader: &mut ReportReader,
    reports: &mut Vec<Report>,
    alloc: Global,
    byte: u8,
) -> Result<(), Memory>
    ensures reports { OnOk result (reports.new.items ≡ reports.old.items ++ (step reader.old byte).0) }
    ensures reader { OnOk result (reader.new ≡ (step reader.old byte).1) }
{
    if let Some(report) = reader.feed(alloc, byte)? {
        reports.push(report)?;
    }
    Ok(())
}

/// A byte of text, kept while there is room.
fn put_byte(text: &mut ByteText, byte: u8) -> Result<(), Memory>
    ensures ok { OnOk result (text.new ≡ more_text text.old byte) }
    ensures err { OnErr result (text.new ≡ text.old) }
{
    if text.len() >= 9998 {
        return Ok(());
    }
    text.extend(&[byte])
}

/// The text of a report, whole, however long it is. Fails only when out of memory.
pub fn report_text(alloc: Global, report: &Report) -> Result<Vec<u8>, Memory>
    ensures { IfOk result (λ text. text.items ≡ report_text report.now) }
{
    let mut text = Vec::new(alloc);
    text.push(report.slot)?;
    if report.letter != 0 {
        text.push(report.letter)?;
        text.extend_from_slice(report.text.as_slice())?;
    }
    text.push(0)?;
    Ok(text)
}

/// The bytes of a delivery's report whose letter and text are given as one. Fails only when out of memory.
pub fn numbered(alloc: Global, slot: u8, report: &[u8]) -> Result<ByteText, Memory>
    ensures { IfOk result (λ text. text ≡ numbered slot report.now) }
{
    let mut text = ByteText::from_slice(alloc, &[slot])?;
    text.extend(report)?;
    text.extend(&[0])?;
    Ok(text)
}
