//! The first line of a message file, and its date.
ghost use Rattle.std.specs.Prelude.{◌≡◌, ◌+◌, ◌-◌, ◌/◌, ◌%◌, ◌<◌, ◌++◌, ◌∷◌, codes, unsigned_abs, IfOk, OnOk};
ghost use Rattle.mail_bytes.specs.Decimal.{digits};
ghost use Rattle.mail_bytes.specs.Moments.{IsMoment};
ghost use Rattle.received_line.specs.Received.{day_of, month_name, two, four, date_text, invoked_text, received_text};

use itoa::Buffer;
use jiff::Timestamp;
use jiff::civil::DateTime;
use jiff::tz::Offset;
use mail_bytes::Memory;
use std::alloc::Global;

/// By whom an injector was invoked, or for what.
#[derive(Clone, Copy, PartialEq, Eq)]
pub enum Invoked {
    /// By this user.
    Uid(u32),
    /// For a bounce.
    Bounce,
}

/// The date of a moment in UTC, as `1 Jan 1970 00:00:00 -0000`. The condition: a clock may tell the moment. Fails only
/// if memory runs out.
pub fn date(alloc: Global, moment: u64) -> Result<Vec<u8>, Memory>
    requires { IsMoment moment }
    ensures { IfOk result (λ v. v.items ≡ date_text moment) }
{
    let mut text = Vec::new(alloc);
    put_date(&mut text, moment)?;
    Ok(text)
}

/// The first line of a message file with its newline, as `Received: (qmail 77 invoked by uid 1000); DATE`: who put the
/// message into the queue, and when. The condition: a clock may tell the moment. Fails only if memory runs out.
pub fn received(alloc: Global, pid: u32, invoked: Invoked, moment: u64) -> Result<Vec<u8>, Memory>
    requires { IsMoment moment }
    ensures { IfOk result (λ v. v.items ≡ received_text pid invoked moment) }
{
    let mut line = Vec::from_slice(alloc, b"Received: (qmail ")?;
    put_number(&mut line, pid)?;
    line.extend_from_slice(b" invoked ")?;
    put_invoked(&mut line, invoked)?;
    line.extend_from_slice(b"); ")?;
    put_date(&mut line, moment)?;
    line.push(b'\n')?;
    Ok(line)
}

/// Puts by whom, or for what, the injector was invoked at the end.
fn put_invoked(text: &mut Vec<u8>, invoked: Invoked) -> Result<(), Memory>
    ensures { OnOk result (text.new.items ≡ text.old.items ++ invoked_text invoked) }
{
    match invoked {
        Invoked::Uid(uid) => {
            text.extend_from_slice(b"by uid ")?;
            put_number(text, uid)
        }
        Invoked::Bounce => text.extend_from_slice(b"for bounce"),
    }
}

/// Puts the date and the time of a moment in UTC at the end.
fn put_date(text: &mut Vec<u8>, moment: u64) -> Result<(), Memory>
    requires { IsMoment moment }
    ensures { OnOk result (text.new.items ≡ text.old.items ++ date_text moment) }
{
    let utc = in_utc(moment);
    put_day(text, utc)?;
    put_clock(text, utc)
}

/// What a calendar and a clock in UTC show.
fn in_utc(moment: u64) -> DateTime
    requires { IsMoment moment }
    ensures day { day_of moment ≡ record {
      year = unsigned_abs result.date.year;
      month = result.date.month - 1;
      day = result.date.day - 1;
    } }
    ensures hour { result.time.hour ≡ moment % 86400 / 3600 }
    ensures minute { result.time.minute ≡ moment % 3600 / 60 }
    ensures second { result.time.second ≡ moment % 60 }
{
    Offset::UTC.to_datetime(Timestamp::from_second(moment as i64).unwrap())
}

/// Puts the day, the month and the year at the end: `1 Jan 1970`.
fn put_day(text: &mut Vec<u8>, utc: DateTime) -> Result<(), Memory>
    ensures { OnOk result (text.new.items ≡ text.old.items ++ (digits utc.date.day
        ++ (32 ∷ (month_name (utc.date.month - 1) ++ (32 ∷ four (unsigned_abs utc.date.year)))))) }
{
    let year = utc.year().unsigned_abs();
    put_number(text, u32::from(utc.day().unsigned_abs()))?;
    text.push(b' ')?;
    text.extend_from_slice(month_name(utc.month().unsigned_abs() - 1))?;
    text.push(b' ')?;
    put_two(text, (year / 100) as u8)?;
    put_two(text, (year % 100) as u8)
}

/// Puts a space, the time and the zone at the end: ` 00:00:00 -0000`.
fn put_clock(text: &mut Vec<u8>, utc: DateTime) -> Result<(), Memory>
    ensures { OnOk result (text.new.items ≡ text.old.items ++ (32 ∷ (two utc.time.hour
        ++ (58 ∷ (two utc.time.minute ++ (58 ∷ (two utc.time.second ++ codes " -0000"))))))) }
{
    text.push(b' ')?;
    put_two(text, utc.hour().unsigned_abs())?;
    text.push(b':')?;
    put_two(text, utc.minute().unsigned_abs())?;
    text.push(b':')?;
    put_two(text, utc.second().unsigned_abs())?;
    text.extend_from_slice(b" -0000")
}

/// Puts a number in two digits at the end. The condition: it has no more.
fn put_two(text: &mut Vec<u8>, number: u8) -> Result<(), Memory>
    requires { number < 100 }
    ensures { OnOk result (text.new.items ≡ text.old.items ++ two number) }
{
    text.extend_from_slice(&[b'0' + number / 10, b'0' + number % 10])
}

/// Puts a decimal number at the end.
fn put_number(text: &mut Vec<u8>, number: u32) -> Result<(), Memory>
    ensures { OnOk result (text.new.items ≡ text.old.items ++ digits number) }
{
    let mut buffer = Buffer::new();
    text.extend_from_slice(buffer.format(number).as_bytes())
}

/// Of months counted from 0.
fn month_name(month: u8) -> &'static [u8]
    requires { month < 12 }
    ensures { result.now ≡ month_name month }
{
    match month {
        0 => b"Jan",
        1 => b"Feb",
        2 => b"Mar",
        3 => b"Apr",
        4 => b"May",
        5 => b"Jun",
        6 => b"Jul",
        7 => b"Aug",
        8 => b"Sep",
        9 => b"Oct",
        10 => b"Nov",
        _ => b"Dec",
    }
}
