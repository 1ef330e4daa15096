// Reading a package, a step at a time.
ghost use Rattle.std.specs.Prelude.{◌≡◌, ◌≢◌, ◌<◌, ◌∷◌, [], ℕ, List, take, true, false};
ghost use Rattle.qmqp_server.specs.inside.Places.{IsNulIn, IsSpoiled, PassesOver, Steps, is_over, left_of};

use crate::heads::{Comma, take_comma};
use crate::reader::{Inner, Next, PackageFault, Place, Reader, take_inner};
use call_fs::PIECE;
use outside::{Source, Took};
use program_runner::take;

/// Reads on, and answers what an injector that asks for it is given of that: at most so many bytes. The conditions: it
/// isn't over, and some bytes may be given.
pub fn next<S: Source>(
    reader: &mut Reader,
    source: &mut S,
    most: usize,
    buffer: &mut [u8; PIECE],
) -> Next
    requires going { is_over reader.old ≡ false }
    requires some { 0 < most }
    ensures steps { Steps result reader.old reader.new most
        (record { old = S.left source.old; new = S.left source.new; faults_old = S.faults source.old; faults_new = S.faults source.new }) buffer.new }
    ensures nearer { left_of reader.new < left_of reader.old }
{
    match reader.place {
        Place::Message { left } => {
            if left > 0 {
                message_bytes(reader, source, left, most, buffer)
            } else {
                message_comma(reader, source)
            }
        }
        Place::Between => {
            if reader.rest == 0 && reader.letter == b'T' {
                last_comma(reader, source, buffer)
            } else {
                address_head(reader, source, buffer)
            }
        }
        Place::Address { left } => {
            if left > 0 {
                address_bytes(reader, source, left, most, buffer)
            } else {
                address_comma(reader, source, buffer)
            }
        }
        Place::Over | Place::Broken(_) => unreachable!(),
    }
}

/// Reads bytes of the message, of which so many are left.
fn message_bytes<S: Source>(
    reader: &mut Reader,
    source: &mut S,
    left: u64,
    most: usize,
    buffer: &mut [u8; PIECE],
) -> Next
    requires at { reader.old.place ≡ Place.Message left }
    requires more { 0 < left }
    requires some { 0 < most }
    ensures steps { Steps result reader.old reader.new most
        (record { old = S.left source.old; new = S.left source.new; faults_old = S.faults source.old; faults_new = S.faults source.new }) buffer.new }
    ensures nearer { left_of reader.new < left_of reader.old }
{
    let few = left.min(most as u64) as usize;
    match take(source, few, buffer) {
        Took::Got(count) => {
            reader.place = Place::Message {
                left: left - count as u64,
            };
            Next::Bytes(count)
        }
        Took::End | Took::Failed => breaks(reader, PackageFault::Cut),
    }
}

/// Reads the comma of the message.
fn message_comma<S: Source>(reader: &mut Reader, source: &mut S) -> Next
    requires { reader.old.place ≡ Place.Message 0 }
    ensures steps { (most : ℕ) (buffer : List ℕ) → Steps result reader.old reader.new most
        (record { old = S.left source.old; new = S.left source.new; faults_old = S.faults source.old; faults_new = S.faults source.new }) buffer }
    ensures nearer { left_of reader.new < left_of reader.old }
{
    match take_comma(source) {
        Comma::Right => {
            reader.place = Place::Between;
            Next::MessageOver
        }
        Comma::Wrong => breaks(reader, PackageFault::Malformed),
        Comma::Cut => breaks(reader, PackageFault::Cut),
    }
}

/// Reads the last comma.
fn last_comma<S: Source>(reader: &mut Reader, source: &mut S, buffer: &mut [u8; PIECE]) -> Next
    requires at { reader.old.place ≡ Place.Between }
    requires over { reader.old.rest ≡ 0 }
    requires two { reader.old.letter ≡ 84 }
    ensures steps { (most : ℕ) → 0 < most → Steps result reader.old reader.new most
        (record { old = S.left source.old; new = S.left source.new; faults_old = S.faults source.old; faults_new = S.faults source.new }) buffer.new }
    ensures nearer { left_of reader.new < left_of reader.old }
{
    match take_comma(source) {
        Comma::Right => {
            reader.place = Place::Over;
            set_first(buffer, 0);
            Next::Bytes(1)
        }
        Comma::Wrong => breaks(reader, PackageFault::Malformed),
        Comma::Cut => breaks(reader, PackageFault::Cut),
    }
}

/// Reads the head of an address.
fn address_head<S: Source>(reader: &mut Reader, source: &mut S, buffer: &mut [u8; PIECE]) -> Next
    requires at { reader.old.place ≡ Place.Between }
    requires more { reader.old.rest ≡ 0 → reader.old.letter ≢ 84 }
    ensures steps { (most : ℕ) → 0 < most → Steps result reader.old reader.new most
        (record { old = S.left source.old; new = S.left source.new; faults_old = S.faults source.old; faults_new = S.faults source.new }) buffer.new }
    ensures nearer { left_of reader.new < left_of reader.old }
{
    match take_inner(source, reader.rest) {
        Inner::Netstring { value, rest } => {
            reader.place = Place::Address { left: value };
            reader.rest = rest;
            set_first(buffer, reader.letter);
            Next::Bytes(1)
        }
        Inner::Broken(fault) => breaks(reader, fault),
    }
}

/// Reads bytes of an address, of which so many are left.
fn address_bytes<S: Source>(
    reader: &mut Reader,
    source: &mut S,
    left: u64,
    most: usize,
    buffer: &mut [u8; PIECE],
) -> Next
    requires at { reader.old.place ≡ Place.Address left }
    requires more { 0 < left }
    requires some { 0 < most }
    ensures steps { Steps result reader.old reader.new most
        (record { old = S.left source.old; new = S.left source.new; faults_old = S.faults source.old; faults_new = S.faults source.new }) buffer.new }
    ensures nearer { left_of reader.new < left_of reader.old }
{
    let few = left.min(most as u64) as usize;
    match take(source, few, buffer) {
        Took::Got(count) => {
            reader.place = Place::Address {
                left: left - count as u64,
            };
            if spoils(reader.has_nul, &buffer[..count]) {
                reader.has_nul = true;
                Next::Nothing
            } else {
                Next::Bytes(count)
            }
        }
        Took::End | Took::Failed => breaks(reader, PackageFault::Cut),
    }
}

/// Reads the comma of an address.
fn address_comma<S: Source>(reader: &mut Reader, source: &mut S, buffer: &mut [u8; PIECE]) -> Next
    requires { reader.old.place ≡ Place.Address 0 }
    ensures steps { (most : ℕ) → 0 < most → Steps result reader.old reader.new most
        (record { old = S.left source.old; new = S.left source.new; faults_old = S.faults source.old; faults_new = S.faults source.new }) buffer.new }
    ensures nearer { left_of reader.new < left_of reader.old }
{
    match take_comma(source) {
        Comma::Right => {
            reader.place = Place::Between;
            reader.letter = b'T';
            set_first(buffer, 0);
            Next::Bytes(1)
        }
        Comma::Wrong => breaks(reader, PackageFault::Malformed),
        Comma::Cut => breaks(reader, PackageFault::Cut),
    }
}

/// It is no package.
fn breaks(reader: &mut Reader, fault: PackageFault) -> Next
    ensures nothing { result ≡ Next.Nothing }
    ensures broken { reader.new ≡ record reader.old { place = Place.Broken fault } }
{
    reader.place = Place::Broken(fault);
    Next::Nothing
}

/// Reads the rest.
pub fn pass_over<S: Source>(reader: &mut Reader, source: &mut S)
    ensures over { is_over reader.new ≡ true }
    ensures passes { PassesOver reader.old reader.new
        (record { old = S.left source.old; new = S.left source.new; faults_old = S.faults source.old; faults_new = S.faults source.new }) }
{
    let mut buffer = [0; PIECE];
    while !reader.is_over() {
        next(reader, source, PIECE, &mut buffer);
    }
}

/// Puts this byte at the start of a buffer.
#[tactic(auto, using(crate::proofs::Buffers::first_set))]
fn set_first(buffer: &mut [u8; PIECE], byte: u8)
    ensures { take 1 buffer.new ≡ byte ∷ [] }
{
    buffer[0] = byte;
}

/// Whether a NUL is in an address: it was there before these bytes of it, or is among them.
fn spoils(had: bool, bytes: &[u8]) -> bool
    ensures { IsSpoiled result had bytes.now }
{
    if had { true } else { has_nul(bytes) }
}

/// Whether a NUL is among these bytes.
fn has_nul(bytes: &[u8]) -> bool
    ensures { IsNulIn result bytes.now }
{
    bytes.contains(&0)
}
