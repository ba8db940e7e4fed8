//! Reads the records of a capture.
ghost use Rattle.std.specs.Prelude.{◌≡◌, ◌≤◌, ◌<◌, ◌+◌, ◌^◌, false, true, IfOk, OnOk, IsErrOf, IfSome, take, length, []};
ghost use Rattle.capture_file.specs.declared.reader.CapBad.TheVariants.{ReadFault};
ghost use Rattle.outside_io.specs.Causes.{HasReadCause, fault_by};
ghost use Rattle.outside_io.specs.Told.{Takes};
ghost use Rattle.block_source.specs.Block.{most_ahead};
ghost use Rattle.block_source.specs.Lending.{TakesLent, ReturnsLent};
ghost use Rattle.capture_file.specs.Reader.{ReaderState, new_reader};
ghost use Rattle.capture_file.specs.Reading.{ReadsNext, read_fault, offset_at, spent_by};
ghost use Rattle.capture_file.specs.Inside.Steps.{ReadsName, ReadsHead, ReadsBody, Enters, ReadsRecord};

use crate::Head;
use crate::head::{HEAD_LEN, head_of};
use block_source::Block;
use link_channels::MAX_DATAGRAM;
use outside_io::{Failed, Source, copy_front};
use std::fmt::{self, Display, Formatter, Write};
use std::marker::Model;

/// The first test that fails of what stands at an offset.
#[derive(Clone, Copy, Debug, PartialEq, Eq)]
pub enum CapKind {
    /// The name does not stand at the front.
    Magic,
    /// The head, or the octets that it says, end early.
    Truncated,
    /// The link is above 15.
    Link,
    /// The octet of the channel is above 2.
    Channel,
    /// The length is above 2,048 octets.
    Long,
    /// The record would end past 2^40 octets.
    TooLong,
}

impl Display for CapKind {
    ghost use Rattle.std.specs.Prelude.{Some};
    ghost use Rattle.capture_file.specs.Text.{kind_text};

    ghost output = { λ kind. Some (kind_text kind) };

    fn fmt<W: Write>(&self, f: &mut Formatter<W>) -> fmt::Result {
        f.write_str(match self {
            CapKind::Magic => "magic",
            CapKind::Truncated => "truncated",
            CapKind::Link => "link",
            CapKind::Channel => "channel",
            CapKind::Long => "long",
            CapKind::TooLong => "too long",
        })
    }
}

/// Why a reader gives no record: what stands at an offset is none, or the source failed.
#[derive(Clone, Copy, Debug, PartialEq, Eq)]
pub enum CapBad {
    /// This test fails of what stands at this offset, in octets.
    Bad(CapKind, u64),
    /// A read of the source failed.
    ReadFault,
}

impl Display for CapBad {
    ghost use Rattle.std.specs.Prelude.{Some};
    ghost use Rattle.capture_file.specs.Text.{bad_text};

    ghost output = { λ bad. Some (bad_text bad) };

    fn fmt<W: Write>(&self, f: &mut Formatter<W>) -> fmt::Result {
        match self {
            CapBad::Bad(kind, at) => write!(f, "{kind} at {at}"),
            CapBad::ReadFault => f.write_str("read failed"),
        }
    }
}

impl From<Failed> for CapBad {
    ghost use Rattle.capture_file.specs.declared.reader.CapBad.TheVariants.{ReadFault};

    ghost from_gives = { λ _ e. e ≡ ReadFault };

    fn from(_: Failed) -> Self {
        CapBad::ReadFault
    }
}

pub(crate) const MAGIC: [u8; 8] = *b"RISTCAP1";

// Takes the name.
fn begin<S: Source>(source: &mut Block<S>) -> Result<(), CapBad>
    ensures value { ReadsName source.old.remaining source.new.remaining result }
    ensures ahead { IsErrOf result ReadFault → source.new.ahead ≡ [] }
    ensures cause { HasReadCause (fault_by read_fault result) source.old.faults source.new.faults }
{
    let Ok(count) = source.take(MAGIC.len()) else {
        return Err(CapBad::ReadFault);
    };
    if count < MAGIC.len() {
        return Err(CapBad::Bad(CapKind::Magic, 0));
    }
    if source.taken() != MAGIC.as_slice() {
        return Err(CapBad::Bad(CapKind::Magic, 0));
    }
    Ok(())
}

// Takes the head of the record at this offset, if the source doesn't end here.
fn head_at<S: Source>(source: &mut Block<S>, at: u64) -> Result<Option<Head>, CapBad>
    ensures value { ReadsHead at source.old.remaining source.new.remaining result }
    ensures ahead { IsErrOf result ReadFault → source.new.ahead ≡ [] }
    ensures cause { HasReadCause (fault_by read_fault result) source.old.faults source.new.faults }
{
    let Ok(count) = source.take(HEAD_LEN) else {
        return Err(CapBad::ReadFault);
    };
    if count == 0 {
        return Ok(None);
    }
    if count < HEAD_LEN {
        return Err(CapBad::Bad(CapKind::Truncated, at));
    }
    match head_of(source.taken(), at) {
        Ok(head) => Ok(Some(head)),
        Err(kind) => Err(CapBad::Bad(kind, at)),
    }
}

// Takes the octets of the record at this offset, so many.
fn body<S: Source>(source: &mut Block<S>, at: u64, size: usize) -> Result<(), CapBad>
    requires { size ≤ most_ahead }
    ensures value { ReadsBody at size source.old.remaining source.new.remaining source.new.taken result }
    ensures size { OnOk result (length source.new.taken ≡ size) }
    ensures ahead { IsErrOf result ReadFault → source.new.ahead ≡ [] }
    ensures cause { HasReadCause (fault_by read_fault result) source.old.faults source.new.faults }
{
    let Ok(count) = source.take(size) else {
        return Err(CapBad::ReadFault);
    };
    if count < size {
        return Err(CapBad::Bad(CapKind::Truncated, at));
    }
    Ok(())
}

// Takes the name where a reader stands at 0, and says where its next record stands.
fn enter<S: Source>(source: &mut Block<S>, at: u64) -> Result<u64, CapBad>
    ensures value { Enters at source.old.remaining source.new.remaining result }
    ensures ahead { IsErrOf result ReadFault → source.new.ahead ≡ [] }
    ensures cause { HasReadCause (fault_by read_fault result) source.old.faults source.new.faults }
{
    if at != 0 {
        return Ok(at);
    }
    match begin(source) {
        Ok(()) => Ok(8),
        Err(bad) => Err(bad),
    }
}

// Takes the record at this offset, if the source doesn't end here.
fn record_at<S: Source>(source: &mut Block<S>, at: u64) -> Result<Option<Head>, CapBad>
    ensures value { ReadsRecord at source.old.remaining source.new.remaining source.new.taken result }
    ensures within { IfOk result (λ o. IfSome o (λ head. at + 12 + head.length ≤ 2 ^ 40)) }
    ensures size { IfOk result (λ o. IfSome o (λ head. length source.new.taken ≡ head.length)) }
    ensures ahead { IsErrOf result ReadFault → source.new.ahead ≡ [] }
    ensures cause { HasReadCause (fault_by read_fault result) source.old.faults source.new.faults }
{
    let head = match head_at(source, at) {
        Ok(Some(head)) => head,
        Ok(None) => return Ok(None),
        Err(bad) => return Err(bad),
    };
    match body(source, at, head.length as usize) {
        Ok(()) => Ok(Some(head)),
        Err(bad) => Err(bad),
    }
}

/// Reads the records of a capture, whatever way the source cuts its octets.
#[derive(Drop)]
pub struct Reader<S: Source> {
    source: Block<S>,
    at: u64,
    spent: bool,
}

impl<S: Source> Model for Reader<S> {
    ghost Value = { ReaderState };

    ghost view = { λ r. record {
      remaining = r.source.remaining;
      ahead = r.source.ahead;
      at = r.at;
      faults = r.source.faults;
      spent = r.spent;
      octets = r.source.taken;
    } };
}

impl<S: Source> Reader<S> {
    /// A reader of what the source gives. The name stands first.
    pub fn over(source: S) -> Reader<S>
        ensures value { result ≡ new_reader (S.remaining source) (S.faults source) }
    {
        Reader {
            source: Block::over(source),
            at: 0,
            spent: false,
        }
    }

    /// Whether it answered an error or the end. It is not to be asked again then.
    pub fn spent(&self) -> bool
        ensures value { result ≡ self.now.spent }
    {
        self.spent
    }

    /// Gives the source back. What was taken from it ahead of need is lost.
    pub fn back(self) -> S
        ensures value { Takes self.remaining (S.remaining result) self.ahead }
        // No more than a block is taken ahead.
        ensures within { length self.ahead ≤ most_ahead }
        ensures same { S.faults result ≡ self.faults }
    {
        self.source.back()
    }

    /// Reads the next record, its octets into the front of the slice, or answers none at the end.
    pub fn next(&mut self, buf: &mut [u8; MAX_DATAGRAM]) -> Result<Option<Head>, CapBad>
        requires running { self.old.spent ≡ false }
        ensures value { ReadsNext self.old.at self.old.remaining self.new.remaining buf.new result }
        ensures at { IfOk result (λ o. IfSome o (λ head. self.new.at ≡ offset_at self.old.at + 12 + head.length)) }
        ensures within { IfOk result (λ o. IfSome o (λ head. self.new.at ≤ 2 ^ 40)) }
        ensures size { IfOk result (λ o. IfSome o (λ head. length (take head.length buf.new) ≡ head.length)) }
        ensures spent { self.new.spent ≡ spent_by result }
        // At a fault all that was taken from the source was read.
        ensures ahead { IsErrOf result ReadFault → self.new.ahead ≡ [] }
        ensures cause { HasReadCause (fault_by read_fault result) self.old.faults self.new.faults }
    {
        match self.advance() {
            Ok(Some(head)) => {
                copy_front(self.octets(), buf);
                Ok(Some(head))
            }
            Ok(None) => Ok(None),
            Err(bad) => Err(bad),
        }
    }

    /// Reads the next record, whose octets then stand in the reader, or answers none at the end.
    pub fn advance(&mut self) -> Result<Option<Head>, CapBad>
        requires running { self.old.spent ≡ false }
        ensures value { ReadsNext self.old.at self.old.remaining self.new.remaining self.new.octets result }
        ensures at { IfOk result (λ o. IfSome o (λ head. self.new.at ≡ offset_at self.old.at + 12 + head.length)) }
        ensures within { IfOk result (λ o. IfSome o (λ head. self.new.at ≤ 2 ^ 40)) }
        ensures size { IfOk result (λ o. IfSome o (λ head. length self.new.octets ≡ head.length)) }
        ensures spent { self.new.spent ≡ spent_by result }
        // At a fault all that was taken from the source was read.
        ensures ahead { IsErrOf result ReadFault → self.new.ahead ≡ [] }
        ensures cause { HasReadCause (fault_by read_fault result) self.old.faults self.new.faults }
    {
        let at = match enter(&mut self.source, self.at) {
            Ok(at) => at,
            Err(bad) => {
                self.spent = true;
                return Err(bad);
            }
        };
        match record_at(&mut self.source, at) {
            Ok(Some(head)) => {
                self.at = at + 12 + head.length as u64;
                Ok(Some(head))
            }
            Ok(None) => {
                self.spent = true;
                Ok(None)
            }
            Err(bad) => {
                self.spent = true;
                Err(bad)
            }
        }
    }

    /// The octets of the record that was read last.
    pub fn octets(&self) -> &[u8]
        ensures value { result.now ≡ self.now.octets }
    {
        self.source.taken()
    }

    /// Lends the octets of the record that was read last to a call, which may change them where they stand.
    pub fn lend<A, B, R, F: FnOnce(&mut [u8], &mut A, &mut B) -> R>(
        &mut self,
        one: &mut A,
        other: &mut B,
        call: F,
    ) -> R
        requires call { TakesLent (F.pre call) self.old.octets one.old other.old }
        ensures called { ReturnsLent (F.post call) self.old.octets self.new.octets one.old one.new
            other.old other.new result }
        ensures rest { self.new ≡ record self.old { octets = self.new.octets } }
    {
        self.source.lend(one, other, call)
    }
}
