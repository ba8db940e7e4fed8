//! Reads the frames of a pcap file.
ghost use Rattle.std.specs.Prelude.{◌≡◌, ◌≤◌, ◌<◌, ◌+◌, ◌^◌, false, true, IfOk, IsErrOf, IfSome, take, min, length, []};
ghost use Rattle.pcap_file.specs.declared.bad.PcapBad.TheVariants.{ReadFault};
ghost use Rattle.outside_io.specs.Causes.{HasReadCause, fault_by};
ghost use Rattle.outside_io.specs.Told.{Takes};
ghost use Rattle.block_source.specs.Block.{most_ahead};
ghost use Rattle.pcap_file.specs.Pcap.{most_given};
ghost use Rattle.pcap_file.specs.Reader.{ReaderState, new_reader};
ghost use Rattle.pcap_file.specs.Reading.{ReadsNext, read_fault, spent_by};
ghost use Rattle.pcap_file.specs.Inside.Steps.{ReadsHeader, Enters, ReadsHead, ReadsBody, ReadsRecord};

use crate::bad::{PcapBad, PcapKind};
use crate::format::{ByteOrder, Format, HEADER_LEN, format_of, micros_at};
use crate::head::{HEAD_LEN, Head, head_of};
use crate::skipping::skip;
use block_source::Block;
use outside_io::{Source, read_full};
use std::marker::Model;

/// What is given of a packet, but for its octets.
#[derive(Clone, Copy, Debug, PartialEq, Eq)]
pub struct Frame {
    /// When it was captured, in microseconds.
    pub at_us: u64,
    /// What its octets begin with: 1 for an Ethernet header, 101 for an IP header.
    pub link_type: u16,
    /// How many of its octets stand in the block, at most 4,096.
    pub length: usize,
}

// A frame, and the offset of the record behind it.
#[derive(Clone, Copy)]
struct Step {
    frame: Frame,
    end: u64,
}

/// The most octets of a packet that are given.
const MAX_GIVEN: usize = 4096;

// Reads the header.
fn begin<S: Source>(source: &mut Block<S>) -> Result<Format, PcapBad>
    ensures value { ReadsHeader source.old.remaining source.new.remaining result }
    ensures ahead { IsErrOf result ReadFault → source.new.ahead ≡ [] }
    ensures cause { HasReadCause (fault_by read_fault result) source.old.faults source.new.faults }
{
    let mut octets = [0; HEADER_LEN];
    let Ok(count) = read_full(source, &mut octets) else {
        return Err(PcapBad::ReadFault);
    };
    match format_of(&octets[..count]) {
        Ok(format) => Ok(format),
        Err(kind) => Err(PcapBad::Bad(kind, 0)),
    }
}

// Reads the header where it was not read yet.
fn enter<S: Source>(source: &mut Block<S>, known: Option<Format>) -> Result<Format, PcapBad>
    ensures value { Enters known source.old.remaining source.new.remaining result }
    ensures ahead { IsErrOf result ReadFault → source.new.ahead ≡ [] }
    ensures cause { HasReadCause (fault_by read_fault result) source.old.faults source.new.faults }
{
    match known {
        Some(format) => Ok(format),
        None => begin(source),
    }
}

// Reads the head of the record at this offset, if the source doesn't end here.
fn head_at<S: Source>(
    source: &mut Block<S>,
    order: ByteOrder,
    at: u64,
) -> Result<Option<Head>, PcapBad>
    ensures value { ReadsHead order at source.old.remaining source.new.remaining result }
    ensures ahead { IsErrOf result ReadFault → source.new.ahead ≡ [] }
    ensures cause { HasReadCause (fault_by read_fault result) source.old.faults source.new.faults }
{
    let mut octets = [0; HEAD_LEN];
    let Ok(count) = read_full(source, &mut octets) else {
        return Err(PcapBad::ReadFault);
    };
    if count == 0 {
        return Ok(None);
    }
    if count < HEAD_LEN {
        return Err(PcapBad::Bad(PcapKind::Truncated, at));
    }
    match head_of(order, &octets, at) {
        Ok(head) => Ok(Some(head)),
        Err(kind) => Err(PcapBad::Bad(kind, at)),
    }
}

// Reads the octets of the record at this offset, so many, and says how many of them stand in the block.
fn body<S: Source>(
    source: &mut Block<S>,
    at: u64,
    count: usize,
    buf: &mut [u8; MAX_GIVEN],
) -> Result<usize, PcapBad>
    ensures value { ReadsBody at count source.old.remaining source.new.remaining buf.new result }
    ensures given { IfOk result (λ given. given ≡ min count most_given) }
    ensures ahead { IsErrOf result ReadFault → source.new.ahead ≡ [] }
    ensures cause { HasReadCause (fault_by read_fault result) source.old.faults source.new.faults }
{
    let given = count.min(MAX_GIVEN);
    let Ok(got) = read_full(source, &mut buf[..given]) else {
        return Err(PcapBad::ReadFault);
    };
    if got < given {
        return Err(PcapBad::Bad(PcapKind::Truncated, at));
    }
    match skip(source, count - given, at) {
        Ok(()) => Ok(given),
        Err(bad) => Err(bad),
    }
}

// Reads the record at this offset, if the source doesn't end here.
fn record_at<S: Source>(
    source: &mut Block<S>,
    format: Format,
    at: u64,
    buf: &mut [u8; MAX_GIVEN],
) -> Result<Option<Step>, PcapBad>
    ensures value { ReadsRecord format at source.old.remaining source.new.remaining buf.new result }
    ensures within { IfOk result (λ o. IfSome o (λ step. step.end ≤ 2 ^ 40)) }
    ensures size { IfOk result (λ o. IfSome o (λ step. step.frame.length ≤ most_given)) }
    ensures ahead { IsErrOf result ReadFault → source.new.ahead ≡ [] }
    ensures cause { HasReadCause (fault_by read_fault result) source.old.faults source.new.faults }
{
    let head = match head_at(source, format.order, at) {
        Ok(Some(head)) => head,
        Ok(None) => return Ok(None),
        Err(bad) => return Err(bad),
    };
    match body(source, at, head.kept as usize, buf) {
        Ok(length) => Ok(Some(Step {
            frame: Frame {
                at_us: micros_at(format.fraction, head.seconds, head.fraction),
                link_type: format.link_type,
                length,
            },
            end: at + 16 + u64::from(head.kept),
        })),
        Err(bad) => Err(bad),
    }
}

/// Reads the frames of a pcap file, whatever way the source cuts its octets.
#[derive(Drop)]
pub struct PcapReader<S: Source> {
    source: Block<S>,
    format: Option<Format>,
    at: u64,
    spent: bool,
}

impl<S: Source> Model for PcapReader<S> {
    ghost Value = { ReaderState };

    ghost view = { λ r. record {
      remaining = r.source.remaining;
      ahead = r.source.ahead;
      format = r.format;
      at = r.at;
      faults = r.source.faults;
      spent = r.spent;
    } };
}

impl<S: Source> PcapReader<S> {
    /// A reader of what the source gives. The header stands first.
    pub fn over(source: S) -> PcapReader<S>
        ensures value { result ≡ new_reader (S.remaining source) (S.faults source) }
    {
        PcapReader {
            source: Block::over(source),
            format: None,
            at: 24,
            spent: false,
        }
    }

    /// Whether it answered an error or the end. It is not to be asked again then.
    pub fn spent(&self) -> bool
        ensures value { result ≡ self.now.spent }
    {
        self.spent
    }

    /// Gives the source back. What was taken from it ahead of need is lost.
    pub fn back(self) -> S
        ensures value { Takes self.remaining (S.remaining result) self.ahead }
        // No more than a block is taken ahead.
        ensures within { length self.ahead ≤ most_ahead }
        ensures same { S.faults result ≡ self.faults }
    {
        self.source.back()
    }

    /// Reads the next frame, its octets into the front of the slice, or answers none at the end. Octets of a packet past 4,096
    /// are read and dropped.
    pub fn next(&mut self, buf: &mut [u8; 4096]) -> Result<Option<Frame>, PcapBad>
        requires running { self.old.spent ≡ false }
        ensures value { ReadsNext self.old self.new buf.new result }
        ensures within { IfOk result (λ o. IfSome o (λ frame. self.new.at ≤ 2 ^ 40)) }
        ensures size { IfOk result (λ o. IfSome o (λ frame. frame.length ≤ most_given)) }
        ensures spent { self.new.spent ≡ spent_by result }
        // At a fault all that was taken from the source was read.
        ensures ahead { IsErrOf result ReadFault → self.new.ahead ≡ [] }
        ensures cause { HasReadCause (fault_by read_fault result) self.old.faults self.new.faults }
    {
        let format = match enter(&mut self.source, self.format) {
            Ok(format) => format,
            Err(bad) => {
                self.spent = true;
                return Err(bad);
            }
        };
        self.format = Some(format);
        match record_at(&mut self.source, format, self.at, buf) {
            Ok(Some(step)) => {
                self.at = step.end;
                Ok(Some(step.frame))
            }
            Ok(None) => {
                self.spent = true;
                Ok(None)
            }
            Err(bad) => {
                self.spent = true;
                Err(bad)
            }
        }
    }
}
