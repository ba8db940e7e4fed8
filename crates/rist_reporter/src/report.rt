//! The compound of a tick.
ghost use Rattle.std.specs.Prelude.{◌≡◌, ◌≤◌, ◌<◌, ◌++◌, [], length, Some};
ghost use Rattle.rist_reporter.specs.Control.{rtt_request, tick_packets};
ghost use Rattle.request_rules.specs.Near.{AreNear};

use crate::opening::opened;
use crate::requests::{Asker, put_nacks};
use request_rules::{AskWord, NackKind};
use rist_rtt::put_request;
use rtcp_compound::CompoundOut;
use seq_unwrap::Width;

/// The most octets of a tick's compound: 24 of the opening, 24 of the RTT request, and two requests of 64 words in all,
/// each behind an extension.
pub const REPORT_LEN: usize = 360;

/// What a tick's compound says.
#[derive(Clone, Copy)]
pub struct Report<'a> {
    /// The receiver's own SSRC.
    pub own: u32,
    /// The flow's SSRC, its lowest bit 0, where a flow is known.
    pub flow: Option<u32>,
    /// A report is due, so the round-trip time of a known flow is asked for.
    pub is_report: bool,
    /// The moment in microseconds.
    pub micros: u64,
    /// How requests are written.
    pub kind: NackKind,
    /// How many bits the numbers of the last kept packet had.
    pub width: Width,
    /// The words of the requests.
    pub words: &'a [AskWord],
}

// Puts an RTT request where the round-trip time is asked for.
fn put_rtt_request(out: &mut CompoundOut, flow: u32, is_report: bool, micros: u64)
    requires begun { 0 < length out.old.octets }
    requires room { length out.old.octets ≤ 24 }
    ensures packets { out.new.packets ≡ out.old.packets ++ rtt_request is_report (Some flow) micros }
    ensures within { length out.new.octets ≤ 48 }
    ensures begun { 0 < length out.new.octets }
{
    if is_report {
        let Ok(()) = put_request(out, flow, micros) else {
            unreachable!()
        };
    }
}

/// The compound of a tick: a receiver's report and a source description, an RTT request, and the requests for
/// retransmission. All of it fits.
pub fn tick_compound(report: &Report<'_>) -> CompoundOut
    requires near { AreNear report.now.words.now }
    ensures packets { result.packets ≡ tick_packets report.now.kind report.now.own report.now.is_report report.now.flow
        report.now.width report.now.words.now report.now.micros }
    ensures begun { 0 < length result.octets }
    ensures within { length result.octets ≤ REPORT_LEN }
{
    let mut out = opened(report.own);
    if let Some(flow) = report.flow {
        let asker = Asker {
            kind: report.kind,
            own: report.own,
            flow,
        };
        put_rtt_request(&mut out, flow, report.is_report, report.micros);
        put_nacks(&mut out, &asker, report.width, report.words);
    }
    out
}
