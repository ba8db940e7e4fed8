//! The sender's RTCP compounds: reports, and the answer to an RTT request (RFC 3550, section 6.4.1; the answer is this
//! profile's).
ghost use Rattle.std.specs.Prelude.{◌≡◌, ◌<◌, ◌%◌, ◌^◌, length, option_map};
ghost use Rattle.std.specs.List.{find};
ghost use Rattle.rist_rtt.specs.Echo.{echo_seen};
ghost use Rattle.rist_sender.specs.Messages.{Status, report_packets, report_octets, told_packets, told_octets, answer_packets, answer_octets};
ghost use Rattle.rist_sender.specs.Messages.{seconds_of, fraction_of, rtp_time_of};

use receiver_rules::tick_of;
use rist_rtt::{Echo, put_answer, put_request};
use rtcp_compound::CompoundOut;

fn seconds_of(micros: u64) -> u32
    ensures { result ≡ seconds_of micros }
{
    (micros / 1_000_000 % (1 << 32)) as u32
}

fn fraction_of(micros: u64) -> u32
    ensures { result ≡ fraction_of micros }
{
    ((micros % 1_000_000) * (1 << 32) / 1_000_000) as u32
}

fn rtp_time_of(micros: u64) -> u32
    ensures { result ≡ rtp_time_of micros }
{
    (tick_of(micros) % (1 << 32)) as u32
}

/// A report and a source description of the flow, at a moment in microseconds, after so many packets and octets of
/// payload.
pub(crate) fn report_of(flow: u32, micros: u64, packets: u64, octets: u32) -> CompoundOut
    ensures packets { result.packets ≡ report_packets flow
        (record { micros = micros; packets = packets; octets = octets }) }
    ensures octets { result.octets ≡ report_octets flow
        (record { micros = micros; packets = packets; octets = octets }) }
{
    let mut out = CompoundOut::new();
    let sent = (packets % (1 << 32)) as u32;
    let put = out.put_sr(
        flow,
        seconds_of(micros),
        fraction_of(micros),
        rtp_time_of(micros),
        sent,
        octets,
    );
    if put.is_err() {
        unreachable!();
    }
    if out.put_sdes(flow).is_err() {
        unreachable!();
    }
    out
}

/// The same, and behind it, where it asks for the round-trip time, an RTT request of the flow, its stamp the moment.
pub(crate) fn told_of(asks: bool, flow: u32, micros: u64, packets: u64, octets: u32) -> CompoundOut
    ensures packets { result.packets ≡ told_packets asks flow
        (record { micros = micros; packets = packets; octets = octets }) }
    ensures octets { result.octets ≡ told_octets asks flow
        (record { micros = micros; packets = packets; octets = octets }) }
{
    let mut out = report_of(flow, micros, packets, octets);
    if asks {
        if put_request(&mut out, flow, micros).is_err() {
            unreachable!();
        }
    }
    out
}

/// A report and a source description, and behind them the answer to an RTT request, without delay.
pub(crate) fn answer_of(
    flow: u32,
    micros: u64,
    packets: u64,
    octets: u32,
    echo: &Echo<'_>,
) -> CompoundOut
    ensures packets { result.packets ≡ answer_packets flow
        (record { micros = micros; packets = packets; octets = octets }) (echo_seen echo.now) }
    ensures octets { result.octets ≡ answer_octets flow
        (record { micros = micros; packets = packets; octets = octets }) (echo_seen echo.now) }
{
    let mut out = report_of(flow, micros, packets, octets);
    if put_answer(&mut out, echo, 0).is_err() {
        unreachable!();
    }
    out
}
