//! A compound that is being written, into a block of its own. A contract sees the packets put so far,
//! and their octets.
ghost use Rattle.std.specs.Prelude.{◌≡◌, ◌≤◌, ◌<◌, ◌+◌, ◌*◌, ◌%◌, ◌↔◌, ◌⊎◌, ◌++◌, [], length, take, OnOk, OnErr, IsErr};
ghost use Rattle.std.specs.Int.{w32, to_be_bytes};
ghost use Rattle.rtcp_compound.specs.Compound.{IsCompound, Holds, IsReport, spelling, content, sender_report, receiver_report, description, application, feedback};
ghost use Rattle.rtcp_compound.specs.Writing.{numbers_spelling, plain, Gains, sr_octets, rr_octets, sdes_octets, name_item, app_octets, feedback_octets};

use crate::refusal::Full;
use octet_fields::put_at;
use std::marker::Model;

/// The most octets of a compound that is written (this profile).
pub const OUT_LEN: usize = 1400;

// The item CNAME, `rist` (this profile), the zero octet that ends the items, and one of fill.
const NAME_ITEM: [u8; 8] = [1, 4, b'r', b'i', b's', b't', 0, 0];

/// A compound that is being written.
#[derive(Debug, Drop)]
pub struct CompoundOut {
    block: [u8; 1400],
    used: usize,
}

impl Model for CompoundOut {
    ghost use Rattle.std.specs.Prelude.{◌≤◌, take};
    ghost use Rattle.rtcp_compound.specs.Reading.{packets_in};
    ghost use Rattle.rtcp_compound.specs.Writing.{Written, AreWritten};

    ghost Value = { Written };

    ghost view = { λ o. record { packets = packets_in (take o.used o.block); octets = take o.used o.block } };

    ghost invariant = { λ o. (o.used ≤ 1400) × AreWritten (take o.used o.block) };
}

// Writes numbers of 32 bits one after another, and answers the place behind them.
fn put_numbers(out: &mut [u8], at: usize, numbers: &[u32]) -> usize
    requires room { at + 4 * length numbers.now ≤ length out.old }
    ensures end { result ≡ at + 4 * length numbers.now }
    ensures octets { take result out.new ≡ take at out.old ++ numbers_spelling numbers.now }
{
    let mut place = at;
    for number in numbers {
        place = put_at(out, place, &number.to_be_bytes());
    }
    place
}

impl CompoundOut {
    /// Nothing is written yet.
    pub fn new() -> CompoundOut
        ensures { result ≡ record { packets = []; octets = [] } }
    {
        CompoundOut {
            block: [0; 1400],
            used: 0,
        }
    }

    /// The octets of the packets put so far.
    pub fn octets(&self) -> &[u8]
        ensures value { result.now ≡ self.now.octets }
        ensures within { length result.now ≤ OUT_LEN }
        // They are read back as these packets.
        ensures compound { 0 < length self.now.octets → IsCompound self.now.packets result.now }
    {
        &self.block[..self.used]
    }

    // Puts a packet without padding, whose body is numbers and then two parts, if it fits.
    fn put(
        &mut self,
        count: u8,
        kind: u8,
        numbers: &[u32],
        name: &[u8],
        words: &[u8],
    ) -> Result<(), Full>
        requires count { count < 32 }
        requires kind { (192 ≤ kind) × (kind ≤ 223) }
        requires whole { (length name.now + length words.now) % 4 ≡ 0 }
        requires small { length numbers.now + length name.now < 32 }
        requires body { Holds kind count (numbers_spelling numbers.now ++ (name.now ++ words.now)) }
        requires first { length self.old.octets ≡ 0 → IsReport kind }
        ensures ok { OnOk result (Gains self.old self.new
            (content (plain count kind numbers.now (name.now ++ words.now)))
            (spelling (plain count kind numbers.now (name.now ++ words.now)))) }
        ensures full { IsErr result
            ↔ (OUT_LEN < length self.old.octets + length (spelling (plain count kind numbers.now (name.now ++ words.now)))) }
        ensures same { OnErr result (self.new ≡ self.old) }
    {
        let body = 4 * numbers.len() + name.len() + words.len();
        if OUT_LEN - self.used < 4 + body {
            return Err(Full);
        }
        let length = (body / 4) as u16;
        let at = put_at(&mut self.block, self.used, &[128 + count, kind]);
        let at = put_at(&mut self.block, at, &length.to_be_bytes());
        let at = put_numbers(&mut self.block, at, numbers);
        let at = put_at(&mut self.block, at, name);
        self.used = put_at(&mut self.block, at, words);
        Ok(())
    }

    /// Puts a sender's report with no blocks: the sender, its NTP time in seconds and units of
    /// 2^-32 s, the RTP timestamp at that time, and the packets and payload octets sent so far.
    /// `Full` where it doesn't fit.
    pub fn put_sr(
        &mut self,
        ssrc: u32,
        seconds: u32,
        fraction: u32,
        rtp_time: u32,
        packets: u32,
        octets: u32,
    ) -> Result<(), Full>
        ensures ok { OnOk result (Gains self.old self.new
            (sender_report ssrc seconds fraction rtp_time packets octets [])
            (sr_octets ssrc seconds fraction rtp_time packets octets)) }
        ensures full { IsErr result ↔ (OUT_LEN < length self.old.octets + 28) }
        ensures same { OnErr result (self.new ≡ self.old) }
    {
        self.put(
            0,
            200,
            &[ssrc, seconds, fraction, rtp_time, packets, octets],
            &[],
            &[],
        )
    }

    /// Puts a receiver's report with no blocks. `Full` where it doesn't fit.
    pub fn put_rr(&mut self, ssrc: u32) -> Result<(), Full>
        ensures ok { OnOk result (Gains self.old self.new (receiver_report ssrc []) (rr_octets ssrc)) }
        ensures full { IsErr result ↔ (OUT_LEN < length self.old.octets + 8) }
        ensures same { OnErr result (self.new ≡ self.old) }
    {
        self.put(0, 201, &[ssrc], &[], &[])
    }

    /// Puts a source description with one chunk, whose CNAME is `rist` (this profile). `Full` where it doesn't fit.
    pub fn put_sdes(&mut self, ssrc: u32) -> Result<(), Full>
        requires { 0 < length self.old.octets }
        ensures ok { OnOk result (Gains self.old self.new
            (description 1 (to_be_bytes w32 ssrc ++ name_item))
            (sdes_octets ssrc)) }
        ensures full { IsErr result ↔ (OUT_LEN < length self.old.octets + 16) }
        ensures same { OnErr result (self.new ≡ self.old) }
    {
        self.put(1, 202, &[ssrc], &[], &NAME_ITEM)
    }

    /// Puts an application's packet of whole words. `Full` where it doesn't fit.
    pub fn put_app(
        &mut self,
        subtype: u8,
        ssrc: u32,
        name: [u8; 4],
        words: &[u8],
    ) -> Result<(), Full>
        requires begun { 0 < length self.old.octets }
        requires subtype { subtype ≤ 31 }
        requires whole { length words.now % 4 ≡ 0 }
        ensures ok { OnOk result (Gains self.old self.new
            (application subtype ssrc name words.now)
            (app_octets subtype ssrc name words.now)) }
        ensures full { IsErr result ↔ (OUT_LEN < length self.old.octets + 12 + length words.now) }
        ensures same { OnErr result (self.new ≡ self.old) }
    {
        self.put(subtype, 204, &[ssrc], &name, words)
    }

    /// Puts a feedback message of whole words, of the transport layer (205) or of the payload (206).
    /// `Full` where it doesn't fit.
    pub fn put_feedback(
        &mut self,
        kind: u8,
        format: u8,
        sender: u32,
        media: u32,
        words: &[u8],
    ) -> Result<(), Full>
        requires begun { 0 < length self.old.octets }
        requires kind { (kind ≡ 205) ⊎ (kind ≡ 206) }
        requires format { format ≤ 31 }
        requires whole { length words.now % 4 ≡ 0 }
        ensures ok { OnOk result (Gains self.old self.new
            (feedback kind format sender media words.now)
            (feedback_octets kind format sender media words.now)) }
        ensures full { IsErr result ↔ (OUT_LEN < length self.old.octets + 12 + length words.now) }
        ensures same { OnErr result (self.new ≡ self.old) }
    {
        self.put(format, kind, &[sender, media], &[], words)
    }
}
