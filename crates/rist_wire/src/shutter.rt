ghost use Rattle.std.specs.Prelude.{◌≡◌, ◌%◌, ◌-◌, ◌≤◌, List, Ok, true, length, take, is_some, is_err, IsSome, IfOk, OnOk, OnErr};
ghost use Rattle.link_channels.specs.declared.bounds.TheConstants.{MAX_PAYLOAD};
ghost use Rattle.keepalive_msg.specs.Keepalive.{spelling as keepalive_spelling};
ghost use Rattle.keepalive_msg.specs.Writing.{message_of as keepalive_of};
ghost use Rattle.keepalive_msg.specs.Reading.{value_of as keepalive_value_of};
ghost use Rattle.rtcp_compound.specs.Compound.{Content, IsCompound};
ghost use Rattle.link_channels.specs.declared.profile.Profile.TheVariants.{Main};
ghost use Rattle.rist_wire.specs.declared.item.Item.TheVariants.{Media as MediaItem, Control as ControlItem, Keepalive as KeepaliveItem};
ghost use Rattle.rist_wire.specs.declared.item.Kind.TheVariants.{Media as MediaKind, Control as ControlKind, Keepalive as KeepaliveKind};
ghost use Rattle.rist_wire.specs.Session.{IsSession};
ghost use Rattle.rist_wire.specs.Media.{can_restore};
ghost use Rattle.rist_wire.specs.Item.{item_of};
ghost use Rattle.rist_wire.specs.Writing.{ShutterState, media_out, next_pair, after_pair, is_spent, pairs_left};
ghost use Rattle.rist_wire.specs.Packets.{media_octets, media_value};
ghost use Rattle.rist_wire.specs.Datagrams.{IsDatagram};

use crate::cipher::KeyInUse;
use crate::item::Kind;
use crate::packets::put_media;
use crate::sealing::{nonce_of, put_datagram};
use crate::session::Session;
use link_channels::{Channel, MAX_DATAGRAM};
use psk_seal::{Pair, Sealer, Spent};
use std::marker::Model;
use ts_nulls::Strip;

/// What makes a session's datagrams. A contract sees the session, and its sealer's state where it has one.
#[derive(Drop)]
pub struct Shutter {
    session: Session,
    sealer: Option<Sealer>,
    key: KeyInUse,
}

impl Model for Shutter {
    ghost use Rattle.std.specs.Prelude.{◌≡◌};
    ghost use Rattle.rist_wire.specs.Session.{IsSession};
    ghost use Rattle.rist_wire.specs.Cipher.{key_by};
    ghost use Rattle.rist_wire.specs.Writing.{ShutterState};

    ghost Value = { ShutterState };

    ghost view = { λ s. record { session = s.session; sealer = s.sealer } };

    ghost invariant = { λ s. IsSession s.session
        × (s.key.key ≡ key_by s.session.pass s.session.bits s.key.nonce) };
}

// The pair of the next datagram, where there is a sealer.
fn next_pair(sealer: &mut Option<Sealer>) -> Result<Option<Pair>, Spent>
    ensures pair { IfOk result (λ pair. pair ≡ next_pair sealer.old) }
    ensures state { OnOk result (sealer.new ≡ after_pair sealer.old) }
    ensures spent { is_err result ≡ is_spent sealer.old }
    ensures same { OnErr result (sealer.new ≡ sealer.old) }
{
    let Some(sealer) = sealer else {
        return Ok(None);
    };
    match sealer.next() {
        Ok(pair) => Ok(Some(pair)),
        Err(spent) => Err(spent),
    }
}

impl Shutter {
    /// A shutter of the session. Each datagram is enciphered under a pair of the sealer, where there is one.
    pub fn with(session: &Session, sealer: Option<Sealer>) -> Shutter
        requires session { IsSession session.now }
        ensures value { result ≡ record { session = session.now; sealer = sealer } }
    {
        Shutter {
            session: session.copied(),
            sealer,
            key: KeyInUse::none(),
        }
    }

    /// How many datagrams the sealer still allows, where there is one.
    pub fn left(&self) -> Option<u64>
        ensures value { result ≡ pairs_left self.now.sealer }
    {
        match &self.sealer {
            Some(sealer) => Some(sealer.left()),
            None => None,
        }
    }

    /// Whether a sender of the session asks for the round-trip time in its reports.
    pub fn echo(&self) -> bool
        ensures value { result ≡ self.now.session.echo }
    {
        self.session.echo
    }

    // Writes the datagram of a message.
    fn put(
        &mut self,
        kind: Kind,
        message: &[u8],
        out: &mut [u8; MAX_DATAGRAM],
    ) -> Result<(Channel, usize), Spent>
        requires paired { is_some self.old.sealer ≡ is_some self.old.session.pass }
        requires tunnel { kind ≡ KeepaliveKind → self.old.session.profile ≡ Main }
        requires room { length message.now ≤ 1560 }
        ensures datagram { IfOk result (λ sent. IsDatagram self.old.session (next_pair self.old.sealer)
            kind message.now sent.0 (take sent.1 out.new)) }
        ensures within { IfOk result (λ sent. sent.1 ≤ MAX_DATAGRAM) }
        ensures state { OnOk result (self.new ≡ record self.old { sealer = after_pair self.old.sealer }) }
        ensures spent { is_err result ≡ is_spent self.old.sealer }
        ensures same { OnErr result ((self.new ≡ self.old) × (out.new ≡ out.old)) }
    {
        let pair = match next_pair(&mut self.sealer) {
            Ok(pair) => pair,
            Err(spent) => return Err(spent),
        };
        self.key.turn_to(&self.session, nonce_of(pair));
        Ok(put_datagram(&self.session, &self.key.key, pair, kind, message, out))
    }

    /// Writes the datagram of media at the front of `out`, and says on which channel it goes and how many octets
    /// it has. The timestamp is in ticks of 1/90,000 s. The payload is as it is sent: `strip` says which null
    /// packets were deleted from it. In a session with a passphrase the datagram is enciphered under the sealer's
    /// next pair. `Spent` where the sealer has no pair left, and then nothing is changed.
    pub fn media(
        &mut self,
        flow: u32,
        again: bool,
        number: u64,
        stamp: u32,
        strip: Option<Strip>,
        payload: &[u8],
        out: &mut [u8; MAX_DATAGRAM],
    ) -> Result<(Channel, usize), Spent>
        requires paired { is_some self.old.sealer ≡ is_some self.old.session.pass }
        requires flow { flow % 2 ≡ 0 }
        requires payload { length payload.now ≤ MAX_PAYLOAD }
        requires strip { IsSome strip → self.old.session.nulls ≡ true }
        requires whole { can_restore strip payload.now ≡ true }
        ensures datagram { IfOk result (λ sent. IsDatagram self.old.session (next_pair self.old.sealer)
            MediaKind (media_octets self.old.session.width (media_out flow again number stamp strip payload.now))
            sent.0 (take sent.1 out.new)) }
        ensures read_back { IfOk result (λ sent. item_of self.old.session sent.0 (take sent.1 out.new)
            ≡ Ok (MediaItem (media_value self.old.session.width
            (media_out flow again number stamp strip payload.now)))) }
        ensures within { IfOk result (λ sent. sent.1 ≤ MAX_DATAGRAM) }
        ensures state { OnOk result (self.new ≡ record self.old { sealer = after_pair self.old.sealer }) }
        ensures spent { is_err result ≡ is_spent self.old.sealer }
        ensures same { OnErr result ((self.new ≡ self.old) × (out.new ≡ out.old)) }
    {
        let mut packet = [0; MAX_DATAGRAM];
        let len = put_media(
            self.session.width,
            flow,
            again,
            number,
            stamp,
            strip,
            payload,
            &mut packet,
        );
        self.put(Kind::Media, &packet[..len], out)
    }

    /// Writes the datagram of an RTCP compound at the front of `out`, and says on which channel it goes and how
    /// many octets it has. It is enciphered as media is. `Spent` where the sealer has no pair left, and then nothing
    /// is changed.
    pub fn control(
        &mut self,
        compound: &[u8],
        out: &mut [u8; MAX_DATAGRAM],
    ) -> Result<(Channel, usize), Spent>
        requires paired { is_some self.old.sealer ≡ is_some self.old.session.pass }
        requires compound { length compound.now ≤ 1400 }
        ensures datagram { IfOk result (λ sent. IsDatagram self.old.session (next_pair self.old.sealer)
            ControlKind compound.now sent.0 (take sent.1 out.new)) }
        ensures read_back { (packets : List Content) → IsCompound packets compound.now
            → IfOk result (λ sent. item_of self.old.session sent.0 (take sent.1 out.new)
            ≡ Ok (ControlItem packets)) }
        ensures within { IfOk result (λ sent. sent.1 ≤ MAX_DATAGRAM) }
        ensures state { OnOk result (self.new ≡ record self.old { sealer = after_pair self.old.sealer }) }
        ensures spent { is_err result ≡ is_spent self.old.sealer }
        ensures same { OnErr result ((self.new ≡ self.old) × (out.new ≡ out.old)) }
    {
        self.put(Kind::Control, compound, out)
    }

    /// Writes the datagram of an end's keepalive at the front of `out`, and says on which channel it goes and how
    /// many octets it has. It is enciphered as media is. `Spent` where the sealer has no pair left, and then nothing
    /// is changed.
    pub fn keepalive(
        &mut self,
        ssrc: u32,
        out: &mut [u8; MAX_DATAGRAM],
    ) -> Result<(Channel, usize), Spent>
        requires paired { is_some self.old.sealer ≡ is_some self.old.session.pass }
        requires tunnel { self.old.session.profile ≡ Main }
        ensures datagram { IfOk result (λ sent. IsDatagram self.old.session (next_pair self.old.sealer)
            KeepaliveKind (keepalive_spelling (keepalive_of ssrc)) sent.0 (take sent.1 out.new)) }
        ensures read_back { IfOk result (λ sent. item_of self.old.session sent.0 (take sent.1 out.new)
            ≡ Ok (KeepaliveItem (keepalive_value_of (keepalive_of ssrc)))) }
        ensures within { IfOk result (λ sent. sent.1 ≤ MAX_DATAGRAM) }
        ensures state { OnOk result (self.new ≡ record self.old { sealer = after_pair self.old.sealer }) }
        ensures spent { is_err result ≡ is_spent self.old.sealer }
        ensures same { OnErr result ((self.new ≡ self.old) × (out.new ≡ out.old)) }
    {
        let mut message = [0; 8];
        keepalive_msg::write(ssrc, &mut message);
        self.put(Kind::Keepalive, &message, out)
    }
}
