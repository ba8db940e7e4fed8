ghost use Rattle.std.specs.Prelude.{◌≡◌, ◌≤◌, length, IfOk, OnErr, IsSome};
ghost use Rattle.rist_wire.specs.Session.{IsSession};
ghost use Rattle.rist_wire.specs.Cipher.{secret_of, secret_with};
ghost use Rattle.rist_wire.specs.Tunnel.{message_at, LiesIn};
ghost use Rattle.rist_wire.specs.Item.{message_of, plain_of, item_of};
ghost use Rattle.rist_wire.specs.Among.{ArePorts, item_among, message_among, placed, placed_message, place_among, session_at};

use crate::among::tunnel_part_among;
use crate::bad::WireBad;
use crate::item::{Item, Kind, Part};
use crate::session::Session;
use crate::tunnel::tunnel_part;
use link_channels::{Channel, Profile};
use outside_io::NoMemory;
use psk_keys::{Keys, Phrase};
use std::alloc::Global;
use std::marker::Model;

/// What takes a session's datagrams: an item of each, or why it is none. A contract sees the session.
#[derive(Drop)]
pub struct Opener {
    session: Session,
    keys: Option<Keys>,
}

impl Model for Opener {
    ghost use Rattle.std.specs.Prelude.{◌≡◌};
    ghost use Rattle.rist_wire.specs.declared.session.Session.{Session};
    ghost use Rattle.rist_wire.specs.Session.{IsSession};
    ghost use Rattle.rist_wire.specs.Cipher.{secret_of, secret_with};

    ghost Value = { Session };

    ghost view = { λ o. o.session };

    ghost invariant = { λ o. IsSession o.session
        × (secret_of o.keys ≡ secret_with o.session.pass o.session.bits) };
}

// Where the message of a datagram lies, which is deciphered in place where its header says so.
#[tactic(auto, unfolding(crate::specs::Item::message_of, crate::specs::Item::plain_of))]
fn message_part(
    session: &Session,
    keys: &mut Option<Keys>,
    channel: Channel,
    octets: &mut [u8],
) -> Result<Part, WireBad>
    requires session { IsSession session.now }
    requires keys { secret_of keys.old ≡ secret_with session.now.pass session.now.bits }
    ensures keys { secret_of keys.new ≡ secret_of keys.old }
    ensures message { message_at octets.new result ≡ message_of session.now channel octets.old }
    ensures within { IfOk result (λ part. LiesIn part octets.new) }
    ensures octets { octets.new ≡ plain_of session.now channel octets.old }
{
    match (session.profile, channel) {
        (Profile::Simple, Channel::Media) => Ok(Part {
            kind: Kind::Media,
            from: 0,
            end: octets.len(),
        }),
        (Profile::Simple, Channel::Control) => Ok(Part {
            kind: Kind::Control,
            from: 0,
            end: octets.len(),
        }),
        (Profile::Main, Channel::Tunnel) => tunnel_part(session, keys, octets),
        (Profile::Simple, Channel::Tunnel) => Err(WireBad::Channel),
        (Profile::Main, Channel::Media) => Err(WireBad::Channel),
        (Profile::Main, Channel::Control) => Err(WireBad::Channel),
    }
}

// The same in a tunnel with several sessions. Outside the tunnel no port is read.
#[tactic(auto, unfolding(crate::specs::Item::message_of, crate::specs::Item::plain_of, crate::specs::Among::place_among, crate::specs::Among::message_among))]
fn part_among(
    session: &Session,
    keys: &mut Option<Keys>,
    ports: &[u16],
    channel: Channel,
    octets: &mut [u8],
) -> Result<(u8, Part), WireBad>
    requires session { IsSession session.now }
    requires keys { secret_of keys.old ≡ secret_with session.now.pass session.now.bits }
    requires ports { ArePorts ports.now }
    ensures keys { secret_of keys.new ≡ secret_of keys.old }
    ensures message { placed_message octets.new result ≡ message_among ports.now session.now channel octets.old }
    ensures within { IfOk result (λ found. LiesIn found.1 octets.new) }
    ensures octets { octets.new ≡ plain_of session.now channel octets.old }
{
    if session.profile == Profile::Main && channel == Channel::Tunnel {
        return tunnel_part_among(session, keys, ports, octets);
    }
    match message_part(session, keys, channel, octets) {
        Ok(part) => Ok((0, part)),
        Err(bad) => Err(bad),
    }
}

// The keys of a session with a passphrase.
fn keys_of(alloc: Global, session: &Session) -> Result<Option<Keys>, NoMemory>
    requires session { IsSession session.now }
    ensures keys { IfOk result (λ keys. secret_of keys ≡ secret_with session.now.pass session.now.bits) }
    ensures memory { OnErr result (IsSome session.now.pass) }
{
    match &session.pass {
        Some(pass) => Ok(Some(Keys::with(alloc, Phrase::of(pass.octets()), session.bits)?)),
        None => Ok(None),
    }
}

impl Opener {
    /// An opener of the session's datagrams.
    pub fn with(alloc: Global, session: &Session) -> Result<Opener, NoMemory>
        requires session { IsSession session.now }
        ensures ok { IfOk result (λ opener. opener ≡ session.now) }
        // Memory is taken for keys alone.
        ensures memory { OnErr result (IsSome session.now.pass) }
    {
        let keys = keys_of(alloc, session)?;
        Ok(Opener {
            session: session.copied(),
            keys,
        })
    }

    /// Deciphers a datagram in place, exactly where its GRE header is read with a key in a session with a
    /// passphrase, also if a later test fails; and says where its message lies, of which `Part::item` gives the item.
    pub fn open(&mut self, channel: Channel, octets: &mut [u8]) -> Result<Part, WireBad>
        ensures message { message_at octets.new result ≡ message_of self.old channel octets.old }
        ensures within { IfOk result (λ part. LiesIn part octets.new) }
        ensures octets { octets.new ≡ plain_of self.old channel octets.old }
        ensures same { self.new ≡ self.old }
    {
        message_part(&self.session, &mut self.keys, channel, octets)
    }

    /// Takes a datagram: its item, or the first test that fails. It deciphers it in place as `open` does.
    #[tactic(auto, unfolding(crate::specs::Item::item_of))]
    pub fn take<'a>(&mut self, channel: Channel, octets: &'a mut [u8]) -> Result<Item<'a>, WireBad>
        ensures value { result ≡ item_of self.old channel octets.entry.now }
        ensures same { self.new ≡ self.old }
    {
        match self.open(channel, octets) {
            Ok(part) => part.item(self.session.tunnel, octets),
            Err(bad) => Err(bad),
        }
    }

    /// Does what `open` does, in a tunnel with several sessions that differ in their ports alone: says also at which
    /// place among the ports the message is. That is the place of the port that the datagram names, or whose next one it
    /// names. A keepalive, which names none, is at place 0, and what is for none of the ports is refused as it is there.
    pub fn open_any(
        &mut self,
        ports: &[u16],
        channel: Channel,
        octets: &mut [u8],
    ) -> Result<(u8, Part), WireBad>
        requires ports { ArePorts ports.now }
        ensures message { placed_message octets.new result ≡ message_among ports.now self.old channel octets.old }
        ensures within { IfOk result (λ found. LiesIn found.1 octets.new) }
        ensures octets { octets.new ≡ plain_of self.old channel octets.old }
        ensures same { self.new ≡ self.old }
    {
        part_among(&self.session, &mut self.keys, ports, channel, octets)
    }

    /// Takes a datagram of one of several sessions in one tunnel, which differ in their ports alone: its item and the
    /// place of its port, or the first test that fails. It is deciphered once, as `open_any` does.
    pub fn take_any<'a>(
        &mut self,
        ports: &[u16],
        channel: Channel,
        octets: &'a mut [u8],
    ) -> Result<(u8, Item<'a>), WireBad>
        requires ports { ArePorts ports.now }
        ensures value { result ≡ item_among ports.now self.old channel octets.entry.now }
        ensures same { self.new ≡ self.old }
    {
        let tunnel = self.session.tunnel;
        match self.open_any(ports, channel, octets) {
            Ok((place, part)) => match part.item(tunnel, octets) {
                Ok(item) => Ok((place, item)),
                Err(bad) => Err(bad),
            },
            Err(bad) => Err(bad),
        }
    }
}
