//! Datagrams that were made, in memory of a fixed size.
ghost use Rattle.std.specs.Prelude.{◌≡◌, ◌<◌, ◌≤◌, [], None, Ok, false, length, is_some};
ghost use Rattle.link_channels.specs.declared.channel.Channel.TheVariants.{Control};
ghost use Rattle.link_channels.specs.declared.profile.Profile.TheVariants.{Main};
ghost use Rattle.rtcp_compound.specs.Compound.{Content};
ghost use Rattle.rist_wire.specs.Writing.{is_spent, after_pair};
ghost use Rattle.rist_reporter.specs.Control.{Alive, Compound};

use link_channels::{Channel, MAX_DATAGRAM};
use request_rules::Asked;
use rist_wire::Shutter;
use rtcp_compound::CompoundOut;
use std::marker::Model;

/// A datagram that was made. A contract sees its channel and its octets.
#[derive(Debug, Drop)]
pub struct Out {
    channel: Channel,
    length: usize,
    places: [u8; MAX_DATAGRAM],
}

impl Model for Out {
    ghost use Rattle.link_channels.specs.declared.bounds.TheConstants.{MAX_DATAGRAM};
    ghost use Rattle.std.specs.Prelude.{◌≤◌, take};
    ghost use Rattle.rist_reporter.specs.Made.{OutOf};

    ghost Value = { OutOf };

    ghost view = { λ o. record { channel = o.channel; octets = take o.length o.places } };

    ghost invariant = { λ o. o.length ≤ MAX_DATAGRAM };
}

/// What one step made: one datagram or two, in their order, and the words of the requests in them.
#[derive(Debug, Drop)]
pub struct Outs {
    /// The compound, or a keepalive alone.
    pub first: Out,
    /// The keepalive behind a compound.
    pub second: Option<Out>,
    /// At most 64 words.
    pub asked: Asked,
}

impl Out {
    ghost use Rattle.rist_reporter.specs.Made.{IsOpened};

    /// The channel on which it goes.
    pub fn channel(&self) -> Channel
        ensures value { result ≡ self.now.channel }
    {
        self.channel
    }

    /// Its octets.
    pub fn octets(&self) -> &[u8]
        ensures value { result.now ≡ self.now.octets }
        ensures within { length result.now ≤ MAX_DATAGRAM }
    {
        &self.places[..self.length]
    }

    /// An empty datagram.
    fn none() -> Out
        ensures value { result ≡ record { channel = Control; octets = [] } }
    {
        Out {
            channel: Channel::Control,
            length: 0,
            places: [0; MAX_DATAGRAM],
        }
    }

    /// The datagram of a compound, where a pair is left for it.
    pub(crate) fn control(shutter: &mut Shutter, compound: &CompoundOut) -> Out
        requires paired { is_some shutter.old.sealer ≡ is_some shutter.old.session.pass }
        requires left { is_spent shutter.old.sealer ≡ false }
        requires begun { 0 < length compound.now.octets }
        ensures item { IsOpened shutter.old.session result (Compound compound.now.packets) }
        ensures shutter { shutter.new ≡ record shutter.old { sealer = after_pair shutter.old.sealer } }
    {
        let mut places = [0; MAX_DATAGRAM];
        let Ok((channel, length)) = shutter.control(compound.octets(), &mut places) else {
            unreachable!()
        };
        Out {
            channel,
            length,
            places,
        }
    }

    /// The datagram of a keepalive, where a pair is left for it.
    pub(crate) fn keepalive(shutter: &mut Shutter, ssrc: u32) -> Out
        requires paired { is_some shutter.old.sealer ≡ is_some shutter.old.session.pass }
        requires left { is_spent shutter.old.sealer ≡ false }
        requires tunnel { shutter.old.session.profile ≡ Main }
        ensures item { IsOpened shutter.old.session result (Alive ssrc) }
        ensures shutter { shutter.new ≡ record shutter.old { sealer = after_pair shutter.old.sealer } }
    {
        let mut places = [0; MAX_DATAGRAM];
        let Ok((channel, length)) = shutter.keepalive(ssrc, &mut places) else {
            unreachable!()
        };
        Out {
            channel,
            length,
            places,
        }
    }
}

impl Outs {
    /// Room for what a step makes: an empty datagram and no words.
    pub fn none() -> Outs
        ensures first { result.first ≡ record { channel = Control; octets = [] } }
        ensures second { result.second ≡ None }
        ensures asked { result.asked ≡ [] }
    {
        Outs {
            first: Out::none(),
            second: None,
            asked: Asked::none(),
        }
    }
}
