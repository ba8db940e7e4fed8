//! Which channels' peers are known.

use link_channels::Channel;

/// Of each channel, whether its peer is known.
#[derive(Clone, Copy)]
pub struct Known {
    media: bool,
    control: bool,
    tunnel: bool,
}

impl Known {
    ghost use Rattle.std.specs.Prelude.{◌≡◌};
    ghost use Rattle.link_channels.specs.declared.channel.Channel.{Channel as ChannelValue};
    ghost use Rattle.outside_net.specs.Links.{LearnsOf};
    ghost use Rattle.outside_net.specs.Scripts.{knows_in};

    pub fn all(known: bool) -> Known
        ensures value { (c : ChannelValue) → knows_in result c ≡ known }
    {
        Known {
            media: known,
            control: known,
            tunnel: known,
        }
    }

    pub fn has(&self, channel: Channel) -> bool
        ensures value { result ≡ knows_in self.now channel }
    {
        match channel {
            Channel::Media => self.media,
            Channel::Control => self.control,
            Channel::Tunnel => self.tunnel,
        }
    }

    pub fn learn(&mut self, channel: Channel)
        ensures value { LearnsOf channel (knows_in self.old) (knows_in self.new) }
    {
        match channel {
            Channel::Media => self.media = true,
            Channel::Control => self.control = true,
            Channel::Tunnel => self.tunnel = true,
        }
    }
}
