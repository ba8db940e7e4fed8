//! Which sockets of a link have something to read, as the system says.
ghost use Rattle.std.specs.Prelude.{◌≡◌};
ghost use Rattle.outside_net.specs.Sockets.{is_ready};

use link_channels::Channel;

/// Of media's socket and of control's, whether a read of it may give anything.
#[derive(Clone, Copy)]
pub struct Ready {
    media: bool,
    control: bool,
}

impl Ready {
    ghost use Rattle.std.specs.Prelude.{◌≡◌, ◌||◌};
    ghost use Rattle.outside_net.specs.Sockets.{is_ready, has_ready};

    /// What a look of the system at both came to: its answer, and what it told of each socket.
    pub fn of(count: i32, media: i16, control: i16) -> Ready
        ensures value { result ≡ record { media = is_ready count media; control = is_ready count control } }
    {
        Ready {
            media: is_ready(count, media),
            control: is_ready(count, control),
        }
    }

    /// Whether any has something.
    pub fn any(self) -> bool
        ensures value { result ≡ (self.media || self.control) }
    {
        self.media || self.control
    }

    /// Whether a channel's socket is to be looked at. That of a tunnel is in any case.
    pub fn has(self, channel: Channel) -> bool
        ensures value { result ≡ has_ready self channel }
    {
        match channel {
            Channel::Media => self.media,
            Channel::Control => self.control,
            Channel::Tunnel => true,
        }
    }
}

/// A socket of which the system told anything, a fault too, is read; and each one, where the look itself failed.
fn is_ready(count: i32, told: i16) -> bool
    ensures value { result ≡ is_ready count told }
{
    count < 0 || told != 0
}

/// How many reads of a link that doesn't rest take the word of the one that found nothing.
const QUIET_READS: u8 = 7;

/// What a link knows of its sockets without a look.
#[derive(Clone, Copy)]
pub enum Known {
    /// Nothing.
    Nothing,
    /// Which had something when it last rested.
    Ready(Ready),
    /// None had anything, and so many reads more take that.
    Quiet(u8),
}

impl Known {
    ghost use Rattle.std.specs.Prelude.{◌≡◌};
    ghost use Rattle.outside_net.specs.Sockets.{known_after, known_looked, known_taken};

    /// After a rest that came to this: where it found nothing, the next read needs no look of its own.
    pub fn after_rest(ready: Ready) -> Known
        ensures value { result ≡ known_after ready }
    {
        if ready.any() {
            Known::Ready(ready)
        } else {
            Known::Quiet(1)
        }
    }

    /// After a look: where that found nothing, so many reads more take its word.
    pub fn after_look(has_found: bool) -> Known
        ensures value { result ≡ known_looked has_found }
    {
        if has_found {
            Known::Nothing
        } else {
            Known::Quiet(QUIET_READS)
        }
    }

    /// What is known once a read has taken the word that nothing is there; `None` where it has to look.
    pub fn taken(self) -> Option<Known>
        ensures value { result ≡ known_taken self }
    {
        match self {
            Known::Quiet(reads) if reads > 0 => Some(Known::Quiet(reads - 1)),
            Known::Quiet(_) | Known::Nothing | Known::Ready(_) => None,
        }
    }
}
