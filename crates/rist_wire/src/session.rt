use gre_tunnel::Tunnel;
use link_channels::Profile;
use psk_keys::Phrase;
use seq_unwrap::Width;

/// What both ends of a session know of its datagrams.
#[derive(Drop)]
pub struct Session {
    /// Which of RIST's profiles the datagrams are in.
    pub profile: Profile,
    /// The virtual port of media in the tunnel: even, 2 to 65,534. The next one is control's.
    pub port: u16,
    /// The passphrase, where datagrams are enciphered.
    pub pass: Option<Phrase>,
    /// The bits of a key of AES: 128 or 256 (FIPS 197, section 5).
    pub bits: u16,
    /// Whether null packets are deleted where datagrams are written.
    pub nulls: bool,
    /// How many bits of a number are written.
    pub width: Width,
    /// Whether RTP and RTCP are written as full datagrams, behind IPv4 and UDP, and not behind four octets of ports. Both
    /// forms are read.
    pub full: bool,
    /// Whose form the tunnel's datagrams have.
    pub tunnel: Tunnel,
    /// Whether a sender asks for the round-trip time in each of its reports.
    pub echo: bool,
}

impl Session {
    ghost use Rattle.std.specs.Prelude.{◌≡◌};

    // The same session once more, since a passphrase has no `Clone`.
    pub(crate) fn copied(&self) -> Session
        ensures value { result ≡ self.now }
    {
        Session {
            profile: self.profile,
            port: self.port,
            pass: match &self.pass {
                Some(pass) => Some(Phrase::of(pass.octets())),
                None => None,
            },
            bits: self.bits,
            nulls: self.nulls,
            width: self.width,
            full: self.full,
            tunnel: self.tunnel,
            echo: self.echo,
        }
    }
}
