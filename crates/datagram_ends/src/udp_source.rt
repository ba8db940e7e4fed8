//! A source over UDP. What the system gives is not told: the trusted edge of the system.
ghost use Rattle.std.specs.Prelude.{◌≡◌, ◌≢◌, ◌<◌, ◌≤◌, ℕ, Bool, true, false, Ok, Some, IfOk, OnErr, [], length, min, take};
ghost use Rattle.std.specs.Io.{ReadsAtMost};
ghost use Rattle.link_channels.specs.declared.bounds.TheConstants.{MAX_PAYLOAD as max_payload};
ghost use Rattle.outside_io.specs.Causes.{HasCause, Rose, has_failed};
ghost use Rattle.outside_io.specs.Real.{silent};
ghost use Rattle.outside_io.specs.Told.{Takes, IsEmpty};
ghost use Rattle.outside_net.specs.Sockets.{IsAt};

use crate::media::payload_of;
use crate::sockets::{Look, missed, quick_socket};
use end_sign::EndSign;
use libc::net::{POLLIN, poll};
use libc::types::pollfd;
use link_channels::{MAX_DATAGRAM, MAX_PAYLOAD};
use media_address::{Form, MediaAddress};
use outside_io::{Failed, Source, copy_front};
use std::io;
use std::net::{Net, SocketAddr, UdpSocket};
use std::os::fd::AsRawFd;

/// How many datagrams that carry nothing are passed over at most before whoever asks has its turn again.
const MAX_LOOKS: usize = 64;

/// For how long a wait for a datagram lasts at most, in milliseconds, before the sign is looked at again.
const WAIT_MS: i32 = 100;

/// A socket that is bound to an address, what is left of the payload that it took last, and a sign that ends the source. Each datagram
/// gives its payload whole, and no octets of two are put together. A read waits for a datagram with a payload: an empty one is passed over,
/// and one with more than 1,500 octets of the stream, or of more than 2,048 octets, is dropped. What it has still to give is not told.
#[derive(Drop)]
pub struct UdpSource<E> {
    socket: UdpSocket,
    form: Form,
    sign: E,
    block: [u8; MAX_PAYLOAD],
    from: usize,
    to: usize,
    ghost ordered: { (from ≤ to) × (to ≤ 1500) },
    /// A look has failed, and no read has told that yet.
    has_failed: bool,
    faults: u64,
}

/// What a source is bound to: exactly the address and port.
fn bound_to(address: &MediaAddress) -> SocketAddr
    ensures value { IsAt address.now.host address.now.port result }
{
    SocketAddr::new(address.host, address.port)
}

impl<E: Drop> UdpSource<E> {
    ghost use Rattle.std.specs.Prelude.{◌≡◌, IfOk};

    /// Bound to the address. A group's datagrams come to it where something on this machine has joined the group.
    pub fn open<R: Net>(rt: &R, address: &MediaAddress, sign: E) -> io::Result<UdpSource<E>>
        ensures sign { IfOk result (λ opened. opened.sign ≡ sign) }
        ensures form { IfOk result (λ opened. opened.form ≡ address.now.form) }
        ensures fresh { IfOk result (λ opened. opened.faults ≡ 0) }
    {
        let socket = quick_socket(rt, bound_to(address))?;
        Ok(UdpSource {
            socket,
            form: address.form,
            sign,
            block: [0; MAX_PAYLOAD],
            from: 0,
            to: 0,
            has_failed: false,
            faults: 0,
        })
    }
}

impl<E> UdpSource<E> {
    ghost use Rattle.std.specs.Prelude.{◌≡◌, ◌≤◌, ◌||◌, [], false, true, length, min, take, drop};
    ghost use Rattle.datagram_ends.specs.Media.{payload_of};
    ghost use Rattle.datagram_ends.specs.Held.{held_by};
    ghost use Rattle.datagram_ends.specs.Looks.{is_failed};

    /// Whether octets of a payload are left.
    #[tactic(auto, using(crate::proofs::HeldLemmas::held_some))]
    fn holds(&self) -> bool
        ensures none { result ≡ false → held_by self.now ≡ [] }
        ensures some { result ≡ true → held_by self.now ≢ [] }
    {
        self.from < self.to
    }

    /// Holds the payload of a datagram, all of it.
    fn hold(&mut self, datagram: &[u8])
        ensures held { held_by self.new ≡ payload_of self.old.form datagram.now }
        ensures form { self.new.form ≡ self.old.form }
        ensures failed { self.new.has_failed ≡ self.old.has_failed }
        ensures faults { self.new.faults ≡ self.old.faults }
    {
        self.from = 0;
        self.to = copy_front(payload_of(self.form, datagram), &mut self.block);
    }

    /// Takes the next datagram, if one is there, in place of what is left of the last one. A failure is kept until a read tells it.
    fn look(&mut self) -> Look
        ensures failed { self.new.has_failed ≡ (self.old.has_failed || is_failed result) }
        ensures form { self.new.form ≡ self.old.form }
        ensures faults { self.new.faults ≡ self.old.faults }
    {
        let mut datagram = [0; MAX_DATAGRAM + 1];
        self.from = 0;
        self.to = 0;
        match self.socket.recv_from(&mut datagram) {
            Ok((count, _)) => {
                if count <= MAX_DATAGRAM {
                    self.hold(&datagram[..count]);
                }
                Look::Took
            }
            Err(error) => {
                let look = missed(error.kind());
                if matches!(look, Look::Failed) {
                    self.has_failed = true;
                }
                look
            }
        }
    }

    /// Gives what is left of the last payload, as much as fits.
    fn give(&mut self, buf: &mut [u8]) -> usize
        ensures within { result ≤ length buf.new }
        ensures count { result ≡ min (length buf.old) (length (held_by self.old)) }
        ensures given { take result buf.new ≡ take result (held_by self.old) }
        ensures left { held_by self.new ≡ drop result (held_by self.old) }
        ensures failed { self.new.has_failed ≡ self.old.has_failed }
        ensures faults { self.new.faults ≡ self.old.faults }
    {
        let count = copy_front(&self.block[self.from..self.to], buf);
        self.from += count;
        count
    }

    /// Gives what is left of the last payload, all of it.
    fn give_whole(&mut self, block: &mut [u8; MAX_PAYLOAD]) -> usize
        ensures within { result ≤ max_payload }
        ensures whole { take result block.new ≡ held_by self.old }
        ensures none { held_by self.new ≡ [] }
        ensures failed { self.new.has_failed ≡ self.old.has_failed }
        ensures faults { self.new.faults ≡ self.old.faults }
    {
        self.give(block)
    }

    /// Waits until a datagram is there, or a tenth of a second has passed.
    fn wait(&self) {
        let mut ends = [pollfd {
            fd: self.socket.as_raw_fd(),
            events: POLLIN,
            revents: 0,
        }];
        let _ = poll(&mut ends, WAIT_MS);
    }
}

impl<E: EndSign> UdpSource<E> {
    ghost use Rattle.datagram_ends.specs.Held.{held_by, GoesOn};

    /// Takes in what is there until a datagram carries octets. Whether a read gives something now: octets, a fault, or its end, since the
    /// program is to end.
    pub fn is_ready(&mut self) -> bool
        ensures held { held_by self.old ≢ [] → (result ≡ true) × (held_by self.new ≡ held_by self.old) }
        ensures failed { self.old.has_failed ≡ true → (result ≡ true) × (self.new.has_failed ≡ true) }
        ensures ended { (s : ℕ → Bool) → E.answers self.old.sign ≡ Some s → s 0 ≡ true → result ≡ true }
        ensures form { self.new.form ≡ self.old.form }
        ensures faults { self.new.faults ≡ self.old.faults }
    {
        if self.sign.asked() || self.holds() || self.has_failed {
            return true;
        }
        for _ in 0..MAX_LOOKS {
            match self.look() {
                Look::Took => {
                    if self.holds() {
                        return true;
                    }
                }
                Look::Nothing => return false,
                Look::Failed => return true,
            }
        }
        false
    }

    /// Waits until a datagram carries octets, or the program is to end.
    pub fn await_first(&mut self)
        ensures form { self.new.form ≡ self.old.form }
        ensures faults { self.new.faults ≡ self.old.faults }
    {
        for _ in 0..u64::MAX {
            if self.is_ready() {
                return;
            }
            self.wait();
        }
    }

    /// Tells a failure, once.
    fn fail(&mut self) -> Failed
        ensures cause { Rose self.old.faults self.new.faults }
        ensures once { self.new.has_failed ≡ false }
    {
        self.has_failed = false;
        self.faults = self.faults.saturating_add(1);
        Failed
    }

    /// Waits until octets of a payload are held. Whether some are: none are where the program is to end.
    fn hold_next(&mut self) -> Result<bool, Failed>
        requires clear { self.old.has_failed ≡ false }
        ensures clear { self.new.has_failed ≡ false }
        ensures cause { HasCause self.old.faults self.new.faults result }
    {
        for _ in 0..u64::MAX {
            match self.look() {
                Look::Took => {
                    if self.holds() {
                        return Ok(true);
                    }
                }
                Look::Nothing => {
                    if self.sign.asked() {
                        return Ok(false);
                    }
                    self.wait();
                }
                Look::Failed => return Err(self.fail()),
            }
        }
        Ok(false)
    }

    /// The same, unless some are held, a look has failed, or the program is to end: then none are.
    fn hold_or_end(&mut self) -> Result<bool, Failed>
        ensures held { GoesOn (E.answers self.old.sign) → held_by self.old ≢ []
            → (result ≡ Ok true) × (held_by self.new ≡ held_by self.old) }
        ensures told { GoesOn (E.answers self.old.sign) → held_by self.old ≡ [] → self.old.has_failed ≡ true
            → has_failed result ≡ true }
        ensures once { OnErr result (self.new.has_failed ≡ false) }
        ensures ended { (s : ℕ → Bool) → E.answers self.old.sign ≡ Some s → s 0 ≡ true → result ≡ Ok false }
        ensures cause { HasCause self.old.faults self.new.faults result }
    {
        if self.sign.asked() {
            return Ok(false);
        }
        if self.holds() {
            return Ok(true);
        }
        if self.has_failed {
            return Err(self.fail());
        }
        self.hold_next()
    }

    /// Gives the next payload, whole, or what is left of the last one, and says how long it is. It waits for one. 0 is its end, where the
    /// program is to end.
    pub fn read_payload(&mut self, block: &mut [u8; MAX_PAYLOAD]) -> Result<usize, Failed>
        ensures within { IfOk result (λ count. count ≤ max_payload) }
        ensures held { GoesOn (E.answers self.old.sign) → held_by self.old ≢ []
            → IfOk result (λ count. take count block.new ≡ held_by self.old) }
        ensures none { IfOk result (λ count. 0 < count → held_by self.new ≡ []) }
        ensures told { GoesOn (E.answers self.old.sign) → held_by self.old ≡ [] → self.old.has_failed ≡ true
            → has_failed result ≡ true }
        ensures once { OnErr result (self.new.has_failed ≡ false) }
        ensures ended { (s : ℕ → Bool) → E.answers self.old.sign ≡ Some s → s 0 ≡ true → result ≡ Ok 0 }
        ensures cause { HasCause self.old.faults self.new.faults result }
    {
        match self.hold_or_end() {
            Ok(true) => Ok(self.give_whole(block)),
            Ok(false) => Ok(0),
            Err(bad) => Err(bad),
        }
    }
}

impl<E: EndSign> Source for UdpSource<E> {
    ghost use Rattle.datagram_ends.specs.Held.{held_by, Gives, GoesOn};

    ghost remaining = { λ _. silent };

    ghost faults = { λ source. source.faults };

    /// Gives octets of the last payload, or of the next one, for which it waits. Where the program is to end it gives its end.
    fn read(&mut self, buf: &mut [u8]) -> Result<usize, Failed>
        ensures within { ReadsAtMost result buf.new }
        ensures ok { IfOk result (λ count. Takes silent silent (take count buf.new)) }
        ensures end { IfOk result (λ count. count ≡ 0 → 0 < length buf.new → IsEmpty silent) }
        ensures err { OnErr result (silent ≡ silent) }
        ensures cause { HasCause self.old.faults self.new.faults result }
        ensures held { GoesOn (E.answers self.old.sign) → held_by self.old ≢ []
            → IfOk result (λ count. Gives self.old self.new count (take count buf.new)) }
        ensures count { GoesOn (E.answers self.old.sign) → held_by self.old ≢ []
            → result ≡ Ok (min (length buf.old) (length (held_by self.old))) }
        ensures told { GoesOn (E.answers self.old.sign) → held_by self.old ≡ [] → self.old.has_failed ≡ true
            → has_failed result ≡ true }
        ensures once { OnErr result (self.new.has_failed ≡ false) }
        ensures ended { (s : ℕ → Bool) → E.answers self.old.sign ≡ Some s → s 0 ≡ true → result ≡ Ok 0 }
    {
        match self.hold_or_end() {
            Ok(true) => Ok(self.give(buf)),
            Ok(false) => Ok(0),
            Err(bad) => Err(bad),
        }
    }
}
