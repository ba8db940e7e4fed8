//! A source that ends where the program is to end.
ghost use Rattle.std.specs.Prelude.{◌≡◌, ◌<◌, ◌<ℤ◌, pos, ℕ, Bool, true, false, Some, None, Ok, IfOk, OnErr, [], length, take};
ghost use Rattle.std.specs.Io.{ReadsAtMost};
ghost use Rattle.outside_io.specs.Causes.{HasCause};
ghost use Rattle.outside_io.specs.Told.{Takes, IsEmpty};
ghost use Rattle.end_sign.specs.Until.{SaysNo};

use crate::EndSign;
use libc::net::{POLLIN, poll};
use libc::types::pollfd;
use outside_io::{Failed, Source};

/// For how long a wait for the source lasts at most, in milliseconds, before the sign is looked at again.
const WAIT_MS: i32 = 100;

/// A source whose reads give the end once a sign says that the program is to end. A descriptor that may make wait is waited for
/// in parts of 100 ms, and the sign is looked at between them. What it has still to give is not told.
#[derive(Drop)]
pub struct UntilSource<S, E> {
    source: S,
    sign: E,
    /// The descriptor that is waited for; below 0 where none is.
    descriptor: i32,
}

impl<S, E> UntilSource<S, E> {
    /// A source that is read without a wait.
    pub fn over(source: S, sign: E) -> UntilSource<S, E>
        ensures source { result.source ≡ source }
        ensures sign { result.sign ≡ sign }
        ensures direct { result.descriptor <ℤ pos 0 }
    {
        UntilSource {
            source,
            sign,
            descriptor: -1,
        }
    }

    /// A source whose descriptor is waited for before each read.
    pub fn awaiting(source: S, sign: E, descriptor: i32) -> UntilSource<S, E>
        ensures source { result.source ≡ source }
        ensures sign { result.sign ≡ sign }
        ensures descriptor { result.descriptor ≡ descriptor }
    {
        UntilSource {
            source,
            sign,
            descriptor,
        }
    }
}

impl<S, E: Drop> UntilSource<S, E> {
    /// The source behind.
    pub fn back(self) -> S
        ensures source { result ≡ self.source }
    {
        self.source
    }
}

impl<S, E: EndSign> UntilSource<S, E> {
    /// Waits until the descriptor gives something, if only its end, or the program is to end.
    pub fn wait(&mut self)
        ensures source { self.new.source ≡ self.old.source }
    {
        await_source(&mut self.sign, self.descriptor);
    }

    /// Whether a read doesn't wait: the descriptor gives something, if only its end, none is waited for, or the program is to end.
    pub fn is_ready(&mut self) -> bool
        ensures source { self.new.source ≡ self.old.source }
        ensures direct { self.old.descriptor <ℤ pos 0 → result ≡ true }
    {
        self.sign.asked() || is_there(self.descriptor, 0)
    }
}

/// Whether a descriptor gives something, if only its end, within so many milliseconds. Where none is waited for the answer is yes.
fn is_there(descriptor: i32, wait: i32) -> bool
    ensures direct { descriptor <ℤ pos 0 → result ≡ true }
{
    if descriptor < 0 {
        return true;
    }
    let mut ends = [pollfd {
        fd: descriptor,
        events: POLLIN,
        revents: 0,
    }];
    // Where it fails, the read says so.
    poll(&mut ends, wait) != 0
}

/// Waits on where nothing was there at first. False where the program is to end before.
fn await_longer<E: EndSign>(sign: &mut E, descriptor: i32) -> bool
    ensures never { SaysNo (E.answers sign.old) → result ≡ true }
{
    for _ in 0..u64::MAX {
        if sign.asked() {
            return false;
        }
        if is_there(descriptor, WAIT_MS) {
            return true;
        }
    }
    // After so many waits the read waits by itself.
    true
}

/// Waits until a descriptor gives something. False where the program is to end before.
fn await_source<E: EndSign>(sign: &mut E, descriptor: i32) -> bool
    ensures asked { (s : ℕ → Bool) → E.answers sign.old ≡ Some s → s 0 ≡ true → result ≡ false }
    ensures direct { (s : ℕ → Bool) → E.answers sign.old ≡ Some s → s 0 ≡ false → descriptor <ℤ pos 0 → result ≡ true }
    ensures never { SaysNo (E.answers sign.old) → result ≡ true }
{
    if sign.asked() {
        return false;
    }
    if is_there(descriptor, WAIT_MS) {
        return true;
    }
    await_longer(sign, descriptor)
}

impl<S: Source, E: EndSign> Source for UntilSource<S, E> {
    ghost use Rattle.std.specs.Prelude.{None};

    ghost remaining = { λ _. None };

    ghost ahead = { λ until. S.ahead until.source };

    ghost faults = { λ until. S.faults until.source };

    /// Reads the source behind, unless the program is to end: then it gives its end, and the source isn't read.
    fn read(&mut self, buf: &mut [u8]) -> Result<usize, Failed>
        ensures within { ReadsAtMost result buf.new }
        ensures ended { (s : ℕ → Bool) → E.answers self.old.sign ≡ Some s → s 0 ≡ true → result ≡ Ok 0 }
        ensures unread { (s : ℕ → Bool) → E.answers self.old.sign ≡ Some s → s 0 ≡ true
            → self.new.source ≡ self.old.source }
        ensures given { (s : ℕ → Bool) → E.answers self.old.sign ≡ Some s → s 0 ≡ false → self.old.descriptor <ℤ pos 0
            → IfOk result (λ count. Takes (S.remaining self.old.source) (S.remaining self.new.source)
            (take count buf.new)) }
        // Where the sign never says yes, an end is that of the source, however long nothing comes.
        ensures kept { SaysNo (E.answers self.old.sign)
            → IfOk result (λ count. Takes (S.remaining self.old.source) (S.remaining self.new.source)
            (take count buf.new)) }
        ensures end { SaysNo (E.answers self.old.sign)
            → IfOk result (λ count. count ≡ 0 → 0 < length buf.new → IsEmpty (S.remaining self.new.source)) }
        ensures ahead { OnErr result (S.ahead self.new.source ≡ []) }
        ensures cause { HasCause (S.faults self.old.source) (S.faults self.new.source) result }
    {
        if !await_source(&mut self.sign, self.descriptor) {
            return Ok(0);
        }
        self.source.read(buf)
    }
}
