ghost use Rattle.std.specs.Prelude.{◌≡◌, ◌≤◌, ◌<◌, ◌+◌, ◌-◌, ◌∷◌, [], ℕ, List, length, take, drop, min, IfOk, OnOk, OnErr};
ghost use Rattle.std.specs.Io.{ReadsAtMost};
ghost use Rattle.outside_io.specs.Causes.{HasCause};
ghost use Rattle.outside_io.specs.Told.{Takes, IsEmpty};
ghost use Rattle.block_source.specs.Block.{BlockState, most_ahead, between, behind, IsAllAhead};
ghost use Rattle.block_source.specs.Lending.{TakesLent, ReturnsLent};

use outside_io::{Failed, Source, copy_front};
use std::marker::Model;

/// Octets that one read of the source can bring.
const BLOCK_LEN: usize = 65536;

/// A source through a block of 65,536 octets.
#[derive(Drop)]
pub struct Block<S: Source> {
    source: S,
    octets: [u8; BLOCK_LEN],
    /// Where the octets begin that were taken last.
    last: usize,
    from: usize,
    to: usize,
}

impl<S: Source> Model for Block<S> {
    ghost Value = { BlockState };

    ghost view = { λ b. record {
      remaining = behind (between b.octets b.from b.to) (S.remaining b.source);
      ahead = between b.octets b.from b.to;
      taken = between b.octets b.last b.from;
      faults = S.faults b.source;
    } };

    ghost invariant = { λ b. (b.last ≤ b.from) × (b.from ≤ b.to) × (b.to ≤ 65536) };
}

impl<S: Source> Block<S> {
    /// The block is empty at first.
    pub fn over(source: S) -> Block<S>
        ensures value { result ≡ record {
          remaining = S.remaining source;
          ahead = [];
          taken = [];
          faults = S.faults source;
        } }
    {
        Block {
            source,
            octets: [0; BLOCK_LEN],
            last: 0,
            from: 0,
            to: 0,
        }
    }

    /// Gives the source back. What stands in the block is lost.
    pub fn back(self) -> S
        ensures value { self.remaining ≡ behind self.ahead (S.remaining result) }
        ensures within { length self.ahead ≤ most_ahead }
        ensures same { S.faults result ≡ self.faults }
    {
        self.source
    }

    // Reads a piece of the source into the block where that has no octet left.
    fn fill(&mut self) -> Result<(), Failed>
        ensures same { self.new.remaining ≡ self.old.remaining }
        ensures end { OnOk result (self.new.ahead ≡ [] → IsEmpty self.new.remaining) }
        ensures err { OnErr result (self.new.ahead ≡ []) }
        ensures cause { HasCause self.old.faults self.new.faults result }
    {
        if self.from < self.to {
            return Ok(());
        }
        self.last = 0;
        self.from = 0;
        self.to = 0;
        match self.source.read(&mut self.octets) {
            Ok(count) => {
                self.to = count;
                Ok(())
            }
            Err(bad) => Err(bad),
        }
    }

    // Gives octets of the block, as many as fit.
    fn give(&mut self, buf: &mut [u8]) -> usize
        ensures count { result ≡ min (length buf.old) (length self.old.ahead) }
        ensures value { Takes self.old.remaining self.new.remaining (take result buf.new) }
        ensures size { length buf.new ≡ length buf.old }
        ensures none { self.old.ahead ≡ [] → self.new ≡ self.old }
        ensures same { self.new.faults ≡ self.old.faults }
    {
        let count = copy_front(&self.octets[self.from..self.to], buf);
        self.from += count;
        count
    }

    /// Takes the next octets where they stand in the block: so many, or all that remain. Says how many.
    pub fn take(&mut self, count: usize) -> Result<usize, Failed>
        requires { count ≤ most_ahead }
        ensures size { IfOk result (λ got. (got ≡ length self.new.taken) × (got ≤ count)) }
        ensures ok { OnOk result (Takes self.old.remaining self.new.remaining self.new.taken) }
        ensures end { IfOk result (λ got. got < count → IsEmpty self.new.remaining) }
        // What came before a fault is taken too.
        ensures err { OnErr result ((part : List ℕ) × (length part < count)
            × Takes self.old.remaining self.new.remaining part) }
        ensures ahead { OnErr result (self.new.ahead ≡ []) }
        ensures cause { HasCause self.old.faults self.new.faults result }
    {
        // Mostly they stand there.
        if count <= self.to - self.from {
            return Ok(self.pass(count));
        }
        match self.gather(count) {
            Ok(()) => Ok(self.pass(count)),
            Err(bad) => {
                self.pass(count);
                Err(bad)
            }
        }
    }

    /// The octets that were taken last.
    pub fn taken(&self) -> &[u8]
        ensures value { result.now ≡ self.now.taken }
    {
        &self.octets[self.last..self.from]
    }

    /// Lends the octets that were taken last to a call, which may change them where they stand.
    pub fn lend<A, B, R, F: FnOnce(&mut [u8], &mut A, &mut B) -> R>(
        &mut self,
        one: &mut A,
        other: &mut B,
        call: F,
    ) -> R
        requires call { TakesLent (F.pre call) self.old.taken one.old other.old }
        ensures called { ReturnsLent (F.post call) self.old.taken self.new.taken one.old one.new
            other.old other.new result }
        ensures rest { self.new ≡ record self.old { taken = self.new.taken } }
    {
        call(&mut self.octets[self.last..self.from], one, other)
    }

    // Reads into the block until so many octets stand in it, or the source ends. A call of its own, so that octets that
    // stand there cost little.
    #[inline(never)]
    fn gather(&mut self, count: usize) -> Result<(), Failed>
        requires { count ≤ most_ahead }
        ensures same { self.new.remaining ≡ self.old.remaining }
        ensures ok { OnOk result (length self.new.ahead < count → IsAllAhead self.new) }
        ensures err { OnErr result (length self.new.ahead < count) }
        ensures cause { HasCause self.old.faults self.new.faults result }
    {
        while self.to - self.from < count {
            match self.read_on() {
                Ok(0) => return Ok(()),
                Ok(_) => {}
                Err(bad) => return Err(bad),
            }
        }
        Ok(())
    }

    // Reads a piece of the source behind what stands in the block, which moves to its front. Says how many octets came.
    fn read_on(&mut self) -> Result<usize, Failed>
        requires room { length self.old.ahead < most_ahead }
        ensures same { self.new.remaining ≡ self.old.remaining }
        ensures more { IfOk result (λ count. length self.new.ahead ≡ length self.old.ahead + count) }
        ensures end { IfOk result (λ count. count ≡ 0 → IsAllAhead self.new) }
        ensures err { OnErr result (self.new.ahead ≡ self.old.ahead) }
        ensures cause { HasCause self.old.faults self.new.faults result }
    {
        let end = move_to_front(&mut self.octets, self.from, self.to);
        self.last = 0;
        self.from = 0;
        self.to = end;
        match self.source.read(&mut self.octets[end..]) {
            Ok(count) => {
                self.to = end + count;
                Ok(count)
            }
            Err(bad) => Err(bad),
        }
    }

    // Passes over octets of the block: so many, or all that stand in it. Says how many.
    fn pass(&mut self, count: usize) -> usize
        ensures count { result ≡ min count (length self.old.ahead) }
        ensures taken { self.new.taken ≡ take result self.old.ahead }
        ensures ahead { self.new.ahead ≡ drop result self.old.ahead }
        ensures value { Takes self.old.remaining self.new.remaining self.new.taken }
        ensures end { result < count → IsAllAhead self.old → IsEmpty self.new.remaining }
        ensures same { self.new.faults ≡ self.old.faults }
    {
        let count = count.min(self.to - self.from);
        self.last = self.from;
        self.from = self.last + count;
        count
    }
}

// Moves the octets between two places of a block to its front, and says how many they are.
fn move_to_front(octets: &mut [u8; BLOCK_LEN], from: usize, to: usize) -> usize
    requires { (from ≤ to) × (to ≤ most_ahead) }
    ensures count { result ≡ to - from }
    ensures front { take result octets.new ≡ between octets.old from to }
{
    octets.copy_within(from..to, 0);
    to - from
}

impl<S: Source> Source for Block<S> {
    ghost remaining = { λ b. b.remaining };

    ghost ahead = { λ b. b.ahead };

    ghost faults = { λ b. b.faults };

    fn read(&mut self, buf: &mut [u8]) -> Result<usize, Failed>
        ensures within { ReadsAtMost result buf.new }
        ensures ok { IfOk result (λ count. Takes self.old.remaining self.new.remaining (take count buf.new)) }
        ensures end { IfOk result (λ count. count ≡ 0 → 0 < length buf.new → IsEmpty self.new.remaining) }
        ensures err { OnErr result (self.new.remaining ≡ self.old.remaining) }
        ensures cause { HasCause self.old.faults self.new.faults result }
        // A fault comes only where the block has no octet left.
        ensures ahead { OnErr result (self.new.ahead ≡ []) }
    {
        match self.fill() {
            Ok(()) => Ok(self.give(buf)),
            Err(bad) => Err(bad),
        }
    }
}
