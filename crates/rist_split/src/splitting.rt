//! The split: a walk whose visitor holds the receivers of several flows.
ghost use Rattle.std.specs.Prelude.{◌≡◌, ◌∷◌, [], false, length, vec_len, Err, IsErrOf};
ghost use Rattle.outside_io.specs.Causes.{HasReadCause, fault_by};
ghost use Rattle.link_channels.specs.declared.profile.Profile.TheVariants.{Main};
ghost use Rattle.capture_walk.specs.Causes.{walk_fault};
ghost use Rattle.capture_walk.specs.Leaves.{Brought};
ghost use Rattle.capture_walk.specs.declared.walk_bad.WalkBad.TheVariants.{ReadFault, WriteFault, Memory};
ghost use Rattle.rist_wire.specs.Among.{ArePorts};
ghost use Rattle.rist_fan.specs.Fan.{flows_in};
ghost use Rattle.rist_split.specs.Split.{AllSplit, AreFresh, limits_in};
ghost use Rattle.rist_split.specs.Inside.Splitting.{AllSplitFrom, HasSplit};

use crate::splitter::Splitter;
use crate::start::Start;
use capture_walk::{Records, WalkBad, walk};
use link_channels::MAX_PAYLOAD;
use outside_io::{Nowhere, Sink};
use rist_fan::{Came, Fan, Flow};
use rist_wire::Opener;
use std::marker::{Brand, PhantomData};

/// What a split leaves.
#[derive(Drop)]
pub struct SplitEnd<K> {
    /// How the walk over the records ended.
    pub end: Result<(), WalkBad>,
    /// What came of the end at each place: where its answer is WriteFault or Stopped, a write of its sink failed.
    pub came: Vec<Came>,
    /// The flow at place 0.
    pub first: Flow<K>,
    /// Those at the places behind it.
    pub more: Vec<Flow<K>>,
}

// The same, with what it begins with under a name.
fn named_split<B: Start, R: Records, K: Sink + Drop>(
    opener: Opener,
    ports: &[u16],
    fan: Fan<K>,
    came: Vec<Came>,
    reader: &mut R,
) -> SplitEnd<K>
    requires main { opener.profile ≡ Main }
    requires ports { ArePorts ports.now }
    requires places { length (flows_in fan) ≡ length ports.now }
    requires room { vec_len came ≡ length ports.now }
    requires begun { HasSplit K.contents K.faults B.start opener ports.now (flows_in fan) [] }
    requires start { R.has_read reader.old (R.remaining reader.old) [] }
    requires running { R.spent reader.old ≡ false }
    ensures work { Brought (R.form reader.old) (R.remaining reader.old) (R.remaining reader.new)
        (AllSplitFrom K.contents K.faults B.start (result.first ∷ result.more.items) result.came.items) result.end }
    ensures places { (length (result.first ∷ result.more.items) ≡ length ports.now)
        × (vec_len result.came ≡ length ports.now) }
    ensures own { (result.end ≡ Err WriteFault → ⊥) × (result.end ≡ Err Memory → ⊥) }
    ensures ahead { IsErrOf result.end ReadFault → R.ahead reader.new ≡ [] }
    ensures read { HasReadCause (fault_by walk_fault result.end) (R.faults reader.old) (R.faults reader.new) }
{
    // A datagram is taken by the session of one port, and refused by the others.
    rist_wire::laws::a_datagram_is_one_sessions();
    let mut splitter: Splitter<'_, B, K> = Splitter {
        opener,
        ports,
        fan,
        came,
        block: [0; MAX_PAYLOAD],
        of: PhantomData,
    };
    let end = walk(reader, &mut splitter, &mut Nowhere);
    let Splitter {
        opener: _,
        ports: _,
        fan,
        mut came,
        block: _,
        of: _,
    } = splitter;
    let (first, more) = fan.finish(&mut came);
    SplitEnd {
        end,
        came,
        first,
        more,
    }
}

/// Tells each record of a file to the receivers of a fan, each at the place of its port, and then each the end. A write that
/// fails ends its own place alone; the walk goes on to the end of the records. No memory is taken.
pub fn split<R: Records, K: Sink + Drop>(
    opener: Opener,
    ports: &[u16],
    fan: Fan<K>,
    came: Vec<Came>,
    reader: &mut R,
) -> SplitEnd<K>
    requires main { opener.profile ≡ Main }
    requires ports { ArePorts ports.now }
    requires places { length (flows_in fan) ≡ length ports.now }
    requires room { vec_len came ≡ length ports.now }
    requires fresh { AreFresh (limits_in fan) (flows_in fan) }
    requires start { R.has_read reader.old (R.remaining reader.old) [] }
    requires running { R.spent reader.old ≡ false }
    // Each output has what a replay of its port writes of the whole records that were read, or a front part of that where a
    // write of its own failed.
    ensures work { Brought (R.form reader.old) (R.remaining reader.old) (R.remaining reader.new)
        (AllSplit K.contents K.faults ports.now opener (limits_in fan) (flows_in fan)
        (result.first ∷ result.more.items) result.came.items) result.end }
    ensures places { (length (result.first ∷ result.more.items) ≡ length ports.now)
        × (vec_len result.came ≡ length ports.now) }
    ensures own { (result.end ≡ Err WriteFault → ⊥) × (result.end ≡ Err Memory → ⊥) }
    ensures ahead { IsErrOf result.end ReadFault → R.ahead reader.new ≡ [] }
    ensures read { HasReadCause (fault_by walk_fault result.end) (R.faults reader.old) (R.faults reader.new) }
{
    named_split::<Brand, R, K>(opener, ports, fan, came, reader)
}
