//! One step of several receivers.
ghost use Rattle.std.specs.Prelude.{◌≡◌, ◌≢◌, ◌<◌, ◌+◌, ◌∷◌, ℕ, length, slice_index_or};
ghost use Rattle.rist_ends.specs.Told.{IsFit};
ghost use Rattle.rist_fan.specs.Fan.{AllStep, StepsFlow};
ghost use Rattle.rist_fan.specs.Seen.{is_for, told_for};

use crate::flow::{Came, Flow};
use crate::telling::{is_for, told_for};
use outside_io::Sink;
use rist_ends::Told;

// One receiver makes its step.
fn step_flow<K: Sink>(flow: &mut Flow<K>, own: bool, told: &Told<'_>, came: &mut Came)
    requires fits { IsFit told.now }
    ensures steps { StepsFlow K.contents K.faults (told_for own told.now) flow.old flow.new came.old came.new }
{
    let told = told_for(own, told);
    came.answer = flow
        .receiver
        .step_into(&told, &mut came.outs, &mut flow.sink);
    came.figures = flow.receiver.figures();
}

// The receiver at place 0 makes its step.
fn step_first<K: Sink>(first: &mut Flow<K>, place: Option<u8>, told: &Told<'_>, came: &mut [Came])
    requires fits { IsFit told.now }
    requires room { 0 < length came.old }
    ensures room { length came.new ≡ length came.old }
    ensures steps { (e : _) → StepsFlow K.contents K.faults (told_for (is_for place 0) told.now) first.old first.new
        (slice_index_or came.old 0 e) (slice_index_or came.new 0 e) }
    ensures rooms { (w : ℕ) (e : _) → w ≢ 0 → slice_index_or came.new w e ≡ slice_index_or came.old w e }
{
    step_flow(first, is_for(place, 0), told, &mut came[0]);
}

// The receiver behind this many others makes its step, and no other.
fn step_at<K: Sink>(
    more: &mut [Flow<K>],
    v: usize,
    place: Option<u8>,
    told: &Told<'_>,
    came: &mut [Came],
)
    requires fits { IsFit told.now }
    requires among { v < length more.old }
    requires room { length came.old ≡ length more.old + 1 }
    ensures flows { length more.new ≡ length more.old }
    ensures room { length came.new ≡ length came.old }
    ensures steps { (d : _) (e : _) → StepsFlow K.contents K.faults (told_for (is_for place (v + 1)) told.now)
        (slice_index_or more.old v d) (slice_index_or more.new v d) (slice_index_or came.old (v + 1) e)
        (slice_index_or came.new (v + 1) e) }
    ensures others { (w : ℕ) (d : _) → w ≢ v → slice_index_or more.new w d ≡ slice_index_or more.old w d }
    ensures rooms { (w : ℕ) (e : _) → w ≢ v + 1 → slice_index_or came.new w e ≡ slice_index_or came.old w e }
{
    step_flow(&mut more[v], is_for(place, v + 1), told, &mut came[v + 1]);
}

// Each receiver behind the first makes its step.
fn step_more<K: Sink>(more: &mut [Flow<K>], place: Option<u8>, told: &Told<'_>, came: &mut [Came])
    requires fits { IsFit told.now }
    requires room { length came.old ≡ length more.old + 1 }
    ensures flows { length more.new ≡ length more.old }
    ensures room { length came.new ≡ length came.old }
    ensures steps { (v : ℕ) (d : _) (e : _) → v < length more.old → StepsFlow K.contents K.faults
        (told_for (is_for place (v + 1)) told.now) (slice_index_or more.old v d) (slice_index_or more.new v d)
        (slice_index_or came.old (v + 1) e) (slice_index_or came.new (v + 1) e) }
    ensures first { (e : _) → slice_index_or came.new 0 e ≡ slice_index_or came.old 0 e }
{
    for v in 0..more.len() {
        step_at(more, v, place, told, came);
    }
}

/// Each receiver makes its step: the one at the place that of what is told, and each other that of a datagram that was
/// refused, or of a tick or the end.
pub(crate) fn step_all<K: Sink>(
    first: &mut Flow<K>,
    more: &mut Vec<Flow<K>>,
    place: Option<u8>,
    told: &Told<'_>,
    came: &mut [Came],
)
    requires fits { IsFit told.now }
    requires room { length came.old ≡ length more.old.items + 1 }
    ensures flows { length more.new.items ≡ length more.old.items }
    ensures room { length came.new ≡ length came.old }
    ensures steps { AllStep K.contents K.faults place told.now (first.old ∷ more.old.items)
        (first.new ∷ more.new.items) came.old came.new }
{
    step_first(first, place, told, came);
    step_more(more, place, told, came);
}
