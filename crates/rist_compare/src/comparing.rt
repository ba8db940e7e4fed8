//! The desk's steps against the workers' own, in one pass a link.
ghost use Rattle.std.specs.Prelude.{◌≡◌, ◌≤◌, ◌+◌, ◌++◌, ◌∷◌, [], ◌↔◌, ℕ, length, map, take, slice_get, IsTrue, IfNone};
ghost use Rattle.std.specs.Prelude.{IfSome, IfOk, IfErr, Some, None};
ghost use Rattle.rist_compare.specs.declared.tear.Tear.{Tear};
ghost use Rattle.rist_compare.specs.Tears.{of, own_of, IsTear, Agree, IsFirstTear};
ghost use Rattle.rist_compare.specs.Inside.Passing.{DiffersAt};

use crate::own::OwnSteps;
use crate::same::is_same;
use crate::tear::Tear;
use rist_desk::Step;

/// Whether a step is the one at a place of a list.
fn is_at(step: &Step, own: &[Step], place: usize) -> bool
    ensures value { IsTrue result ↔ (slice_get own.now place ≡ Some step.now) }
{
    match own.get(place) {
        Some(found) => is_same(found, step),
        None => false,
    }
}

/// The step at a place of a list, if there is one.
fn step_at(own: &[Step], place: usize) -> Option<Step>
    ensures value { result ≡ slice_get own.now place }
{
    match own.get(place) {
        Some(found) => Some(found.copy()),
        None => None,
    }
}

/// The place behind a step in a link's own list; the tear where it isn't the step at this place.
fn past(step: &Step, link: u8, own: &[Step], place: usize) -> Result<usize, Tear>
    requires within { place ≤ length own.now }
    ensures ok { IfOk result (λ next.
        (next ≤ length own.now) × (take next own.now ≡ take place own.now ++ of link (step.now ∷ []))) }
    ensures err { IfErr result (λ tear. DiffersAt step.now link own.now place tear) }
{
    if step.link != link {
        return Ok(place);
    }
    if is_at(step, own, place) {
        return Ok(place + 1);
    }
    Err(Tear {
        link,
        place,
        desk: Some(step.copy()),
        own: step_at(own, place),
    })
}

/// Where the desk's steps of a link and that link's own differ first.
fn tear_of(kept: &[Step], link: u8, own: &[Step]) -> Option<Tear>
    ensures none { IfNone result (of link kept.now ≡ own.now) }
    ensures some { IfSome result (λ tear. (tear.link ≡ link) × IsTear (of link kept.now) own.now tear) }
{
    let mut place = 0;
    for step in kept {
        match past(step, link, own, place) {
            Ok(next) => place = next,
            Err(tear) => return Some(tear),
        }
    }
    match step_at(own, place) {
        Some(next) => Some(Tear {
            link,
            place,
            desk: None,
            own: Some(next),
        }),
        None => None,
    }
}

/// How many links there are, at least so many: one more than the highest that a step is of.
fn link_count(kept: &[Step], workers: usize) -> usize
    requires few { workers ≤ 256 }
    ensures few { result ≤ 256 }
    ensures workers { workers ≤ result }
    ensures steps { (link : ℕ) → result ≤ link → of link kept.now ≡ [] }
{
    let mut count = workers;
    for step in kept {
        count = count.max(usize::from(step.link) + 1);
    }
    count
}

/// The own steps of a link; none where it has no worker.
fn own_of<W: OwnSteps>(workers: &[W], link: usize) -> &[Step]
    ensures value { result.now ≡ own_of link (map W.own workers.now) }
{
    match workers.get(link) {
        Some(worker) => worker.own(),
        None => &[],
    }
}

/// Where the steps that the desk kept and the workers' own, the first of link 0, differ first: on the lowest link that
/// differs, at the first place there. A link without a worker has no steps of its own. None where they don't differ.
pub fn compare<W: OwnSteps>(kept: &[Step], workers: &[W]) -> Option<Tear>
    requires few { length workers.now ≤ 256 }
    ensures none { (result ≡ None) ↔ Agree kept.now (map W.own workers.now) }
    ensures some { (tear : Tear) → (result ≡ Some tear) ↔ IsFirstTear kept.now (map W.own workers.now) tear }
{
    for link in 0..link_count(kept, workers.len()) {
        if let Some(tear) = tear_of(kept, link as u8, own_of(workers, link)) {
            return Some(tear);
        }
    }
    None
}
