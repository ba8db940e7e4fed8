//! Workers, from their parts and back.
ghost use Rattle.std.specs.Prelude.{◌≡◌, ◌≤◌, [], None, length, map, vec_capacity};
ghost use Rattle.std.specs.List.{All};
ghost use Rattle.desk_run.specs.Workers.{clock_of, is_unended, link_of, opener_of, seat_of, trace_of};

use crate::seats::Seat;
use rist_desk::Worker;
use rist_wire::Opener;

/// Sets each link with its clock into a seat, in room that was taken for them. The lists that they stood in keep their
/// room.
pub fn seated<L: Drop, C: Drop, U: Drop>(
    links: &mut Vec<L>,
    clocks: &mut Vec<C>,
    mut seats: Vec<Seat<U>>,
    mut workers: Vec<Worker<L, C, U>>,
) -> Vec<Worker<L, C, U>>
    requires clocks { length clocks.old.items ≡ length links.old.items }
    requires seats { length seats.items ≡ length links.old.items }
    requires room { length links.old.items ≤ vec_capacity workers }
    requires none { workers.items ≡ [] }
    ensures links { map link_of result.items ≡ links.old.items }
    ensures clocks { map clock_of result.items ≡ clocks.old.items }
    ensures seats { map seat_of result.items ≡ seats.items }
    ensures ends { All is_unended result.items }
    ensures no_links { (links.new.items ≡ []) × (clocks.new.items ≡ []) }
    ensures link_room { length links.old.items ≤ vec_capacity links.new }
    ensures clock_room { length links.old.items ≤ vec_capacity clocks.new }
    ensures same_room { (vec_capacity links.new ≡ vec_capacity links.old)
        × (vec_capacity clocks.new ≡ vec_capacity clocks.old) }
{
    while let Some(link) = links.pop() {
        let (Some(clock), Some(Seat { opener, trace })) = (clocks.pop(), seats.pop()) else {
            unreachable!()
        };
        let _ = workers.push(Worker {
            link,
            clock,
            opener,
            trace,
            end: None,
        });
    }
    workers.reverse();
    workers
}

/// Puts the links and the clocks of workers back into lists that have room for them.
pub fn unseated<L: Drop, C: Drop, U: Drop>(
    mut workers: Vec<Worker<L, C, U>>,
    links: &mut Vec<L>,
    clocks: &mut Vec<C>,
)
    requires none { (links.old.items ≡ []) × (clocks.old.items ≡ []) }
    requires link_room { length workers.items ≤ vec_capacity links.old }
    requires clock_room { length workers.items ≤ vec_capacity clocks.old }
    ensures links { links.new.items ≡ map link_of workers.items }
    ensures clocks { clocks.new.items ≡ map clock_of workers.items }
    ensures room { (vec_capacity links.old ≤ vec_capacity links.new)
        × (vec_capacity clocks.old ≤ vec_capacity clocks.new) }
{
    while let Some(worker) = workers.pop() {
        let Worker { link, clock, .. } = worker;
        let _ = links.push(link);
        let _ = clocks.push(clock);
    }
    links.reverse();
    clocks.reverse();
}

/// Sets each link with its clock, an opener and what is to be the worker's own into a worker, in room that was taken for
/// them. The lists that they stood in keep their room.
pub fn seated_with<L: Drop, C: Drop, U: Drop>(
    links: &mut Vec<L>,
    clocks: &mut Vec<C>,
    mut openers: Vec<Opener>,
    own: &mut Vec<U>,
    mut workers: Vec<Worker<L, C, U>>,
) -> Vec<Worker<L, C, U>>
    requires clocks { length clocks.old.items ≡ length links.old.items }
    requires openers { length openers.items ≡ length links.old.items }
    requires own { length own.old.items ≡ length links.old.items }
    requires room { length links.old.items ≤ vec_capacity workers }
    requires none { workers.items ≡ [] }
    ensures links { map link_of result.items ≡ links.old.items }
    ensures clocks { map clock_of result.items ≡ clocks.old.items }
    ensures openers { map opener_of result.items ≡ openers.items }
    ensures own { map trace_of result.items ≡ own.old.items }
    ensures ends { All is_unended result.items }
    ensures no_links { (links.new.items ≡ []) × (clocks.new.items ≡ []) × (own.new.items ≡ []) }
    ensures link_room { length links.old.items ≤ vec_capacity links.new }
    ensures clock_room { length links.old.items ≤ vec_capacity clocks.new }
    ensures own_room { length links.old.items ≤ vec_capacity own.new }
    ensures same_room { (vec_capacity links.new ≡ vec_capacity links.old)
        × (vec_capacity clocks.new ≡ vec_capacity clocks.old) × (vec_capacity own.new ≡ vec_capacity own.old) }
{
    while let Some(link) = links.pop() {
        let (Some(clock), Some(opener)) = (clocks.pop(), openers.pop()) else {
            unreachable!()
        };
        let Some(trace) = own.pop() else {
            unreachable!()
        };
        let _ = workers.push(Worker {
            link,
            clock,
            opener,
            trace,
            end: None,
        });
    }
    workers.reverse();
    workers
}

/// Puts the links, the clocks and what is the workers' own back into lists that have room for them.
pub fn unseated_with<L: Drop, C: Drop, U: Drop>(
    mut workers: Vec<Worker<L, C, U>>,
    links: &mut Vec<L>,
    clocks: &mut Vec<C>,
    own: &mut Vec<U>,
)
    requires none { (links.old.items ≡ []) × (clocks.old.items ≡ []) × (own.old.items ≡ []) }
    requires link_room { length workers.items ≤ vec_capacity links.old }
    requires clock_room { length workers.items ≤ vec_capacity clocks.old }
    requires own_room { length workers.items ≤ vec_capacity own.old }
    ensures links { links.new.items ≡ map link_of workers.items }
    ensures clocks { clocks.new.items ≡ map clock_of workers.items }
    ensures own { own.new.items ≡ map trace_of workers.items }
    ensures room { (vec_capacity links.old ≤ vec_capacity links.new)
        × (vec_capacity clocks.old ≤ vec_capacity clocks.new) × (vec_capacity own.old ≤ vec_capacity own.new) }
{
    while let Some(worker) = workers.pop() {
        let Worker {
            link,
            clock,
            trace,
            ..
        } = worker;
        let _ = links.push(link);
        let _ = clocks.push(clock);
        let _ = own.push(trace);
    }
    links.reverse();
    clocks.reverse();
    own.reverse();
}
