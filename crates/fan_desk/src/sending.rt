//! What goes to a worker's link of a step of all places.
ghost use Rattle.std.specs.Prelude.{◌≡◌, ◌++◌, OnOk, OnErr};
ghost use Rattle.std.specs.Prelude.{option_map};
ghost use Rattle.outside_io.specs.Causes.{HasCause};
ghost use Rattle.rist_reporter.specs.OneMore.{outs_of};
ghost use Rattle.rist_desk.specs.Sending.{written};
ghost use Rattle.rist_desk.specs.Links.{IsKept, SentPart};
ghost use Rattle.fan_desk.specs.Made.{all_outs, flow_of, outs_of_came};

use outside_io::Failed;
use outside_net::Link;
use rist_desk::send;
use rist_ends::{Answer, Outs, What};
use rist_fan::Came;

/// The place of the flow that a datagram came of, if it came of one: media and control have a port of their flow, and a
/// keepalive is of the tunnel.
pub(crate) fn flow_of(place: Option<u8>, what: &What<'_>) -> Option<u8>
    ensures value { result ≡ flow_of place what.now }
{
    match what {
        What::Media(_) | What::Control(_) => place,
        What::Keepalive | What::Refused | What::Tick | What::End => None,
    }
}

/// Writes the datagrams that a step made for the flow at a place to this flow's peer, in their order.
fn send_to<L: Link>(link: &mut L, flow: u8, outs: &Outs) -> Result<(), Failed>
    ensures ok { OnOk result (L.taken link.new
        ≡ option_map (λ t. t ++ written (L.knows link.old) (outs_of outs.now)) (L.taken link.old)) }
    ensures err { OnErr result (SentPart (L.knows link.old) (outs_of outs.now) (L.taken link.old) (L.taken link.new)) }
    ensures same { IsKept L.reads L.ends L.knows link.old link.new }
    ensures cause { HasCause (L.faults link.old) (L.faults link.new) result }
{
    link.address(flow);
    send(link, outs)
}

/// Writes the datagrams of the flow at a place, if it made any, to this flow's peer.
fn send_came<L: Link>(link: &mut L, flow: u8, came: &Came) -> Result<(), Failed>
    ensures ok { OnOk result (L.taken link.new
        ≡ option_map (λ t. t ++ written (L.knows link.old) (outs_of_came came.now)) (L.taken link.old)) }
    ensures err { OnErr result (SentPart (L.knows link.old) (outs_of_came came.now) (L.taken link.old)
        (L.taken link.new)) }
    ensures same { IsKept L.reads L.ends L.knows link.old link.new }
    ensures cause { HasCause (L.faults link.old) (L.faults link.new) result }
{
    match came.answer {
        Answer::Made => send_to(link, flow, &came.outs),
        Answer::Stopped => Ok(()),
        Answer::WriteFault => Ok(()),
        Answer::Verdict(_) => Ok(()),
        Answer::Spent => Ok(()),
        Answer::Nothing => Ok(()),
    }
}

/// Writes the datagrams of all places, in their order, each place's to its own peer, up to the first write that fails.
fn send_each<L: Link>(link: &mut L, came: &[Came]) -> Result<(), Failed>
    ensures ok { OnOk result (L.taken link.new
        ≡ option_map (λ t. t ++ written (L.knows link.old) (all_outs came.now)) (L.taken link.old)) }
    ensures err { OnErr result (SentPart (L.knows link.old) (all_outs came.now) (L.taken link.old) (L.taken link.new)) }
    ensures same { IsKept L.reads L.ends L.knows link.old link.new }
    ensures cause { HasCause (L.faults link.old) (L.faults link.new) result }
{
    for v in 0..came.len() {
        let flow = u8::try_from(v).unwrap_or(u8::MAX);
        send_came(link, flow, &came[v])?;
    }
    Ok(())
}

/// Assigns the datagram that the last read gave to the flow at a place, and writes the datagrams of all places.
fn send_assigned<L: Link>(link: &mut L, flow: u8, came: &[Came]) -> Result<(), Failed>
    ensures ok { OnOk result (L.taken link.new
        ≡ option_map (λ t. t ++ written (L.knows link.old) (all_outs came.now)) (L.taken link.old)) }
    ensures err { OnErr result (SentPart (L.knows link.old) (all_outs came.now) (L.taken link.old) (L.taken link.new)) }
    ensures same { IsKept L.reads L.ends L.knows link.old link.new }
    ensures cause { HasCause (L.faults link.old) (L.faults link.new) result }
{
    link.assign(flow);
    send_each(link, came)
}

/// Writes the datagrams of all places, in their order, each place's to its own peer, up to the first write that fails. The
/// datagram that the last read gave is the flow's before that, if it came of one.
pub(crate) fn send_row<L: Link>(link: &mut L, flow: Option<u8>, came: &[Came]) -> Result<(), Failed>
    ensures ok { OnOk result (L.taken link.new
        ≡ option_map (λ t. t ++ written (L.knows link.old) (all_outs came.now)) (L.taken link.old)) }
    ensures err { OnErr result (SentPart (L.knows link.old) (all_outs came.now) (L.taken link.old) (L.taken link.new)) }
    ensures same { IsKept L.reads L.ends L.knows link.old link.new }
    ensures cause { HasCause (L.faults link.old) (L.faults link.new) result }
{
    match flow {
        Some(flow) => send_assigned(link, flow, came),
        None => send_each(link, came),
    }
}
