//! The two questions that the rules answer of a list of steps.
ghost use Rattle.std.specs.Prelude.{◌≡◌, ◌<◌, ◌^◌, map, if◌then◌else◌, IfOk};
ghost use Rattle.std.specs.List.{All};
ghost use Rattle.std.specs.Option.{ForSome};
ghost use Rattle.receiver_rules.specs.Packets.{At, Ever};
ghost use Rattle.receiver_rules.specs.Seen.{moment_of};
ghost use Rattle.receiver_rules.specs.History.{released_payloads, verdicts_of};
ghost use Rattle.receiver_rules.specs.Bounds.{AreInRange};
ghost use Rattle.plain_rules.specs.Receiver.Told.{history_of, IsFit, payload_of};

use crate::receiver::kept::{add_payloads_out, payloads_in};
use crate::receiver::running::run_of;
use crate::receiver::steps::Step;
use receiver_rules::{Limits, Verdict};
use std::alloc::{AllocError, Global};

/// The verdict on each arrival of a list of steps, in order.
pub fn verdicts(
    alloc: Global,
    limits: &Limits,
    steps: &[Step<'_>],
) -> Result<Vec<Verdict>, AllocError>
    requires limits { AreInRange limits.now }
    requires steps { All IsFit steps.now }
    ensures { IfOk result (λ verdicts. verdicts.items ≡ verdicts_of limits.now (history_of steps.now)) }
{
    let run = run_of(alloc, limits, steps)?;
    Ok(run.verdicts)
}

/// The payloads that are out after a list of steps, in the order of their release.
pub fn released<'a>(
    alloc: Global,
    limits: &Limits,
    steps: &[Step<'a>],
) -> Result<Vec<&'a [u8]>, AllocError>
    requires limits { AreInRange limits.now }
    requires steps { All IsFit steps.now }
    ensures { IfOk result (λ payloads. map payload_of payloads.items
        ≡ released_payloads limits.now (history_of steps.now)) }
{
    let run = run_of(alloc, limits, steps)?;
    let until = until_of(run.has_ended, run.time);
    let mut payloads = payloads_in(alloc, run.over.as_slice())?;
    add_payloads_out(
        &mut payloads,
        run.kept.as_slice(),
        run.ordered.as_slice(),
        until,
    )?;
    Ok(payloads)
}

/// The moment until which packets are played out: a time, or after the end all.
fn until_of(has_ended: bool, t: u64) -> Option<u64>
    requires { t < 2 ^ 61 }
    ensures value { moment_of result ≡ (if has_ended then Ever else At t) }
    ensures within { ForSome result (λ u. u < 2 ^ 61) }
{
    if has_ended { None } else { Some(t) }
}
