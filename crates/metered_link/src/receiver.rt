//! The text of the line of a receiver.
ghost use Rattle.std.specs.Prelude.{◌≡◌, IfOk};
ghost use Rattle.serde_json.specs.View.{view};
ghost use Rattle.metered_link.specs.ReceiverLines.{packets_data, receiver_data, receiver_line};

use outside_net::ReceiverFigures;
use serde_json::{Value, json};
use std::alloc::{AllocError, Global};

fn packets_value(alloc: Global, figures: &ReceiverFigures) -> Result<Value, AllocError>
    ensures value { IfOk result (λ v. view v ≡ packets_data figures.now) }
{
    json!(in alloc; {
        "behind": figures.behind,
        "early": figures.early,
        "exhausted": figures.exhausted,
        "kept": figures.kept,
        "late": figures.late,
        "recovered": figures.recovered,
        "span": figures.span,
        "stranger": figures.stranger,
        "twice": figures.twice
    })
}

fn receiver_value(
    alloc: Global,
    us: u64,
    flow: u8,
    figures: &ReceiverFigures,
) -> Result<Value, AllocError>
    ensures value { IfOk result (λ v. view v ≡ receiver_data us flow figures.now) }
{
    let packets = packets_value(alloc, figures)?;
    json!(in alloc; {
        "asked": figures.asked,
        "at": us,
        "event": "receiver",
        "fill": figures.fill,
        "flow": flow,
        "held": figures.held,
        "lost": figures.lost,
        "packets": packets,
        "refused": figures.refused
    })
}

/// The line of the receiver of the flow at a place, from 0 on, at a moment in microseconds. Memory may be refused.
pub fn receiver_line(
    alloc: Global,
    us: u64,
    flow: u8,
    figures: &ReceiverFigures,
) -> Result<Vec<u8>, AllocError>
    ensures value { IfOk result (λ text. text.items ≡ receiver_line us flow figures.now) }
{
    let value = receiver_value(alloc, us, flow, figures)?;
    let mut text = value.to_vec(alloc)?;
    text.push(b'\n')?;
    Ok(text)
}
