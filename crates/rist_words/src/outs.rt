//! The outputs of a tunnel's flows.
ghost use Rattle.std.specs.Prelude.{◌≡◌, ◌≤◌, ◌&&◌, Err, IfOk, None, Some, codes, length, map, nat_eq, option_map};
ghost use Rattle.std.specs.Str.{bytes_eq};
ghost use Rattle.clap.specs.Words.{first_of, found_of, rows_of};
ghost use Rattle.rist_words.specs.Outs.{are_different, first_part, out_of, outs_in, outs_of};

use crate::lines::Refused;
use crate::links::{push, split_at};
use crate::session::PORT;
use crate::values::{given, number_in};
use clap::ArgMatches;
use std::alloc::Global;

/// How many outputs there are at most.
pub const MAX_OUTS: usize = 8;

/// The ports and the names of a command's outputs, one to eight, in their order.
pub fn outs<'a>(alloc: Global, values: &ArgMatches<'a>) -> Result<(Vec<u16>, Vec<&'a str>), Refused>
    ensures ok { IfOk result (λ outs. outs_of (first_of (codes "outs") (rows_of (found_of values.now)))
        ≡ Some (outs.0.items, map (λ name. name.now) outs.1.items)) }
    ensures usage { result ≡ Err Refused.Usage
        → outs_of (first_of (codes "outs") (rows_of (found_of values.now))) ≡ None }
    ensures some { IfOk result (λ outs. 1 ≤ length outs.0.items) }
{
    let Some(text) = given(values, "outs") else {
        return Err(Refused::Usage);
    };
    match outs_in(alloc, text) {
        Ok((ports, names)) => {
            if differ(&ports, &names) {
                Ok((ports, names))
            } else {
                Err(Refused::Usage)
            }
        }
        Err(refused) => Err(refused),
    }
}

/// Whether no two ports are the same, and no two names.
fn differ(ports: &[u16], names: &[&str]) -> bool
    ensures { result ≡ (are_different nat_eq ports.now && are_different bytes_eq (map (λ name. name.now) names.now)) }
{
    are_different(ports) && are_different(names)
}

/// The ports and the names of the outputs that a text has, at most eight.
pub fn outs_in<'a>(alloc: Global, text: &'a str) -> Result<(Vec<u16>, Vec<&'a str>), Refused>
    ensures ok { IfOk result (λ outs. outs_in 8 (Some text.entry.now)
        ≡ Some (outs.0.items, map (λ name. name.now) outs.1.items)) }
    ensures usage { result ≡ Err Refused.Usage → outs_in 8 (Some text.entry.now) ≡ None }
    ensures some { IfOk result (λ outs. 1 ≤ length outs.0.items) }
{
    let mut ports = Vec::new(alloc);
    let mut names = Vec::new(alloc);
    let mut rest = text;
    for _ in 0..MAX_OUTS {
        let (part, more) = first_part(rest);
        let Some((port, name)) = out_of(part) else {
            return Err(Refused::Usage);
        };
        push(&mut ports, port)?;
        push(&mut names, name)?;
        match more {
            Some(more) => rest = more,
            None => return Ok((ports, names)),
        }
    }
    Err(Refused::Usage)
}

/// The first part of a text, and the text behind its comma if there is one.
fn first_part<'a>(text: &'a str) -> (&'a str, Option<&'a str>)
    ensures { (result.0.now, option_map (λ more. more.now) result.1) ≡ first_part text.entry.now }
{
    match split_at(text, ',') {
        Some((part, more)) => (part, Some(more)),
        None => (text, None),
    }
}

/// An output: `port=name`.
fn out_of<'a>(text: &'a str) -> Option<(u16, &'a str)>
    ensures { option_map (λ out. (out.0, out.1.now)) result ≡ out_of text.entry.now }
{
    let (port, name) = split_at(text, '=')?;
    let port = number_in(port, PORT)? as u16;
    if name.is_empty() {
        return None;
    }
    Some((port, name))
}

/// Whether no two of these are the same.
pub fn are_different<T: PartialEq>(items: &[T]) -> bool
    ensures { result ≡ are_different T.eq items.now }
{
    let mut rest = items;
    while let [item, others @ ..] = rest {
        if others.contains(item) {
            return false;
        }
        rest = others;
    }
    true
}
