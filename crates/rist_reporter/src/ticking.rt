//! What a tick and an RTT request make, where pairs are left for it.
ghost use Rattle.std.specs.Prelude.{◌≡◌, [], length, is_some, is_err, true, false, IfOk, option_map};
ghost use Rattle.link_channels.specs.declared.profile.Profile.TheVariants.{Main};
ghost use Rattle.rist_wire.specs.Writing.{is_spent, after_pair, pairs_left};
ghost use Rattle.rist_reporter.specs.Control.{Compound, tick_packets, answer_datagrams};
ghost use Rattle.rist_rtt.specs.Echo.{echo_seen};
ghost use Rattle.request_rules.specs.Near.{AreNear};
ghost use Rattle.rist_reporter.specs.Made.{IsOpened};
ghost use Rattle.rist_reporter.specs.OneMore.{IsMade, TakesPairs, made_count, answer_count, is_short};
ghost use Rattle.rist_reporter.specs.Inside.Due.{datagrams_due, how_many};

use crate::out::{Out, Outs};
use crate::{Report, answer_compound, tick_compound};
use psk_seal::Spent;
use request_rules::{Asked, NackKind};
use rist_rtt::Echo;
use rist_wire::Shutter;
use seq_unwrap::Width;

/// What is due at a tick of a link, beside the words by which it asks.
#[derive(Clone, Copy)]
pub struct Due {
    /// The receiver's own SSRC.
    pub own: u32,
    /// How requests are written.
    pub kind: NackKind,
    /// The flow of the first arrival.
    pub flow: Option<u32>,
    /// How many bits the numbers of the last kept packet had.
    pub width: Width,
    /// The moment in microseconds.
    pub micros: u64,
    /// A report is due.
    pub is_report: bool,
    /// A keepalive is due, in the Main Profile.
    pub is_keepalive: bool,
}

// The compound's datagram.
fn compound_out(shutter: &mut Shutter, due: &Due, asked: &Asked) -> Out
    requires paired { is_some shutter.old.sealer ≡ is_some shutter.old.session.pass }
    requires left { is_spent shutter.old.sealer ≡ false }
    requires near { AreNear asked.now }
    ensures item { IsOpened shutter.old.session result
        (Compound (tick_packets due.now.kind due.now.own due.now.is_report
        due.now.flow due.now.width asked.now due.now.micros)) }
    ensures shutter { shutter.new ≡ record shutter.old { sealer = after_pair shutter.old.sealer } }
{
    let compound = tick_compound(&Report {
        own: due.own,
        flow: due.flow,
        is_report: due.is_report,
        micros: due.micros,
        kind: due.kind,
        width: due.width,
        words: asked.words(),
    });
    Out::control(shutter, &compound)
}

// Makes what is due at a tick, where pairs are left for it.
fn make_due(shutter: &mut Shutter, due: &Due, asked: Asked) -> Option<Outs>
    requires paired { is_some shutter.old.sealer ≡ is_some shutter.old.session.pass }
    requires tunnel { due.now.is_keepalive ≡ true → shutter.old.session.profile ≡ Main }
    requires near { AreNear asked }
    requires left { is_short (pairs_left shutter.old.sealer) (length (datagrams_due due.now asked)) ≡ false }
    ensures made { IsMade shutter.old.session (datagrams_due due.now asked) asked result }
    ensures pairs { TakesPairs (made_count result) shutter.old shutter.new }
{
    let has_compound = due.is_report || !asked.is_empty();
    match (has_compound, due.is_keepalive) {
        (true, true) => {
            let first = compound_out(shutter, due, &asked);
            let second = Some(Out::keepalive(shutter, due.own));
            Some(Outs {
                first,
                second,
                asked,
            })
        }
        (true, false) => Some(Outs {
            first: compound_out(shutter, due, &asked),
            second: None,
            asked,
        }),
        (false, true) => Some(Outs {
            first: Out::keepalive(shutter, due.own),
            second: None,
            asked,
        }),
        (false, false) => None,
    }
}

/// Whether fewer pairs are left than so many datagrams take.
pub fn is_short(shutter: &Shutter, count: u64) -> bool
    ensures value { result ≡ is_short (pairs_left shutter.now.sealer) count }
{
    match shutter.left() {
        None => false,
        Some(left) => left < count,
    }
}

/// How many datagrams a compound and a keepalive are, where they are made.
pub fn how_many(has_compound: bool, has_keepalive: bool) -> u64
    ensures value { result ≡ how_many has_compound has_keepalive }
{
    match (has_compound, has_keepalive) {
        (true, true) => 2,
        (false, false) => 0,
        (true, false) | (false, true) => 1,
    }
}

/// Makes what is due at a tick. `Spent` exactly where fewer pairs are left than that takes; then none is taken.
pub fn make_tick(shutter: &mut Shutter, due: &Due, asked: Asked) -> Result<Option<Outs>, Spent>
    requires paired { is_some shutter.old.sealer ≡ is_some shutter.old.session.pass }
    requires tunnel { due.now.is_keepalive ≡ true → shutter.old.session.profile ≡ Main }
    requires near { AreNear asked }
    ensures spent { is_err result ≡ is_short (pairs_left shutter.old.sealer) (length (datagrams_due due.now asked)) }
    ensures made { IfOk result (IsMade shutter.old.session (datagrams_due due.now asked) asked) }
    ensures pairs { TakesPairs (answer_count result) shutter.old shutter.new }
{
    let has_compound = due.is_report || !asked.is_empty();
    if is_short(shutter, how_many(has_compound, due.is_keepalive)) {
        return Err(Spent);
    }
    Ok(make_due(shutter, due, asked))
}

/// Makes the answer to an RTT request, if there is one, where a pair is left for it.
pub fn make_answer(shutter: &mut Shutter, own: u32, request: Option<Echo<'_>>) -> Option<Outs>
    requires paired { is_some shutter.old.sealer ≡ is_some shutter.old.session.pass }
    requires left { is_short (pairs_left shutter.old.sealer)
        (length (answer_datagrams own (option_map echo_seen request))) ≡ false }
    ensures made { IsMade shutter.old.session (answer_datagrams own (option_map echo_seen request.entry)) [] result }
    ensures pairs { TakesPairs (made_count result) shutter.old shutter.new }
{
    match request {
        None => None,
        Some(echo) => {
            let compound = answer_compound(own, &echo);
            Some(Outs {
                first: Out::control(shutter, &compound),
                second: None,
                asked: Asked::none(),
            })
        }
    }
}
