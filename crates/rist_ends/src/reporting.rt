//! What a step tells the reporter, and what comes of it.
ghost use Rattle.std.specs.Prelude.{◌≡◌, ◌≢◌, ◌≤◌, ◌<◌, ◌+◌, ◌^◌, None, true, is_err, option_map};
ghost use Rattle.link_channels.specs.declared.bounds.TheConstants.{MAX_LINKS};
ghost use Rattle.reorder_buffer.specs.declared.phase.Phase.TheVariants.{Open};
ghost use Rattle.rist_reporter.specs.OneMore.{TakesPairs, AnswersControl, StandsAfterControl};
ghost use Rattle.rist_reporter.specs.OneMore.{AnswersTick, StandsAfterTick, answer_count};
ghost use Rattle.rist_reporter.specs.Asking.{number_count, words_in};
ghost use Rattle.rist_reporter.specs.Inside.Changes.{IsSetAs};
ghost use Rattle.rist_ends.specs.declared.outcome.Answer.TheVariants.{Made};
ghost use Rattle.rist_ends.specs.Counts.{capped};
ghost use Rattle.rist_ends.specs.Told.{IsFit, ended_at};
ghost use Rattle.rist_ends.specs.Outcome.{outcome_with, verdict_in, is_stepped};
ghost use Rattle.rist_ends.specs.Inside.Stepping.{IsJudged, IsHighNumber, IsQuiet};
ghost use Rattle.rist_ends.specs.Inside.Reporting.{made_in, ReportsStep, StandsAfterStep};

use crate::outcome::Answer;
use crate::stepping::Stepped;
use crate::told::{Told, What};
use psk_seal::Spent;
use reorder_buffer::Buffer;
use rist_reporter::{Outs, Reporter};
use rtcp_compound::Compound;

/// What a step came to by which datagrams were made, or for which too few pairs were left. The datagrams go into
/// `outs`.
fn answer_with(made: Result<Option<Outs>, Spent>, outs: &mut Outs) -> Answer
    ensures made { made_in result outs.new ≡ made }
    ensures silent { verdict_in (outcome_with result outs.new) ≡ None }
    ensures stepped { is_stepped (outcome_with result outs.new) ≡ true }
    ensures outs { result ≢ Made → outs.new ≡ outs.old }
{
    match made {
        Ok(Some(made)) => {
            *outs = made;
            Answer::Made
        }
        Ok(None) => Answer::Nothing,
        Err(_) => Answer::Spent,
    }
}

/// A compound came. A call of its own, so that a media packet's step has no room for datagrams.
#[inline(never)]
fn answer_compound(
    reporter: &mut Reporter,
    link: u8,
    us: u64,
    compound: &Compound<'_>,
    outs: &mut Outs,
) -> Answer
    requires link { link < MAX_LINKS }
    ensures answer { AnswersControl reporter.old link us compound.now (made_in result outs.new) }
    ensures state { StandsAfterControl reporter.old reporter.new link us compound.now (made_in result outs.new) }
    ensures pairs { TakesPairs (answer_count (made_in result outs.new)) reporter.old.shutter reporter.new.shutter }
    ensures told { reporter.new.timer.high ≡ reporter.old.timer.high }
    ensures same { IsSetAs reporter.old reporter.new }
    ensures silent { verdict_in (outcome_with result outs.new) ≡ None }
    ensures stepped { is_stepped (outcome_with result outs.new) ≡ true }
    ensures outs { result ≢ Made → outs.new ≡ outs.old }
{
    answer_with(reporter.answer(link, us, compound), outs)
}

/// A tick of a link's clock, likewise a call of its own.
#[inline(never)]
fn answer_tick(
    reporter: &mut Reporter,
    buffer: &Buffer,
    at: u64,
    link: u8,
    us: u64,
    outs: &mut Outs,
) -> Answer
    requires link { link < MAX_LINKS }
    requires time { at < 2 ^ 61 }
    requires clock { buffer.now.time ≡ at }
    requires running { buffer.now.phase ≡ Open }
    requires told { option_map (λ h. h.number) buffer.now.highest ≡ reporter.old.timer.high }
    requires span { buffer.now.limits.capacity ≡ reporter.old.timer.span }
    ensures answer { AnswersTick reporter.old buffer.now link us (made_in result outs.new) }
    ensures state { StandsAfterTick reporter.old reporter.new buffer.now link us (made_in result outs.new) }
    ensures pairs { TakesPairs (answer_count (made_in result outs.new)) reporter.old.shutter reporter.new.shutter }
    ensures told { reporter.new.timer.high ≡ reporter.old.timer.high }
    ensures same { IsSetAs reporter.old reporter.new }
    ensures silent { verdict_in (outcome_with result outs.new) ≡ None }
    ensures stepped { is_stepped (outcome_with result outs.new) ≡ true }
    ensures outs { result ≢ Made → outs.new ≡ outs.old }
{
    answer_with(reporter.tick(at, link, us, buffer), outs)
}

/// Tells the reporter of a step that the buffer has made, and says what it came to. Before it `before` was the highest
/// number that was kept, and `epoch` the place of the current epoch.
pub fn report(
    reporter: &mut Reporter,
    buffer: &Buffer,
    told: &Told<'_>,
    stepped: &Stepped,
    before: Option<u64>,
    epoch: u64,
    outs: &mut Outs,
) -> Answer
    requires fits { IsFit told.now }
    requires time { stepped.now.at < 2 ^ 61 }
    requires clock { buffer.now.phase ≡ Open → buffer.now.time ≡ stepped.now.at }
    requires phase { buffer.now.phase ≡ ended_at told.now }
    requires judged { IsJudged told.now.what stepped.now.verdict }
    requires told { before ≡ reporter.old.timer.high }
    requires high { IsHighNumber told.now.what epoch buffer.now.epoch before
        (option_map (λ h. h.number) buffer.now.highest) }
    requires span { buffer.now.limits.capacity ≡ reporter.old.timer.span }
    requires delay { 1 ≤ buffer.now.limits.playout_delay }
    ensures verdict { verdict_in (outcome_with result outs.new) ≡ stepped.now.verdict }
    ensures stepped { is_stepped (outcome_with result outs.new) ≡ true }
    ensures made { ReportsStep reporter.old buffer.now told.now stepped.now.verdict epoch
        (made_in result outs.new) }
    ensures state { StandsAfterStep reporter.old reporter.new buffer.now told.now stepped.now.verdict epoch
        (made_in result outs.new) }
    ensures pairs { TakesPairs (answer_count (made_in result outs.new)) reporter.old.shutter reporter.new.shutter }
    ensures told { buffer.now.phase ≡ Open
        → option_map (λ h. h.number) buffer.now.highest ≡ reporter.new.timer.high }
    ensures same { IsSetAs reporter.old reporter.new }
    ensures quiet { is_err (made_in result outs.new) ≡ true → IsQuiet told.now.what }
    ensures outs { result ≢ Made → outs.new ≡ outs.old }
{
    match &told.what {
        What::Media(arrival) => {
            let Some(verdict) = stepped.verdict else {
                unreachable!()
            };
            reporter.received(
                stepped.at,
                arrival.width,
                verdict.is_kept(),
                buffer.epoch() != epoch,
                before,
                buffer.high(),
            );
            Answer::Verdict(verdict)
        }
        What::Control(compound) => { answer_compound(reporter, told.link, told.us, compound, outs) }
        What::Tick => answer_tick(reporter, buffer, stepped.at, told.link, told.us, outs),
        What::Keepalive | What::Refused | What::End => Answer::Nothing,
    }
}

/// How many numbers were asked for, after a step with this answer, whose datagrams stand in `outs`.
pub fn asked_with(answer: Answer, outs: &Outs, reporter: &Reporter, asked: u64) -> u64
    ensures value { result ≡ capped (asked
        + number_count reporter.now.timer.policy.kind (words_in (made_in answer outs.now))) }
{
    match answer {
        Answer::Made => asked.saturating_add(reporter.asked_in(outs)),
        Answer::Stopped
        | Answer::WriteFault
        | Answer::Verdict(_)
        | Answer::Spent
        | Answer::Nothing => asked,
    }
}
