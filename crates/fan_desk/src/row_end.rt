//! Whether a worker goes on after a step of all places.
ghost use Rattle.std.specs.Prelude.{◌≡◌};
ghost use Rattle.std.specs.List.{list_all, list_any};
ghost use Rattle.rist_desk.specs.Desk.{is_cut_off};
ghost use Rattle.fan_desk.specs.Rows.{is_stopped};
ghost use Rattle.fan_desk.specs.Made.{is_wanting, row_end};

use rist_desk::Ended;
use rist_ends::Answer;
use rist_fan::Came;

fn is_stopped(answer: Answer) -> bool
    ensures value { result ≡ is_stopped answer }
{
    matches!(answer, Answer::Stopped)
}

fn is_cut_off(answer: Answer) -> bool
    ensures value { result ≡ is_cut_off answer }
{
    matches!(answer, Answer::Stopped | Answer::WriteFault)
}

fn is_wanting(answer: Answer) -> bool
    ensures value { result ≡ is_wanting answer }
{
    matches!(answer, Answer::Spent)
}

fn are_all_stopped(came: &[Came]) -> bool
    ensures value { result ≡ list_all (λ one. is_stopped one.answer) came.now }
{
    came.iter().all(|one| is_stopped(one.answer))
}

fn are_all_cut_off(came: &[Came]) -> bool
    ensures value { result ≡ list_all (λ one. is_cut_off one.answer) came.now }
{
    came.iter().all(|one| is_cut_off(one.answer))
}

fn is_any_wanting(came: &[Came]) -> bool
    ensures value { result ≡ list_any (λ one. is_wanting one.answer) came.now }
{
    came.iter().any(|one| is_wanting(one.answer))
}

/// Why a worker ends after a step that came to this at each place, if it does: each place had ended before; none goes on; or
/// at some place pairs were wanting.
pub(crate) fn row_end(came: &[Came]) -> Option<Ended>
    ensures value { result ≡ row_end came.now }
{
    if are_all_stopped(came) {
        return Some(Ended::Stopped);
    }
    if are_all_cut_off(came) {
        return Some(Ended::WriteFault);
    }
    if is_any_wanting(came) {
        Some(Ended::Spent)
    } else {
        None
    }
}
