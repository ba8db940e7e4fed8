//! The sealer of a line.
ghost use Rattle.std.specs.Prelude.{◌≡◌, IsTrue, IfOk, IfSome, IsErrOf, Option, is_some, true};
ghost use Rattle.outside_io.specs.Causes.{HasOpenCause};
ghost use Rattle.outside_host.specs.Shelf.{Stays};
ghost use Rattle.rist_words.specs.Shown.{shown_session};
ghost use Rattle.run_parts.specs.Causes.{CanRefuse, fault_of};
ghost use Rattle.run_parts.specs.Hosts.{IsFresh};
ghost use Rattle.run_parts.specs.Sealing.{IsFreshFor, KeepsObjects, DrawnFirst, FailedAt};
ghost use Rattle.run_parts.specs.Answers.{OnErrIs, status_of};
ghost use Rattle.run_parts.specs.declared.status.Status.TheVariants as statuses;

use crate::status::Status;
use crate::telling::Telling;
use outside_host::Host;
use psk_seal::Sealer;
use rist_words::SessionWords;

/// The sealer of a session that has a passphrase: its nonces are drawn from the host's first source of random words.
pub fn sealer_for<H: Host>(
    host: &mut H,
    session: &SessionWords<'_>,
) -> Result<Option<Sealer>, Status>
    ensures ok { IfOk result (λ sealer. IsFreshFor (shown_session session.now) sealer) }
    ensures err { OnErrIs result CanRefuse }
    // Without a passphrase nothing is drawn, so nothing is refused.
    ensures keyed { OnErrIs result (λ _. is_some (shown_session session.now).pass ≡ true) }
    ensures drawn { IsFresh H.tells (H.shelf host.old)
        → IfOk result (λ sealer. IfSome sealer
        (DrawnFirst ⟦<H as Telling>⟧.objects (H.shelf host.old).entropies (H.shelf host.new).entropies)) }
    ensures others { IsTrue H.tells
        → KeepsObjects (H.shelf host.old) (H.shelf host.new) (is_some (shown_session session.now).pass) }
    // Words are drawn only where a sealer is made, or where they fail.
    ensures closed { IsTrue H.tells → IsErrOf result statuses.OpenFault
        → Stays (H.shelf host.old).entropies (H.shelf host.new).entropies }
    ensures memory { IsTrue H.tells → IsErrOf result statuses.Memory
        → Stays (H.shelf host.old).entropies (H.shelf host.new).entropies }
    ensures opened { HasOpenCause (fault_of (status_of result)) (H.faults host.old) (H.faults host.new) }
    ensures random { IsFresh H.tells (H.shelf host.old) → IsErrOf result statuses.EntropyFault
        → FailedAt ⟦<H as Telling>⟧.objects (H.shelf host.old) (H.shelf host.new) }
{
    if session.pass.is_none() {
        return Ok(None);
    }
    let mut words = host.entropy()?;
    let sealer = Sealer::with(&mut words);
    host.back_entropy(0, words);
    Ok(Some(sealer?))
}
