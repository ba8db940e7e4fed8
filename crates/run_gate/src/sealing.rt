//! The sealers of a gateway.
ghost use Rattle.std.specs.Prelude.{◌≡◌, ◌||◌, IsTrue, IfOk, IsErrOf, Option, is_some, true};
ghost use Rattle.outside_io.specs.Causes.{HasCause, HasOpenCause};
ghost use Rattle.rist_words.specs.Shown.{shown_session};
ghost use Rattle.psk_seal.specs.Nonces.{AreNonces};
ghost use Rattle.run_parts.specs.Causes.{CanRefuse, fault_of};
ghost use Rattle.run_parts.specs.Hosts.{IsFresh};
ghost use Rattle.run_parts.specs.Sealing.{IsFreshFor, KeepsObjects, FailedAt};
ghost use Rattle.run_gate.specs.Sealing.{AreDrawn, DrawnBoth};
ghost use Rattle.run_gate.specs.Inside.Answers.{AreDrawnApart};
ghost use Rattle.run_parts.specs.Answers.{OnErrIs, status_of};
ghost use Rattle.run_parts.specs.declared.status.Status.TheVariants as statuses;

use outside_host::Host;
use outside_io::Entropy;
use psk_seal::{EntropyFault, Sealer};
use rist_words::SessionWords;
use run_parts::{Status, Telling, sealer_for};

/// The sealers of a gateway's receiver and of its sender; none for an end without a passphrase.
#[derive(Drop)]
pub struct Sealers {
    pub receiving: Option<Sealer>,
    pub sending: Option<Sealer>,
}

// Two sealers, the nonces of the second drawn behind those of the first.
fn two_of<E: Entropy>(entropy: &mut E) -> Result<(Sealer, Sealer), EntropyFault>
    ensures drawn { IfOk result (λ two. AreDrawnApart (E.remaining entropy.old) (E.remaining entropy.new)
        two.0.nonces two.1.nonces) }
    ensures nonces { IfOk result (λ two. AreNonces two.0.nonces × AreNonces two.1.nonces) }
    ensures fresh { IfOk result (λ two. (two.0.given ≡ 0) × (two.1.given ≡ 0)) }
    ensures cause { HasCause (E.faults entropy.old) (E.faults entropy.new) result }
{
    let first = match Sealer::with(entropy) {
        Ok(sealer) => sealer,
        Err(fault) => return Err(fault),
    };
    match Sealer::with(entropy) {
        Ok(second) => Ok((first, second)),
        Err(fault) => Err(fault),
    }
}

// The sealers of both ends of a gateway: their nonces are drawn from the host's first source of random words, the
// receiver's before the sender's.
fn both_sealers<H: Host>(host: &mut H) -> Result<(Sealer, Sealer), Status>
    ensures nonces { IfOk result (λ two. AreNonces two.0.nonces × AreNonces two.1.nonces) }
    ensures fresh { IfOk result (λ two. (two.0.given ≡ 0) × (two.1.given ≡ 0)) }
    ensures err { OnErrIs result CanRefuse }
    ensures drawn { IsFresh H.tells (H.shelf host.old) → IfOk result (λ two. DrawnBoth ⟦<H as Telling>⟧.objects
        (H.shelf host.old).entropies (H.shelf host.new).entropies two.0 two.1) }
    ensures others { IsTrue H.tells → KeepsObjects (H.shelf host.old) (H.shelf host.new) true }
    ensures opened { HasOpenCause (fault_of (status_of result)) (H.faults host.old) (H.faults host.new) }
    ensures random { IsFresh H.tells (H.shelf host.old) → IsErrOf result statuses.EntropyFault
        → FailedAt ⟦<H as Telling>⟧.objects (H.shelf host.old) (H.shelf host.new) }
{
    let mut words = match host.entropy() {
        Ok(words) => words,
        Err(bad) => return Err(Status::from(bad)),
    };
    let two = two_of(&mut words);
    host.back_entropy(0, words);
    match two {
        Ok(two) => Ok(two),
        Err(_) => Err(Status::EntropyFault),
    }
}

/// The sealers of a gateway's ends, of each whose session has a passphrase: their nonces are drawn from the host's first
/// source of random words, the receiver's before the sender's.
pub fn sealers_for<H: Host>(
    host: &mut H,
    incoming: &SessionWords<'_>,
    session: &SessionWords<'_>,
) -> Result<Sealers, Status>
    ensures receiving { IfOk result (λ sealers. IsFreshFor (shown_session incoming.now) sealers.receiving) }
    ensures sending { IfOk result (λ sealers. IsFreshFor (shown_session session.now) sealers.sending) }
    ensures err { OnErrIs result CanRefuse }
    // Without a passphrase nothing is drawn, so nothing is refused.
    ensures keyed { OnErrIs result (λ _. (is_some (shown_session incoming.now).pass
        || is_some (shown_session session.now).pass) ≡ true) }
    ensures drawn { IsFresh H.tells (H.shelf host.old) → IfOk result (λ sealers. AreDrawn ⟦<H as Telling>⟧.objects
        (H.shelf host.old).entropies (H.shelf host.new).entropies sealers.receiving sealers.sending) }
    ensures others { IsTrue H.tells → KeepsObjects (H.shelf host.old) (H.shelf host.new)
        (is_some (shown_session incoming.now).pass || is_some (shown_session session.now).pass) }
    ensures opened { HasOpenCause (fault_of (status_of result)) (H.faults host.old) (H.faults host.new) }
    ensures random { IsFresh H.tells (H.shelf host.old) → IsErrOf result statuses.EntropyFault
        → FailedAt ⟦<H as Telling>⟧.objects (H.shelf host.old) (H.shelf host.new) }
{
    match (incoming.pass, session.pass) {
        (Some(_), Some(_)) => match both_sealers(host) {
            Ok((receiving, sending)) => Ok(Sealers {
                receiving: Some(receiving),
                sending: Some(sending),
            }),
            Err(status) => Err(status),
        },
        (Some(_), None) => match sealer_for(host, incoming) {
            Ok(receiving) => Ok(Sealers {
                receiving,
                sending: None,
            }),
            Err(status) => Err(status),
        },
        (None, _) => match sealer_for(host, session) {
            Ok(sending) => Ok(Sealers {
                receiving: None,
                sending,
            }),
            Err(status) => Err(status),
        },
    }
}
