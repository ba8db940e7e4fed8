//! The sealers of several places.
ghost use Rattle.std.specs.Prelude.{◌≡◌, ◌≤◌, [], length, IsTrue, IfOk, IsErrOf, is_some, true, None, vec_capacity};
ghost use Rattle.std.specs.List.{All};
ghost use Rattle.outside_io.specs.Causes.{HasCause, HasOpenCause};
ghost use Rattle.rist_words.specs.Shown.{shown_session};
ghost use Rattle.run_parts.specs.Answers.{OnErrIs, status_of};
ghost use Rattle.run_parts.specs.Causes.{CanRefuse, fault_of};
ghost use Rattle.run_parts.specs.Hosts.{IsFresh};
ghost use Rattle.run_parts.specs.Sealing.{FailedAt, IsFreshFor, KeepsObjects};
ghost use Rattle.run_parts.specs.declared.status.Status.TheVariants as statuses;
ghost use Rattle.run_fan.specs.Sealing.{AreDrawn, DrawnInOrder};
ghost use Rattle.run_fan.specs.Inside.Making.{IsNewSealer};

use outside_host::Host;
use outside_io::Entropy;
use psk_seal::{EntropyFault, Sealer};
use rist_words::SessionWords;
use run_parts::{Status, Telling};

// So many sealers, the nonces of each drawn behind those of the one before it.
fn draw<E: Entropy>(
    entropy: &mut E,
    count: usize,
    mut sealers: Vec<Option<Sealer>>,
) -> Result<Vec<Option<Sealer>>, EntropyFault>
    requires none { sealers.items ≡ [] }
    requires room { count ≤ vec_capacity sealers }
    ensures drawn { IfOk result (λ drawn.
        AreDrawn (E.remaining entropy.old) (E.remaining entropy.new) drawn.items) }
    ensures count { IfOk result (λ drawn. length drawn.items ≡ count) }
    ensures fresh { IfOk result (λ drawn. All IsNewSealer drawn.items) }
    ensures cause { HasCause (E.faults entropy.old) (E.faults entropy.new) result }
{
    while sealers.len() < count {
        let sealer = match Sealer::with(entropy) {
            Ok(sealer) => sealer,
            Err(fault) => return Err(fault),
        };
        let _ = sealers.push(Some(sealer));
    }
    Ok(sealers)
}

// The same from the host's first source of random words.
fn keyed_sealers<H: Host>(
    host: &mut H,
    count: usize,
    sealers: Vec<Option<Sealer>>,
) -> Result<Vec<Option<Sealer>>, Status>
    requires none { sealers.items ≡ [] }
    requires room { count ≤ vec_capacity sealers }
    ensures count { IfOk result (λ drawn. length drawn.items ≡ count) }
    ensures fresh { IfOk result (λ drawn. All IsNewSealer drawn.items) }
    ensures err { OnErrIs result CanRefuse }
    ensures drawn { IsFresh H.tells (H.shelf host.old) → IfOk result (λ drawn. DrawnInOrder
        ⟦<H as Telling>⟧.objects (H.shelf host.old).entropies (H.shelf host.new).entropies drawn.items) }
    ensures others { IsTrue H.tells → KeepsObjects (H.shelf host.old) (H.shelf host.new) true }
    ensures opened { HasOpenCause (fault_of (status_of result)) (H.faults host.old) (H.faults host.new) }
    ensures random { IsFresh H.tells (H.shelf host.old) → IsErrOf result statuses.EntropyFault
        → FailedAt ⟦<H as Telling>⟧.objects (H.shelf host.old) (H.shelf host.new) }
{
    let mut words = match host.entropy() {
        Ok(words) => words,
        Err(bad) => return Err(Status::from(bad)),
    };
    let drawn = draw(&mut words, count, sealers);
    host.back_entropy(0, words);
    match drawn {
        Ok(drawn) => Ok(drawn),
        Err(_) => Err(Status::EntropyFault),
    }
}

// No sealer for each of so many places.
fn no_sealers(count: usize, mut sealers: Vec<Option<Sealer>>) -> Vec<Option<Sealer>>
    requires none { sealers.items ≡ [] }
    requires room { count ≤ vec_capacity sealers }
    ensures count { length result.items ≡ count }
    ensures none { All (λ sealer. sealer ≡ None) result.items }
{
    while sealers.len() < count {
        let _ = sealers.push(None);
    }
    sealers
}

/// The sealers of so many places, in room that was taken for them: in a session that has a passphrase one for each, whose
/// nonces are drawn from the host's first source of random words, in the order of the places.
pub(crate) fn sealers_for<H: Host>(
    host: &mut H,
    session: &SessionWords<'_>,
    count: usize,
    sealers: Vec<Option<Sealer>>,
) -> Result<Vec<Option<Sealer>>, Status>
    requires none { sealers.items ≡ [] }
    requires room { count ≤ vec_capacity sealers }
    ensures count { IfOk result (λ sealers. length sealers.items ≡ count) }
    ensures fresh { IfOk result (λ sealers. All (IsFreshFor (shown_session session.now)) sealers.items) }
    ensures err { OnErrIs result CanRefuse }
    // Without a passphrase nothing is drawn, so nothing is refused.
    ensures keyed { OnErrIs result (λ _. is_some (shown_session session.now).pass ≡ true) }
    ensures drawn { IsFresh H.tells (H.shelf host.old) → is_some (shown_session session.now).pass ≡ true
        → IfOk result (λ sealers. DrawnInOrder
        ⟦<H as Telling>⟧.objects (H.shelf host.old).entropies (H.shelf host.new).entropies sealers.items) }
    ensures others { IsTrue H.tells
        → KeepsObjects (H.shelf host.old) (H.shelf host.new) (is_some (shown_session session.now).pass) }
    ensures opened { HasOpenCause (fault_of (status_of result)) (H.faults host.old) (H.faults host.new) }
    ensures random { IsFresh H.tells (H.shelf host.old) → IsErrOf result statuses.EntropyFault
        → FailedAt ⟦<H as Telling>⟧.objects (H.shelf host.old) (H.shelf host.new) }
{
    if session.pass.is_none() {
        return Ok(no_sealers(count, sealers));
    }
    keyed_sealers(host, count, sealers)
}
