//! Links are opened in order, and given back.
ghost use Rattle.std.specs.Prelude.{◌≡◌, ◌≤◌, ◌<◌, ◌++◌, ◌∷◌, ◌+◌, [], IsTrue, IfOk, OnOk, OnErr, length, map};
ghost use Rattle.link_channels.specs.declared.bounds.TheConstants.{MAX_LINKS};
ghost use Rattle.outside_host.specs.Shelf.{ChangesLinks, ChangesOpening, HasHostCause};
ghost use Rattle.outside_net.specs.declared.link_spec.Role.TheVariants.{Forwards, Receives};
ghost use Rattle.outside_host.specs.Links.{AreAsTheyWere, AreBack, AreFirstOf, AreOut, HasOpenedNone, KnowStatedFrom};
ghost use Rattle.outside_host.specs.Inside.Links.{ComeBack, GainKnowing, GoOut, IsNextOut, StayFirst};

use crate::{Host, HostBad};
use link_channels::Profile;
use outside_net::{LinkSpec, Role};
use std::alloc::Global;

// Opens the next link. One for which there is no room is given back.
fn open_next<H: Host>(
    host: &mut H,
    spec: &LinkSpec,
    role: Role,
    profile: Profile,
    links: &mut Vec<H::Wire>,
) -> Result<(), HostBad>
    requires few { length links.old.items < MAX_LINKS }
    ensures ok { IsTrue H.tells → length (H.shelf host.old).opened_links ≡ length links.old.items → OnOk result
        (IsNextOut (H.shelf host.old).links (H.shelf host.new).links links.old.items links.new.items
        × ((H.shelf host.new).opened_links ≡ (H.shelf host.old).opened_links
        ++ record { spec = spec.now; role = role; profile = profile } ∷ [])) }
    ensures err { IsTrue H.tells → length (H.shelf host.old).opened_links ≡ length links.old.items → OnErr result
        (AreAsTheyWere (H.shelf host.old).links (H.shelf host.new).links
        × StayFirst (length links.old.items) (H.shelf host.old).links (H.shelf host.new).links) }
    ensures tried { IsTrue H.tells → length (H.shelf host.old).opened_links ≡ length links.old.items → OnErr result
        (AreFirstOf (H.shelf host.new).opened_links
        ((H.shelf host.old).opened_links ++ record { spec = spec.now; role = role; profile = profile } ∷ [])) }
    ensures more { OnOk result (length links.new.items ≡ length links.old.items + 1) }
    ensures knows { OnOk result (GainKnowing H.Wire.knows role profile links.old.items links.new.items) }
    ensures kept { OnErr result (links.new.items ≡ links.old.items) }
    ensures same { IsTrue H.tells → ChangesOpening (H.shelf host.old) (H.shelf host.new) }
    ensures cause { HasHostCause (H.faults host.old) (H.faults host.new) result }
{
    let link = match host.link(spec, role, profile) {
        Ok(link) => link,
        Err(bad) => return Err(bad),
    };
    match links.push(link) {
        Ok(()) => Ok(()),
        Err(refused) => {
            host.back_link(links.len() as u8, refused.value);
            Err(HostBad::NoMemory)
        }
    }
}

// Opens links behind those that are out already, in this order, all of them or none: where one can't be opened, all are
// given back.
fn open_all<H: Host>(
    host: &mut H,
    specs: &[LinkSpec],
    role: Role,
    profile: Profile,
    mut links: Vec<H::Wire>,
) -> Result<Vec<H::Wire>, HostBad>
    requires few { length links.items + length specs.now ≤ MAX_LINKS }
    ensures ok { IsTrue H.tells → length (H.shelf host.old).opened_links ≡ length links.items
        → IfOk result (λ all. GoOut (H.shelf host.old).links (H.shelf host.new).links links.items all.items) }
    ensures count { IfOk result (λ all. length all.items ≡ length links.items + length specs.now) }
    ensures know { IfOk result (λ all. GainKnowing H.Wire.knows role profile links.items all.items) }
    ensures opened { IsTrue H.tells → length (H.shelf host.old).opened_links ≡ length links.items
        → OnOk result ((H.shelf host.new).opened_links ≡ (H.shelf host.old).opened_links
        ++ map (λ spec. record { spec = spec; role = role; profile = profile }) specs.now) }
    ensures err { IsTrue H.tells → length (H.shelf host.old).opened_links ≡ length links.items
        → OnErr result (ComeBack (H.shelf host.old).links (H.shelf host.new).links links.items) }
    ensures tried { IsTrue H.tells → length (H.shelf host.old).opened_links ≡ length links.items
        → OnErr result (AreFirstOf (H.shelf host.new).opened_links ((H.shelf host.old).opened_links
        ++ map (λ spec. record { spec = spec; role = role; profile = profile }) specs.now)) }
    ensures same { IsTrue H.tells → ChangesOpening (H.shelf host.old) (H.shelf host.new) }
    ensures cause { HasHostCause (H.faults host.old) (H.faults host.new) result }
{
    for spec in specs {
        match open_next(host, spec, role, profile, &mut links) {
            Ok(()) => {}
            Err(bad) => {
                back_links(host, links);
                return Err(bad);
            }
        }
    }
    Ok(links)
}

/// Opens links in this order, all of them or none: where one can't be opened, those before it are given back, and none
/// behind it is opened.
pub fn open_links<H: Host>(
    alloc: Global,
    host: &mut H,
    specs: &[LinkSpec],
    role: Role,
    profile: Profile,
) -> Result<Vec<H::Wire>, HostBad>
    requires few { length specs.now ≤ MAX_LINKS }
    ensures ok { HasOpenedNone H.tells (H.shelf host.old)
        → IfOk result (λ links. AreOut (H.shelf host.old).links (H.shelf host.new).links links.items) }
    ensures count { IfOk result (λ links. length links.items ≡ length specs.now) }
    ensures know { IfOk result (λ links. KnowStatedFrom H.Wire.knows role profile 0 links.items) }
    ensures opened { HasOpenedNone H.tells (H.shelf host.old) → OnOk result ((H.shelf host.new).opened_links
        ≡ map (λ spec. record { spec = spec; role = role; profile = profile }) specs.now) }
    ensures err { HasOpenedNone H.tells (H.shelf host.old)
        → OnErr result (AreAsTheyWere (H.shelf host.old).links (H.shelf host.new).links) }
    ensures tried { HasOpenedNone H.tells (H.shelf host.old) → OnErr result (AreFirstOf (H.shelf host.new).opened_links
        (map (λ spec. record { spec = spec; role = role; profile = profile }) specs.now)) }
    ensures same { IsTrue H.tells → ChangesOpening (H.shelf host.old) (H.shelf host.new) }
    ensures cause { HasHostCause (H.faults host.old) (H.faults host.new) result }
{
    let links = match Vec::with_capacity(alloc, specs.len()) {
        Ok(links) => links,
        Err(_) => return Err(HostBad::NoMemory),
    };
    open_all(host, specs, role, profile, links)
}

/// Opens links that are received on in one profile, and behind them links that are sent on by a gateway in another, in this
/// order, all of them or none.
pub fn open_both<H: Host>(
    alloc: Global,
    host: &mut H,
    inputs: &[LinkSpec],
    incoming: Profile,
    outputs: &[LinkSpec],
    onward: Profile,
) -> Result<Vec<H::Wire>, HostBad>
    requires few { length inputs.now + length outputs.now ≤ MAX_LINKS }
    ensures ok { HasOpenedNone H.tells (H.shelf host.old)
        → IfOk result (λ links. AreOut (H.shelf host.old).links (H.shelf host.new).links links.items) }
    ensures count { IfOk result (λ links. length links.items ≡ length inputs.now + length outputs.now) }
    ensures know { IfOk result (λ links. KnowStatedFrom H.Wire.knows Forwards onward (length inputs.now) links.items) }
    ensures opened { HasOpenedNone H.tells (H.shelf host.old) → OnOk result ((H.shelf host.new).opened_links
        ≡ map (λ spec. record { spec = spec; role = Receives; profile = incoming }) inputs.now
        ++ map (λ spec. record { spec = spec; role = Forwards; profile = onward }) outputs.now) }
    ensures err { HasOpenedNone H.tells (H.shelf host.old)
        → OnErr result (AreAsTheyWere (H.shelf host.old).links (H.shelf host.new).links) }
    ensures tried { HasOpenedNone H.tells (H.shelf host.old) → OnErr result (AreFirstOf (H.shelf host.new).opened_links
        (map (λ spec. record { spec = spec; role = Receives; profile = incoming }) inputs.now
        ++ map (λ spec. record { spec = spec; role = Forwards; profile = onward }) outputs.now)) }
    ensures same { IsTrue H.tells → ChangesOpening (H.shelf host.old) (H.shelf host.new) }
    ensures cause { HasHostCause (H.faults host.old) (H.faults host.new) result }
{
    let links = match Vec::with_capacity(alloc, inputs.len() + outputs.len()) {
        Ok(links) => links,
        Err(_) => return Err(HostBad::NoMemory),
    };
    match open_all(host, inputs, Role::Receives, incoming, links) {
        Ok(links) => open_all(host, outputs, Role::Forwards, onward, links),
        Err(bad) => Err(bad),
    }
}

/// Gives links back to the first places of a host, in this order.
pub fn back_links<H: Host>(host: &mut H, mut links: Vec<H::Wire>)
    requires few { length links.items ≤ MAX_LINKS }
    ensures state { IsTrue H.tells → AreBack (H.shelf host.old).links (H.shelf host.new).links links.items }
    ensures same { IsTrue H.tells → ChangesLinks (H.shelf host.old) (H.shelf host.new) }
    ensures cause { H.faults host.new ≡ H.faults host.old }
{
    while let Some(link) = links.pop() {
        host.back_link(links.len() as u8, link);
    }
}
