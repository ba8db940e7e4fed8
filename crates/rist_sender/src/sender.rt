//! The sender: what it keeps, and what each of its calls begins and ends with.
use crate::settings::Settings;
use bond_links::Bond;
use link_channels::{MAX_LINKS, Profile};
use psk_seal::Sealer;
use receiver_rules::tick_of;
use retransmit_store::Store;
use rist_wire::{Session, Shutter};
use sender_rules::SendBad;
use std::alloc::{AllocError, Global};
use std::marker::Model;

/// The sending end of a flow. `send`, `feedback` and `tick` bring input, each at a moment of the caller's clock in
/// microseconds, and write datagrams on the links that are handed in. Each call's moment counts as at least that of the
/// calls before it. A link on which a write failed is down for good. `renew` begins another flow over the same links.
#[derive(Drop)]
pub struct Sender {
    pub(crate) flow: u32,
    pub(crate) first: u32,
    pub(crate) hold: u64,
    pub(crate) bond: Bond,
    pub(crate) nulls: bool,
    pub(crate) alive: bool,
    pub(crate) shutter: Shutter,
    pub(crate) store: Store,
    pub(crate) time: u64,
    pub(crate) count: u64,
    pub(crate) octets: u32,
    pub(crate) down: [bool; MAX_LINKS],
    pub(crate) reports: [Option<u64>; MAX_LINKS],
    pub(crate) keepalives: [Option<u64>; MAX_LINKS],
}

impl Model for Sender {
    ghost use Rattle.rist_sender.specs.Sender.{SenderState};
    ghost use Rattle.rist_sender.specs.Inside.Kept.{IsKept};

    ghost Value = { SenderState };

    ghost view = { λ s. record {
      flow = s.flow;
      first = s.first;
      hold = s.hold;
      bonding = s.bond;
      session = s.shutter.session;
      sealer = s.shutter.sealer;
      store = s.store;
      time = s.time;
      count = s.count;
      octets = s.octets;
      down = s.down;
      reports = s.reports;
      keepalives = s.keepalives;
    } };

    ghost invariant = { λ s. IsKept s.nulls s.alive s.flow s.first s.hold s.shutter s.store s.time s.count };
}

impl Sender {
    ghost use Rattle.std.specs.Prelude.{◌≡◌, ◌≤◌, ◌<◌, ◌*◌, ◌%◌, [], not, slice_index_or, is_some, false, IfOk};
    ghost use Rattle.sender_rules.specs.declared.bounds.TheConstants.{MAX_STORED};
    ghost use Rattle.link_channels.specs.declared.bounds.TheConstants.{MAX_LINKS};
    ghost use Rattle.rist_wire.specs.Session.{IsSession};
    ghost use Rattle.rist_sender.specs.Sender.{IsSenderAfter, rules_of};
    ghost use Rattle.rist_sender.specs.Calls.{Work, called_at, renewed_as, IsAnswer};

    /// A sender that was not called yet. All memory is taken here. A sealer is handed in exactly where the session has
    /// a passphrase.
    pub fn with(
        alloc: Global,
        settings: Settings,
        session: &Session,
        sealer: Option<Sealer>,
    ) -> Result<Sender, AllocError>
        requires flow { settings.flow % 2 ≡ 0 }
        requires store { (1 ≤ settings.store) × (settings.store ≤ MAX_STORED) }
        requires hold { (1 ≤ settings.hold) × (settings.hold ≤ 1000) }
        requires session { IsSession session.now }
        requires paired { is_some sealer ≡ is_some session.now.pass }
        ensures set { IfOk result (λ s. (s.flow ≡ settings.flow) × (s.first ≡ settings.first)
            × (s.hold ≡ 90 * settings.hold) × (s.store.size ≡ settings.store)
            × (s.bonding ≡ settings.bond) × (s.session ≡ session.now)) }
        ensures state { IfOk result (λ s.
            IsSenderAfter s (record { history = []; sealer = sealer; is_short = false })) }
    {
        let store = Store::with_size(alloc, settings.store)?;
        Ok(Sender {
            flow: settings.flow,
            first: settings.first,
            hold: 90 * u64::from(settings.hold),
            bond: settings.bond,
            nulls: session.nulls,
            alive: session.profile == Profile::Main,
            shutter: Shutter::with(session, sealer),
            store,
            time: 0,
            count: 0,
            octets: 0,
            down: [false; MAX_LINKS],
            reports: [None; MAX_LINKS],
            keepalives: [None; MAX_LINKS],
        })
    }

    /// Another flow begins: the next packet has this SSRC, which is even, and this number. Nothing that was sent before
    /// is sent again, and reports count anew, as they do where an SSRC changes (RFC 3550, section 6.4.1). Sealer,
    /// effective time and links go on: timestamps don't fall, a link that is down stays so, and its next report and
    /// keepalive are due when they were. No memory is taken.
    pub fn renew(&mut self, flow: u32, first: u32)
        requires flow { flow % 2 ≡ 0 }
        ensures value { self.new ≡ record self.old {
          flow = flow;
          first = first;
          store = record { size = self.old.store.size; packets = [] };
          count = 0;
          octets = 0;
        } }
        ensures state { (from : Work) → IsSenderAfter self.old from
            → IsSenderAfter self.new (renewed_as flow first from) }
    {
        self.flow = flow;
        self.first = first;
        self.store.empty();
        self.count = 0;
        self.octets = 0;
    }

    /// Whether a link isn't down: no write on it has failed.
    pub fn up(&self, link: u8) -> bool
        requires { link < MAX_LINKS }
        ensures value { result ≡ not (slice_index_or self.now.down link false) }
    {
        !self.down[usize::from(link)]
    }

    /// A call begins.
    pub(crate) fn begin(&mut self, us: u64)
        ensures state { (from : Work) → IsSenderAfter self.old from → IsSenderAfter self.new (called_at us from) }
        ensures same { rules_of self.new ≡ rules_of self.old }
        ensures session { self.new.session ≡ self.old.session }
    {
        self.time = self.time.max(tick_of(us));
    }

    /// Whether a link is down.
    pub(crate) fn is_down(&self, link: u8) -> bool
        requires few { link < MAX_LINKS }
        ensures value { result ≡ slice_index_or self.now.down link false }
    {
        self.down[usize::from(link)]
    }

    /// Refuses where every link is down.
    pub(crate) fn check_up(&self, links: usize) -> Result<(), SendBad>
        requires few { links ≤ MAX_LINKS }
        ensures answer { (to : Work) → IsSenderAfter self.now to → to.is_short ≡ false
            → IsAnswer links (λ done. Unit {0}) result to }
    {
        for link in 0..links {
            if !self.down[link] {
                return Ok(());
            }
        }
        Err(SendBad::LinksDown)
    }
}
