//! A desk of several flows, and the ports by which a datagram is for one of them.
ghost use Rattle.std.specs.Prelude.{◌≡◌};
ghost use Rattle.rist_wire.specs.Among.{ArePorts};

use crate::desk::FanDesk;
use crate::fan_step::FanStep;
use crate::origin::FanOrigin;
use crate::shared::SharedFan;
use outside_io::Sink;
use rist_fan::Came;
use std::marker::Model;
use turn_lock::Pass;

/// A desk of several flows in one tunnel, with the port of each place.
#[derive(Drop)]
pub struct TunnelDesk<N: FanOrigin, K: Sink + Drop> {
    pub(crate) desk: FanDesk<N, K>,
    pub(crate) ports: Vec<u16>,
}

impl<N: FanOrigin, K: Sink + Drop> Model for TunnelDesk<N, K> {
    ghost use Rattle.std.specs.Prelude.{◌≡◌};
    ghost use Rattle.rist_wire.specs.Among.{ArePorts};
    ghost use Rattle.fan_desk.specs.declared.desk.FanDesk.{FanDesk};

    ghost Value = { FanDesk N K };

    ghost view = { λ tunnel. tunnel.desk };

    ghost invariant = { λ tunnel. (tunnel.ports.items ≡ N.ports) × ArePorts N.ports };
}

impl<N: FanOrigin, K: Sink + Drop> TunnelDesk<N, K> {
    /// A desk with the ports of its places.
    pub fn with(desk: FanDesk<N, K>, ports: Vec<u16>) -> TunnelDesk<N, K>
        requires ports { ports.items ≡ N.ports }
        requires different { ArePorts N.ports }
        ensures value { result ≡ desk }
    {
        TunnelDesk { desk, ports }
    }

    /// Its parts.
    pub fn apart(self) -> (FanDesk<N, K>, Vec<u16>)
        ensures desk { result.0 ≡ self }
        ensures ports { result.1.items ≡ N.ports }
    {
        let TunnelDesk { desk, ports } = self;
        (desk, ports)
    }
}

/// What is a worker's own at such a desk: its pass, and memory for what a step comes to at each place.
#[derive(Drop)]
pub struct RowPass<N: FanOrigin, K> {
    pub pass: Pass<FanStep, SharedFan<N, K>>,
    pub came: Vec<Came>,
}
