//! The events of the generated script, made one by one.

ghost use Rattle.std.specs.Prelude.{◌≡◌, ◌≤◌, IfOk};
ghost use Rattle.scenario_text.specs.Texts.{InRange};
ghost use Rattle.command_run.specs.generate.inside.Moments.{event_at};

use gnb_types::names::{BearerId, Dir, Gnb, NodeId, SnBits, UeId};
use gnb_types::octets::{Memory, Octets};
use gnb_types::plans::Plan;
use scenario_text::event::Event;
use std::alloc::Global;

/// The one terminal, and its one bearer.
pub(crate) const UE: UeId = UeId(1);

pub(crate) const BEARER: BearerId = BearerId(1);

/// The CU-UP and the DU that serve it.
const CU_UP: NodeId = NodeId::CuUp(Gnb::A, 1);

const DU: NodeId = NodeId::Du(Gnb::A, 1);

/// How the terminal is set up.
pub(crate) const PLAN: Plan = Plan {
    ue: UE,
    gnb: Gnb::A,
    up: 1,
    du: 1,
    sn: SnBits::Len12,
    bearers: 1,
    quota: 64,
};

/// What happens to a packet, or to a terminal whose radio failed.
#[derive(Clone, Copy)]
pub(crate) enum Moment {
    /// The packet is offered at the core.
    Offer,
    /// The CU-UP takes what stands on its N3 tunnel.
    GetAtCuUp,
    /// The DU takes what stands on its newest downlink tunnel.
    GetAtDu,
    /// The CU-UP takes what stands on its F1-U uplink tunnel.
    GetFromDu,
    Air(Dir),
    Ack(Dir),
    Fail,
    Return,
    Pump,
}

/// A packet is delivered, and the CU-UP hears that it was.
pub(crate) const PACKET: [Moment; 6] = [
    Moment::Offer,
    Moment::GetAtCuUp,
    Moment::GetAtDu,
    Moment::Air(Dir::Dl),
    Moment::Ack(Dir::Dl),
    Moment::GetFromDu,
];

/// The radio fails, and the terminal comes back; both ends of the bearer report what they hold.
pub(crate) const RETURN: [Moment; 9] = [
    Moment::Fail,
    Moment::Return,
    Moment::Pump,
    Moment::GetAtDu,
    Moment::Air(Dir::Dl),
    Moment::Ack(Dir::Dl),
    Moment::Air(Dir::Ul),
    Moment::Ack(Dir::Ul),
    Moment::GetFromDu,
];

/// Where the script stands.
#[derive(Clone, Copy)]
pub(crate) struct Place {
    /// The number of the packet, from 0 on.
    pub(crate) packet: u32,
    /// How often the terminal has come back, with this return.
    pub(crate) returns: u32,
}

impl Moment {
    /// Its event there.
    pub(crate) fn event(self, alloc: Global, place: Place) -> Result<Event, Memory>
        requires { place.returns ≤ 1000 }
        ensures is { IfOk result (λ event. event ≡ event_at place self) }
        ensures range { IfOk result (λ event. InRange event) }
    {
        let (ue, bearer) = (UE, BEARER);
        match self {
            Moment::Offer => Ok(Event::Offer {
                ue,
                bearer,
                dir: Dir::Dl,
                packet: Octets::from_slice(alloc, &place.packet.to_be_bytes())?,
            }),
            Moment::GetAtCuUp => Ok(Event::Get {
                end: CU_UP,
                teid: 1,
            }),
            // Each return opens the next tunnel.
            Moment::GetAtDu => Ok(Event::Get {
                end: DU,
                teid: place.returns + 1,
            }),
            Moment::GetFromDu => Ok(Event::Get {
                end: CU_UP,
                teid: 2,
            }),
            Moment::Air(dir) => Ok(Event::Air { ue, bearer, dir }),
            Moment::Ack(dir) => Ok(Event::Ack { ue, bearer, dir }),
            Moment::Fail => Ok(Event::Fail { ue }),
            Moment::Return => Ok(Event::Return { ue }),
            Moment::Pump => Ok(Event::Pump),
        }
    }
}
