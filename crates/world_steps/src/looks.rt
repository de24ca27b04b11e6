//! What events look at in units.

ghost use Rattle.std.specs.Prelude.{◌≡◌};
ghost use Rattle.unit_defs.specs.Ue.{is_connected};
ghost use Rattle.unit_defs.specs.Accessors.{is_unconfirmed};
ghost use Rattle.run_defs.specs.Units.{cu_cp_of, cu_up_of, epoch_at};
ghost use Rattle.run_defs.specs.Steps.{epoch_now, is_on_air};
ghost use Rattle.run_defs.specs.Conditions.{later, same_epoch, state_at, has_home, ready_home, serving_gnb, serving_place};
ghost use Rattle.run_defs.specs.UnitRuns.{unit_world};
ghost use Rattle.run_links.specs.Networks.{OctetWorld, state_of};

use crate::run_state::RunState;
use gnb_types::names::{BearerId, Gnb, NodeId, UeId};
use run_units::units::Units;
use unit_defs::UeState;
use unit_messages::MessageCodec;

fn is_connected(state: UeState) -> bool
    ensures { result ≡ is_connected state }
{
    matches!(state, UeState::Connected)
}

/// Whether the radios of a terminal in this state are connected.
fn is_on_air(state: UeState) -> bool
    ensures { (world : OctetWorld) → result ≡ is_on_air world state }
{
    matches!(state, UeState::Connected | UeState::Returning)
}

fn is_epoch(there: Option<u32>, epoch: u32) -> bool
    ensures { result ≡ same_epoch there epoch }
{
    match there {
        Some(there) => there == epoch,
        None => false,
    }
}

/// Whether the second epoch is the greater one.
fn is_later(first: Option<u32>, second: Option<u32>) -> bool
    ensures { result ≡ later first second }
{
    match (first, second) {
        (Some(first), Some(second)) => first < second,
        (None, Some(_)) => true,
        (_, None) => false,
    }
}

impl<U: Units<C> + Drop, C: MessageCodec + Drop> RunState<U, C> {
    /// The epoch in which the radios of a terminal are to be connected, if they are.
    pub fn epoch_now(&self, ue: UeId) -> Option<u32>
        requires { U.ready self.now.units }
        ensures { result ≡ epoch_now (unit_world C.codec U.answer)
            (state_of (U.records self.now.units) self.now.core self.now.network) ue }
    {
        self.network.plan(ue)?;
        let terminal = self.units.ue_node(ue)?;
        if is_on_air(terminal.state()) {
            Some(terminal.epoch())
        } else {
            None
        }
    }

    /// The state of a terminal; `Idle` where it never came.
    pub fn state_at(&self, ue: UeId) -> UeState
        requires { U.ready self.now.units }
        ensures { result ≡ state_at (state_of (U.records self.now.units) self.now.core self.now.network) ue }
    {
        match self.units.ue_node(ue) {
            Some(terminal) => terminal.state(),
            None => UeState::Idle,
        }
    }

    /// Whether a terminal was ever connected.
    pub fn has_home(&self, ue: UeId) -> bool
        requires { U.ready self.now.units }
        ensures { result ≡ has_home (state_of (U.records self.now.units) self.now.core self.now.network) ue }
    {
        match self.units.ue_node(ue) {
            Some(terminal) => terminal.home().is_some(),
            None => false,
        }
    }

    /// The epoch of a terminal's context at a DU.
    #[tactic(auto, unfolding(tables::specs::Tables::at, tables::specs::Tables::find))]
    fn epoch_at(&self, node: NodeId, ue: UeId) -> Option<u32>
        requires { U.ready self.now.units }
        ensures { result ≡ epoch_at (U.records self.now.units) node ue }
    {
        let NodeId::Du(_, _) = node else {
            return None;
        };
        self.units.du_node(node)?.epoch(ue)
    }

    /// The home DU of a terminal whose radios are ready.
    pub fn ready_home(&self, ue: UeId) -> Option<NodeId>
        requires { U.ready self.now.units }
        ensures { result ≡ ready_home (state_of (U.records self.now.units) self.now.core self.now.network) ue }
    {
        let terminal = self.units.ue_node(ue)?;
        let home = terminal.home()?;
        let there = self.epoch_at(home, ue);
        if is_connected(terminal.state()) && is_epoch(there, terminal.epoch()) {
            Some(home)
        } else {
            None
        }
    }

    /// The gNB whose CU-CP serves a terminal.
    pub fn serving_gnb(&self, ue: UeId) -> Gnb
        requires { U.ready self.now.units }
        ensures { result ≡ serving_gnb (state_of (U.records self.now.units) self.now.core self.now.network) ue }
    {
        let of_a = self.units.cu_control(Gnb::A).taken(ue);
        let of_b = self.units.cu_control(Gnb::B).taken(ue);
        if is_later(of_a, of_b) {
            return Gnb::B;
        }
        if of_a.is_some() {
            return Gnb::A;
        }
        match self.network.plan(ue) {
            Some(plan) => plan.gnb,
            None => Gnb::A,
        }
    }

    /// The numbers of the CU-UP and the DU that serve a terminal.
    pub fn serving_place(&self, ue: UeId) -> Option<(u8, u8)>
        requires { U.ready self.now.units }
        ensures { result ≡ serving_place (state_of (U.records self.now.units) self.now.core self.now.network) ue }
    {
        self.units.cu_control(self.serving_gnb(ue)).place(ue)
    }

    /// Whether a downlink packet of a bearer is unconfirmed at a CU-UP.
    #[tactic(auto, unfolding(tables::specs::Tables::at, tables::specs::Tables::find))]
    pub fn is_unconfirmed(&self, gnb: Gnb, number: u8, ue: UeId, bearer: BearerId) -> bool
        requires { U.ready self.now.units }
        ensures { result ≡ is_unconfirmed (cu_up_of (U.records self.now.units) gnb number) ue bearer }
    {
        match self.units.cu_user(NodeId::CuUp(gnb, number)) {
            Some(user) => user.is_unconfirmed(ue, bearer),
            None => false,
        }
    }
}
