//! What a terminal keeps.

ghost use Rattle.std.specs.Prelude.{◌≡◌, ◌+◌, ◌<◌, ◌≤◌, IfOk, IfSome, IfNone};
ghost use Rattle.unit_defs.specs.Accessors.{ue_rests};
ghost use Rattle.unit_defs.specs.Ue.{new_ue, placed};
ghost use Rattle.ue_node.specs.rows.Records.{record_of, terminal_in, IsRecord, IsOutside};

use gnb_types::items::Memory;
use gnb_types::names::{BearerId, NodeId};
use gnb_types::plans::Plan;
use pdcp_bearers::ue_packets::{Bearer, Terminal};
use std::alloc::Global;
use unit_defs::{TokenKind, UeState};

/// What a terminal keeps. Its bearers have the numbers of PDCP and the quota of its plan.
#[derive(Drop)]
pub struct UeRecord {
    pub plan: Plan,
    pub state: UeState,
    pub epoch: u32,
    /// The DU of its last connection.
    pub home: Option<NodeId>,
    /// The DU of the command that it obeys.
    pub goal: Option<NodeId>,
    /// What it says to its home until it is accepted.
    pub token: Option<TokenKind>,
    /// Bearer `i + 1` stands at index `i`.
    pub bearers: Vec<Bearer>,
}

/// Where a bearer stands among so many.
pub(crate) fn index_of(bearer: BearerId, count: usize) -> Option<usize>
    ensures within { IfSome result (λ i. (i < count) × (i + 1 ≡ bearer.0)) }
    ensures none { IfNone result (IsOutside bearer.0 count) }
{
    let index = usize::from(bearer.0).checked_sub(1)?;
    if index < count { Some(index) } else { None }
}

impl UeRecord {
    /// A terminal that is idle. On each bearer nothing waits, and COUNT 0 is given and awaited. It takes the blocks for the packets of
    /// its bearers: twice its quota for each.
    pub fn new(alloc: Global, plan: Plan) -> Result<UeRecord, Memory>
        requires least { 4 ≤ plan.quota }
        requires most { plan.quota ≤ 4096 }
        ensures new { IfOk result (λ u. record_of u ≡ new_ue plan) }
        ensures sound { IfOk result (λ u. IsRecord u) }
    {
        let mut bearers = Vec::new(alloc);
        for number in 0..plan.bearers {
            bearers.push(Bearer::new(alloc, &plan, BearerId(number + 1))?)?;
        }
        Ok(UeRecord {
            plan,
            state: UeState::Idle,
            epoch: 0,
            home: None,
            goal: None,
            token: None,
            bearers,
        })
    }

    /// The terminal is connected in epoch 1, as if an attach had run.
    #[tactic(auto, unfolding(unit_defs::specs::Ue::placed))]
    pub fn place_static(&mut self)
        requires { IsRecord self.old }
        ensures placed { record_of self.new ≡ placed (record_of self.old) }
        ensures sound { IsRecord self.new }
    {
        self.state = UeState::Connected;
        self.epoch = 1;
        self.home = Some(NodeId::Du(self.plan.gnb, self.plan.du));
    }

    /// Whether nothing of this bearer is unconfirmed or waits.
    pub fn rests(&self, bearer: BearerId) -> bool
        ensures { result ≡ ue_rests (record_of self.now) bearer }
    {
        match index_of(bearer, self.bearers.len()) {
            Some(index) => self.bearers[index].uplink.rests(),
            None => true,
        }
    }

    /// What the rows at its bearers read of it.
    pub(crate) fn terminal(&self) -> Terminal
        ensures { result ≡ terminal_in self.now }
    {
        Terminal {
            plan: self.plan,
            state: self.state,
            epoch: self.epoch,
        }
    }
}
