//! The record of a CU-CP.

ghost use Rattle.std.specs.Prelude.{◌≡◌, map, IfOk, OnOk, OnErr, option_copied};
ghost use Rattle.unit_defs.specs.CuCpRecords.{new_cu_cp, terminal_of, with_terminal};
ghost use Rattle.unit_defs.specs.CuCp.{with_unit};
ghost use Rattle.unit_defs.specs.octet_defs.Codec.{Codec, octet_way};
ghost use Rattle.unit_defs.specs.Static.{cu_cp_placed, cu_cp_set_up};
ghost use Rattle.unit_defs.specs.Accessors.{state_of, taken_epoch, place_of, is_set_up, cu_cp_rests};

use crate::control_contexts::{Context, Terminal, has_node};
use gnb_types::items::{Items, Memory};
use gnb_types::names::{Gnb, NodeId, UeId};
use gnb_types::plans::Plan;
use std::alloc::Global;
use std::marker::Model;
use tables::table::Table;
use unit_defs::StateName;
use unit_requests::Requests;

/// How many units a gNB has.
const UNITS: usize = 4;

/// What a CU-CP keeps: the units that are set up, its terminals, and its requests and replies. There is room for the units of its gNB,
/// so that to mark them as set up takes no memory.
#[derive(Drop)]
pub struct ControlRecord {
    gnb: Gnb,
    units: Vec<NodeId>,
    terminals: Table<UeId, Terminal>,
    pub requests: Requests,
}

impl Model for ControlRecord {
    ghost use Rattle.std.specs.Prelude.{List, ℕ, ◌≤◌, vec_capacity};
    ghost use Rattle.unit_defs.specs.CuCpRecords.{CuCpRecord};

    ghost Value = { CuCpRecord (List ℕ) (List ℕ) };

    ghost view = { λ r. record { gnb = r.gnb; units = r.units.items; terminals = r.terminals; transactions = r.requests } };

    ghost invariant = { λ r. 4 ≤ vec_capacity r.units };
}

impl ControlRecord {
    /// The CU-CP of this gNB, with no unit set up and no terminal.
    pub fn new(alloc: Global, gnb: Gnb) -> Result<ControlRecord, Memory>
        ensures { IfOk result (λ r. r ≡ new_cu_cp gnb) }
    {
        let units = Vec::with_capacity(alloc, UNITS)?;
        Ok(ControlRecord {
            gnb,
            units,
            terminals: Table::new(alloc),
            requests: Requests::new(alloc),
        })
    }

    pub fn gnb(&self) -> Gnb
        ensures { result ≡ self.now.gnb }
    {
        self.gnb
    }

    /// The units that are set up.
    pub fn units(&self) -> &[NodeId]
        ensures { result.now ≡ self.now.units }
    {
        self.units.as_slice()
    }

    /// A copy of what is kept of a terminal.
    pub fn terminal(&self, alloc: Global, ue: UeId) -> Result<Terminal, Memory>
        ensures { IfOk result (λ t. t ≡ terminal_of self.now ue) }
    {
        match self.terminals.get(&ue) {
            Some(terminal) => Ok(terminal.copy(alloc)?),
            None => Ok(Terminal::none()),
        }
    }

    /// The terminals, in their order.
    pub fn ues(&self, alloc: Global) -> Result<Items<UeId>, Memory>
        ensures { IfOk result (λ ues. ues ≡ map (λ e. e.0) self.now.terminals) }
    {
        let mut ues = Items::new(alloc);
        for (ue, _) in self.terminals.iter() {
            ues.push(*ue)?;
        }
        Ok(ues)
    }

    /// Keeps this of a terminal: it gets an entry once there is something to keep. Out of memory nothing changes.
    pub fn put_terminal(&mut self, ue: UeId, terminal: Terminal) -> Result<(), Memory>
        ensures ok { OnOk result (self.new ≡ with_terminal ue self.old terminal) }
        ensures err { OnErr result (self.new ≡ self.old) }
    {
        if terminal.is_blank() && !self.terminals.has(&ue) {
            return Ok(());
        }
        self.terminals.put(ue, terminal)?;
        Ok(())
    }

    /// This unit is set up from here on.
    pub fn set_up(&mut self, node: NodeId) -> Result<(), Memory>
        ensures ok { (codec : Codec) → OnOk result
            (self.new ≡ with_unit (octet_way codec) node self.old) }
        ensures err { OnErr result (self.new ≡ self.old) }
    {
        if has_node(self.units.as_slice(), node) {
            return Ok(());
        }
        self.units.push(node)?;
        Ok(())
    }

    // ---- terminals and units without messages

    /// A terminal is served here as if an attach had run. Out of memory nothing changes.
    #[tactic(auto, unfolding(unit_defs::specs::Static::cu_cp_placed))]
    pub fn place_static(&mut self, plan: Plan) -> Result<(), Memory>
        ensures ok { OnOk result (self.new ≡ cu_cp_placed self.old plan) }
        ensures err { OnErr result (self.new ≡ self.old) }
    {
        let context = Context {
            state: StateName::Serving,
            epoch: Some(1),
            finished: true,
            up: plan.up,
            du: plan.du,
            sn: plan.sn,
            bearers: plan.bearers,
            quota: plan.quota,
            by_xn: false,
            attempt: None,
        };
        let terminal = Terminal {
            context: Some(context),
            taken: None,
        };
        self.put_terminal(plan.ue, terminal)
    }

    /// All units of the gNB count as set up.
    pub fn mark_set_up(&mut self)
        ensures { self.new ≡ cu_cp_set_up self.old }
    {
        self.units.clear();
        self.units.push_reserved(NodeId::CuUp(self.gnb, 1));
        self.units.push_reserved(NodeId::CuUp(self.gnb, 2));
        self.units.push_reserved(NodeId::Du(self.gnb, 1));
        self.units.push_reserved(NodeId::Du(self.gnb, 2));
    }

    // ---- what a run looks at

    /// The state of a terminal; `Idle` where it has no context.
    pub fn state(&self, ue: UeId) -> StateName
        ensures { result ≡ state_of self.now ue }
    {
        match self.context(ue) {
            Some(context) => context.state,
            None => StateName::Idle,
        }
    }

    /// The greatest epoch of a complete or re-establish that was taken.
    pub fn taken(&self, ue: UeId) -> Option<u32>
        ensures { result ≡ taken_epoch self.now ue }
    {
        match self.terminals.get(&ue) {
            Some(terminal) => terminal.taken,
            None => None,
        }
    }

    /// The numbers of the CU-UP and the DU of a terminal's context.
    pub fn place(&self, ue: UeId) -> Option<(u8, u8)>
        ensures { result ≡ place_of self.now ue }
    {
        match self.context(ue) {
            Some(context) => Some((context.up, context.du)),
            None => None,
        }
    }

    /// Whether a unit is set up.
    pub fn is_set_up(&self, unit: NodeId) -> bool
        ensures { result ≡ is_set_up self.now unit }
    {
        has_node(self.units.as_slice(), unit)
    }

    /// Whether no request of a terminal is open or waits.
    pub fn rests(&self, ue: UeId) -> bool
        ensures { result ≡ cu_cp_rests self.now ue }
    {
        self.requests.rests(ue.0)
    }

    fn context(&self, ue: UeId) -> Option<&Context>
        ensures { option_copied result ≡ (terminal_of self.now ue).context }
    {
        match self.terminals.get(&ue) {
            Some(terminal) => terminal.context.as_ref(),
            None => None,
        }
    }
}
