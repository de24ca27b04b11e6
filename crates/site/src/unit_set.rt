//! All units of a run.

ghost use Rattle.std.specs.Prelude.{◌≡◌, ◌⊎◌, false, None, Ok, Err, IfOk, IfErr, OnOk};
ghost use Rattle.std.specs.Option.{option_map};
ghost use Rattle.std.specs.Map.{keys_of};
ghost use Rattle.gnb_types.specs.Orders.{node_cmp, ue_cmp};
ghost use Rattle.gnb_types.specs.declared.names.NodeId.TheVariants.{CuCp, CuUp, Du, Ue};
ghost use Rattle.tables.specs.Tables.{find};
ghost use Rattle.cu_up_contexts.specs.declared.contexts.placing.PlaceError.TheVariants as errors;
ghost use Rattle.ue_node.specs.Nodes.{HasPacket};
ghost use Rattle.unit_defs.specs.Ue.{new_ue};
ghost use Rattle.run_defs.specs.Units.{new_units, cu_cp_of, ue_of, with_ue, ups_rest};
ghost use Rattle.run_defs.specs.Conditions.{is_held_by_units};
ghost use Rattle.run_defs.specs.UnitRuns.{tables};
ghost use Rattle.run_defs.specs.plain_defs.Plain.{IsPlanned};
ghost use Rattle.run_units.specs.Steps.{StepGives, PlacingGives};
ghost use Rattle.site.specs.Sites.{records_of, AreWorking, all_marked};
ghost use Rattle.site.specs.site_tables.Nodes.{node_at};
ghost use Rattle.site.specs.Placing.{PlacesOthers, control_placed};
ghost use Rattle.unit_messages.specs.declared.steps.StepError.TheVariants as step_errors;

use crate::site_tables::names::keys_in;
use crate::site_tables::nodes::{self, Nodes};
use crate::site_tables::terminals::{self, Terminals};
use crate::site_tables::users::{self, Users};
use cu_control::CuControl;
use cu_user::{CuUser, PlaceError};
use du_node::DuNode;
use gnb_types::inputs::Input;
use gnb_types::items::{Items, Memory};
use gnb_types::names::{BearerId, Gnb, NodeId, UeId};
use gnb_types::outputs::Outputs;
use gnb_types::plans::Plan;
use gnb_types::results::beside;
use std::alloc::Global;
use tables::table::Table;
use ue_node::UeNode;
use unit_messages::lawful_codecs::LawfulCodec;
use unit_messages::steps::StepError;

/// The ten units of both gNBs, and the terminals.
#[derive(Drop)]
pub struct UnitSet {
    cu_cp_a: CuControl,
    cu_cp_b: CuControl,
    users: Users,
    nodes: Nodes,
    terminals: Terminals,
}

impl UnitSet {
    /// All ten units as they are at first, and no terminal.
    pub(crate) fn new(alloc: Global) -> Result<UnitSet, Memory>
        ensures records { IfOk result (λ units. records_of units ≡ new_units) }
        ensures works { IfOk result AreWorking }
    {
        let users = users::first_users(alloc)?;
        let nodes = nodes::first_nodes(alloc)?;
        let cu_cp_a = CuControl::new(alloc, Gnb::A)?;
        let (cu_cp_b, cu_cp_a) = beside(CuControl::new(alloc, Gnb::B), cu_cp_a)?;
        Ok(UnitSet {
            cu_cp_a,
            cu_cp_b,
            users,
            nodes,
            terminals: Table::new(alloc),
        })
    }

    /// A terminal comes, by its plan.
    pub(crate) fn seat(&mut self, alloc: Global, plan: Plan) -> Result<(), Memory>
        requires works { AreWorking self.old }
        requires planned { IsPlanned plan }
        ensures works { OnOk result (AreWorking self.new) }
        ensures records { OnOk result
            (records_of self.new ≡ with_ue (records_of self.old) plan.ue (new_ue plan)) }
    {
        terminals::seat(&mut self.terminals, alloc, plan)
    }

    // ---- a terminal that is set up without messages

    /// A terminal that no unit of its plan holds is set up without messages, and all units count as set up.
    pub(crate) fn place_static(&mut self, alloc: Global, plan: Plan) -> Result<(), PlaceError>
        requires works { AreWorking self.old }
        requires planned { IsPlanned plan }
        requires new { is_held_by_units plan (records_of self.old) ≡ false }
        ensures works { (result ≡ Ok tt) ⊎ (result ≡ Err errors.NoQuota) → AreWorking self.new }
        ensures places { PlacingGives plan (records_of self.old) (records_of self.new) result }
    {
        let uplink = users::next_teid(&self.users, plan.gnb, plan.up);
        let downlink = nodes::next_teid(&self.nodes, plan.gnb, plan.du);
        users::place(&mut self.users, alloc, plan, downlink)?;
        match self.place_at_others(alloc, plan, uplink + 1) {
            Ok(()) => Ok(()),
            Err(error) => Err(PlaceError::Step(error)),
        }
    }

    /// It gets its context at the DU and the CU-CP, and is there itself.
    fn place_at_others(&mut self, alloc: Global, plan: Plan, uplink: u32) -> Result<(), StepError>
        requires works { AreWorking self.old }
        requires planned { IsPlanned plan }
        requires new { find ue_cmp (node_at self.old.nodes plan.gnb plan.du).du.contexts plan.ue ≡ None }
        ensures { PlacesOthers plan uplink self.old self.new result }
    {
        nodes::place(&mut self.nodes, alloc, plan, uplink)?;
        self.place_at_control(plan)?;
        terminals::place(&mut self.terminals, alloc, plan)?;
        self.mark_set_up(alloc)?;
        Ok(())
    }

    fn place_at_control(&mut self, plan: Plan) -> Result<(), StepError>
        requires { AreWorking self.old }
        ensures placed { OnOk result (self.new ≡ control_placed plan plan.gnb self.old) }
        ensures fails { IfErr result (λ error. error ≡ step_errors.Memory) }
    {
        match plan.gnb {
            Gnb::A => self.cu_cp_a.place_static(plan),
            Gnb::B => self.cu_cp_b.place_static(plan),
        }
    }

    /// All units count as set up.
    fn mark_set_up(&mut self, alloc: Global) -> Result<(), Memory>
        ensures { OnOk result (self.new ≡ all_marked self.old) }
    {
        users::mark_set_up(&mut self.users, alloc)?;
        nodes::mark_set_up(&mut self.nodes, alloc)?;
        self.cu_cp_a.mark_set_up();
        self.cu_cp_b.mark_set_up();
        Ok(())
    }

    // ---- steps

    /// One step of a unit: its outputs, in order.
    pub(crate) fn step<C: LawfulCodec>(
        &mut self,
        alloc: Global,
        codec: &C,
        node: NodeId,
        input: Input,
    ) -> Result<Outputs, StepError>
        requires works { AreWorking self.old }
        requires packet { HasPacket input }
        ensures works { OnOk result (AreWorking self.new) }
        ensures gives { StepGives (tables C.codec (records_of self.old) node input)
            (records_of self.new) result }
    {
        match node {
            NodeId::CuCp(gnb) => self.step_control(codec, gnb, input),
            NodeId::CuUp(gnb, number) => self.step_user(alloc, codec, gnb, number, &input),
            NodeId::Du(gnb, number) => self.step_node(alloc, codec, gnb, number, &input),
            NodeId::Ue(ue) => self.step_terminal(alloc, codec, UeId(ue), input),
            NodeId::Core => Ok(Outputs::new(alloc)),
        }
    }

    fn step_control<C: LawfulCodec>(
        &mut self,
        codec: &C,
        gnb: Gnb,
        input: Input,
    ) -> Result<Outputs, StepError>
        requires { AreWorking self.old }
        ensures works { OnOk result (AreWorking self.new) }
        ensures gives { StepGives (tables C.codec (records_of self.old) (CuCp gnb) input)
            (records_of self.new) result }
    {
        match gnb {
            Gnb::A => self.cu_cp_a.step(codec, input),
            Gnb::B => self.cu_cp_b.step(codec, input),
        }
    }

    fn step_user<C: LawfulCodec>(
        &mut self,
        alloc: Global,
        codec: &C,
        gnb: Gnb,
        number: u8,
        input: &Input,
    ) -> Result<Outputs, StepError>
        requires { AreWorking self.old }
        ensures works { OnOk result (AreWorking self.new) }
        ensures gives { StepGives (tables C.codec (records_of self.old) (CuUp gnb number) input.now)
            (records_of self.new) result }
    {
        users::step(&mut self.users, alloc, codec, gnb, number, input)
    }

    fn step_node<C: LawfulCodec>(
        &mut self,
        alloc: Global,
        codec: &C,
        gnb: Gnb,
        number: u8,
        input: &Input,
    ) -> Result<Outputs, StepError>
        requires { AreWorking self.old }
        ensures works { OnOk result (AreWorking self.new) }
        ensures gives { StepGives (tables C.codec (records_of self.old) (Du gnb number) input.now)
            (records_of self.new) result }
    {
        nodes::step(&mut self.nodes, alloc, codec, gnb, number, input)
    }

    fn step_terminal<C: LawfulCodec>(
        &mut self,
        alloc: Global,
        codec: &C,
        ue: UeId,
        input: Input,
    ) -> Result<Outputs, StepError>
        requires works { AreWorking self.old }
        requires packet { HasPacket input }
        ensures works { OnOk result (AreWorking self.new) }
        ensures gives { StepGives (tables C.codec (records_of self.old) (Ue ue.0) input)
            (records_of self.new) result }
    {
        terminals::step(&mut self.terminals, alloc, codec, ue, input)
    }

    // ---- what a run looks at

    pub(crate) fn cu_control(&self, gnb: Gnb) -> &CuControl
        ensures { result.now.kept ≡ cu_cp_of (records_of self.now) gnb }
    {
        match gnb {
            Gnb::A => &self.cu_cp_a,
            Gnb::B => &self.cu_cp_b,
        }
    }

    pub(crate) fn cu_user(&self, name: NodeId) -> Option<&CuUser>
        ensures { option_map (λ u. u.now.up) result ≡ find node_cmp (records_of self.now).ups name }
    {
        self.users.get(&name)
    }

    pub(crate) fn du_node(&self, name: NodeId) -> Option<&DuNode>
        ensures { option_map (λ d. d.now.du) result ≡ find node_cmp (records_of self.now).dus name }
    {
        self.nodes.get(&name)
    }

    pub(crate) fn ue_node(&self, ue: UeId) -> Option<&UeNode>
        ensures { option_map (λ u. u.now.node) result ≡ ue_of (records_of self.now) ue }
    {
        self.terminals.get(&ue)
    }

    pub(crate) fn terminals(&self, alloc: Global) -> Result<Items<UeId>, Memory>
        ensures { IfOk result (λ ues. ues ≡ keys_of (records_of self.now).ues) }
    {
        keys_in(&self.terminals, alloc)
    }

    pub(crate) fn cu_users_rest(&self, ue: UeId, bearer: BearerId) -> bool
        ensures { result ≡ ups_rest (records_of self.now) ue bearer }
    {
        users::rest(&self.users, ue, bearer)
    }
}
