//! The ten units of both gNBs and the terminals, of any meaning.

ghost use Rattle.std.specs.Prelude.{◌≡◌, ◌⊎◌, Bool, false, IsTrue, IfOk, OnOk, Ok, Err};
ghost use Rattle.std.specs.Map.{keys_of};
ghost use Rattle.std.specs.Option.{option_map};
ghost use Rattle.gnb_types.specs.Orders.{node_cmp, ue_cmp};
ghost use Rattle.tables.specs.Tables.{find};
ghost use Rattle.unit_defs.specs.Ue.{new_ue};
ghost use Rattle.run_defs.specs.Units.{new_units, cu_cp_of, ue_of, with_ue, ups_rest};
ghost use Rattle.run_defs.specs.UnitRuns.{Records, Meaning};
ghost use Rattle.run_defs.specs.plain_defs.Plain.{IsPlanned, IsGiven, KeepRange, IsPlain};
ghost use Rattle.run_defs.specs.Conditions.{is_held_by_units};
ghost use Rattle.run_units.specs.Steps.{StepGives, PlacingGives, LeavesAll};
ghost use Rattle.cu_up_contexts.specs.declared.contexts.placing.PlaceError.TheVariants as errors;

use cu_control::CuControl;
use cu_user::{CuUser, PlaceError};
use du_node::DuNode;
use gnb_types::inputs::Input;
use gnb_types::items::{Items, Memory};
use gnb_types::names::{BearerId, Gnb, NodeId, UeId};
use gnb_types::outputs::Outputs;
use gnb_types::plans::Plan;
use std::alloc::Global;
use ue_node::UeNode;
use unit_messages::MessageCodec;
use unit_messages::steps::StepError;

/// The units of both gNBs and the terminals. What they are is `records`, and `answer` says what one of them makes of an input: it may
/// be any function of the records, the unit and the input that leaves all where the unit holds what it is given, or refuses an event.
/// `ready` holds once `begin` was called, as long as no call gave an error.
pub trait Units<C: MessageCodec> {
    ghost records: { Self → Records };

    ghost ready: { Self → Type 0 };

    ghost answer: { Meaning };

    /// Which records these units come to.
    ghost in_range: { Records → Type 0 };

    /// Whether in that range they answer as the tables do, after decoding.
    ghost plain: { Bool };

    /// All ten units as they are at first, and no terminal.
    fn begin(&mut self, alloc: Global) -> Result<(), Memory>
        ensures ready { OnOk result (ready self.new) }
        ensures records { OnOk result (records self.new ≡ new_units) };

    /// A terminal comes, by its plan.
    fn seat(&mut self, alloc: Global, plan: Plan) -> Result<(), Memory>
        requires ready { ready self.old }
        requires planned { IsPlanned plan }
        ensures ready { OnOk result (ready self.new) }
        ensures records { OnOk result (records self.new ≡ with_ue (records self.old) plan.ue (new_ue plan)) };

    /// A terminal that no unit of its plan holds is set up without messages, and all units count as set up. Without blocks nothing
    /// changes.
    fn place_static(&mut self, alloc: Global, plan: Plan) -> Result<(), PlaceError>
        requires ready { ready self.old }
        requires planned { IsPlanned plan }
        requires new { is_held_by_units plan (records self.old) ≡ false }
        ensures ready { (result ≡ Ok tt) ⊎ (result ≡ Err errors.NoQuota) → ready self.new }
        ensures places { PlacingGives plan (records self.old) (records self.new) result };

    /// One step of a unit: its outputs, in order.
    fn step(
        &mut self,
        alloc: Global,
        codec: &C,
        node: NodeId,
        input: Input,
    ) -> Result<Outputs, StepError>
        requires ready { ready self.old }
        requires given { IsGiven input }
        ensures ready { OnOk result (ready self.new) }
        ensures gives { StepGives (answer (records self.old) node input) (records self.new) result };

    fn cu_control(&self, gnb: Gnb) -> &CuControl
        requires { ready self.now }
        ensures { result.now.kept ≡ cu_cp_of (records self.now) gnb };

    /// The CU-UP of this name, if there is one.
    fn cu_user(&self, node: NodeId) -> Option<&CuUser>
        requires { ready self.now }
        ensures { option_map (λ u. u.now.up) result ≡ find node_cmp (records self.now).ups node };

    /// The DU of this name, if there is one.
    fn du_node(&self, node: NodeId) -> Option<&DuNode>
        requires { ready self.now }
        ensures { option_map (λ d. d.now.du) result ≡ find node_cmp (records self.now).dus node };

    /// The terminal of this name, if it ever came.
    fn ue_node(&self, ue: UeId) -> Option<&UeNode>
        requires { ready self.now }
        ensures { option_map (λ u. u.now.node) result ≡ ue_of (records self.now) ue };

    /// The terminals that ever came, in order.
    fn terminals(&self, alloc: Global) -> Result<Items<UeId>, Memory>
        requires { ready self.now }
        ensures { IfOk result (λ ues. ues ≡ keys_of (records self.now).ues) };

    /// Whether all CU-UPs are at rest as far as this bearer goes.
    fn cu_users_rest(&self, ue: UeId, bearer: BearerId) -> bool
        requires { ready self.now }
        ensures { result ≡ ups_rest (records self.now) ue bearer };

    ghost leaves: { (units : Self) → ready units → LeavesAll answer (records units) };

    ghost keeps: { KeepRange answer in_range };

    ghost follows: { IsTrue plain → IsPlain C.codec answer in_range };
}
