//! The units of a run as the product has them.

ghost use Rattle.std.specs.Prelude.{◌≡◌, None};

use crate::unit_set::UnitSet;
use cu_control::CuControl;
use cu_user::{CuUser, PlaceError};
use du_node::DuNode;
use gnb_types::inputs::Input;
use gnb_types::items::{Items, Memory};
use gnb_types::names::{BearerId, Gnb, NodeId, UeId};
use gnb_types::outputs::Outputs;
use gnb_types::plans::Plan;
use run_units::units::Units;
use std::alloc::Global;
use ue_node::UeNode;
use unit_messages::lawful_codecs::LawfulCodec;
use unit_messages::steps::StepError;

/// The ten units of both gNBs and the terminals, once they have begun.
#[derive(Drop)]
pub struct Site {
    units: Option<UnitSet>,
}

impl Site {
    /// It holds nothing yet.
    pub fn new() -> Site
        ensures { result ≡ record { units = None } }
    {
        Site { units: None }
    }
}

impl<C: LawfulCodec> Units<C> for Site {
    ghost use Rattle.std.specs.Prelude.{true};
    ghost use Rattle.run_defs.specs.UnitRuns.{tables};
    ghost use Rattle.proof_site.proofs.leaves.Leaves.{leaves_all};
    ghost use Rattle.site.specs.Sites.{records_in, AreReady};
    ghost use Rattle.site.specs.Laws.{all_in_range, tables_alike};

    ghost records = { λ s. records_in s.units };

    ghost ready = { λ s. AreReady s.units };

    ghost answer = { tables C.codec };

    // These units answer as the tables do wherever they come to.
    ghost in_range = { λ _. Unit {0} };

    ghost plain = { true };

    fn begin(&mut self, alloc: Global) -> Result<(), Memory> {
        let units = UnitSet::new(alloc)?;
        drop(self.units.replace(units));
        Ok(())
    }

    fn seat(&mut self, alloc: Global, plan: Plan) -> Result<(), Memory> {
        match &mut self.units {
            Some(units) => units.seat(alloc, plan),
            None => unreachable!(),
        }
    }

    fn place_static(&mut self, alloc: Global, plan: Plan) -> Result<(), PlaceError> {
        match &mut self.units {
            Some(units) => units.place_static(alloc, plan),
            None => unreachable!(),
        }
    }

    fn step(
        &mut self,
        alloc: Global,
        codec: &C,
        node: NodeId,
        input: Input,
    ) -> Result<Outputs, StepError> {
        match &mut self.units {
            Some(units) => units.step(alloc, codec, node, input),
            None => unreachable!(),
        }
    }

    fn cu_control(&self, gnb: Gnb) -> &CuControl {
        match &self.units {
            Some(units) => units.cu_control(gnb),
            None => unreachable!(),
        }
    }

    fn cu_user(&self, node: NodeId) -> Option<&CuUser> {
        self.units.as_ref()?.cu_user(node)
    }

    fn du_node(&self, node: NodeId) -> Option<&DuNode> {
        self.units.as_ref()?.du_node(node)
    }

    fn ue_node(&self, ue: UeId) -> Option<&UeNode> {
        self.units.as_ref()?.ue_node(ue)
    }

    fn terminals(&self, alloc: Global) -> Result<Items<UeId>, Memory> {
        match &self.units {
            Some(units) => units.terminals(alloc),
            None => unreachable!(),
        }
    }

    fn cu_users_rest(&self, ue: UeId, bearer: BearerId) -> bool {
        match &self.units {
            Some(units) => units.cu_users_rest(ue, bearer),
            None => true,
        }
    }

    ghost leaves = { λ s ready. leaves_all C.codec (records_in s.units) ready.1 };

    ghost keeps = { all_in_range (tables C.codec) };

    ghost follows = { λ plain. tables_alike C.codec };
}
