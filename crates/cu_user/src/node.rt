//! A CU-UP, and its steps.

ghost use Rattle.std.specs.Prelude.{◌≡◌, ◌≤◌, [], Some, None, Err, IfSome, is_some};
ghost use Rattle.std.specs.Option.{option_and_then};
ghost use Rattle.gnb_types.specs.Orders.{ue_cmp};
ghost use Rattle.tables.specs.Tables.{find};
ghost use Rattle.unit_defs.specs.codec_defs.Reading.{ReadsItems};
ghost use Rattle.unit_defs.specs.codec_range_defs.Ranges.{ReadsInRange};
ghost use Rattle.unit_defs.specs.Accessors.{cu_up_has_context, is_unconfirmed, cu_up_rests};
ghost use Rattle.unit_defs.specs.Static.{cu_up_set_up};
ghost use Rattle.unit_defs.specs.octet_defs.Codec.{Codec};
ghost use Rattle.unit_defs.specs.octet_defs.Reading.{up_link};
ghost use Rattle.unit_defs.specs.octet_defs.Units.{cu_up_steps};
ghost use Rattle.unit_messages.specs.steps.Steps.{IsStep, step_after};
ghost use Rattle.cu_up_contexts.specs.declared.contexts.placing.PlaceError.TheVariants as errors;
ghost use Rattle.cu_up_contexts.specs.contexts.Placing.{IsPlaced};
ghost use Rattle.cu_user.specs.Users.{new_user, outputs_in, failure_in, placing_failure_in};

use crate::cu_up_rows::{CuUpRecord, PlaceError};
use gnb_types::inputs::Input;
use gnb_types::names::{BearerId, Gnb, UeId};
use gnb_types::outputs::Outputs;
use gnb_types::plans::Plan;
use std::alloc::Global;
use std::marker::Model;
use unit_messages::MessageCodec;
use unit_messages::steps::StepError;

/// A CU-UP. Contracts see its record of the table of rows, and why it is of no use, if a step could not be made.
#[derive(Drop)]
pub struct CuUser {
    record: CuUpRecord,
    failure: Option<StepError>,
}

impl Model for CuUser {
    ghost use Rattle.cu_user.specs.Users.{User};

    ghost Value = { User };

    ghost view = { λ u. record { up = u.record; failure = u.failure } };
}

impl CuUser {
    /// The CU-UP `number` of a gNB: it is not set up, and serves no terminal.
    pub fn new(alloc: Global, gnb: Gnb, number: u8) -> CuUser
        ensures { result ≡ new_user gnb number }
    {
        CuUser {
            record: CuUpRecord::new(alloc, gnb, number),
            failure: None,
        }
    }

    /// It is of no use from here on.
    fn failed(&mut self, error: StepError) -> StepError
        ensures kept { self.new ≡ record self.old { failure = Some error } }
        ensures same { result ≡ error }
    {
        self.failure = Some(error);
        error
    }

    /// One step: the outputs that the rows give for this input, in order. After an error each further step gives that error again.
    pub fn step<C: MessageCodec>(
        &mut self,
        alloc: Global,
        codec: &C,
        input: &Input,
    ) -> Result<Outputs, StepError>
        requires { ReadsInRange C.codec }
        ensures steps { ReadsItems C.codec → self.old.failure ≡ None → IsStep
            (step_after [] (cu_up_steps C.codec self.old.up input.now)) (outputs_in result) self.new.up result }
        ensures kept { self.old.failure ≡ None → self.new.failure ≡ failure_in result }
        ensures failed { IfSome self.old.failure (λ error. (result ≡ Err error) × (self.new ≡ self.old)) }
    {
        if let Some(error) = self.failure {
            return Err(error);
        }
        let mut outputs = Outputs::new(alloc);
        match self.record.act(alloc, codec, input, &mut outputs) {
            Ok(()) => Ok(outputs),
            Err(error) => Err(self.failed(error)),
        }
    }

    /// A terminal without a context gets the one of this plan, as if it had been attached. Its downlinks go to the TEIDs of the DU from
    /// `downlink` on. Where there are not enough blocks nothing changes; after another error each further step gives that error again.
    pub fn place_static(
        &mut self,
        alloc: Global,
        plan: Plan,
        downlink: u32,
    ) -> Result<(), PlaceError>
        requires least { 4 ≤ plan.quota }
        requires most { plan.quota ≤ 4096 }
        requires few { plan.bearers ≤ 8 }
        requires new { find ue_cmp self.old.up.contexts plan.ue ≡ None }
        ensures placed { self.old.failure ≡ None → IsPlaced self.old.up plan downlink self.new.up result }
        ensures kept { self.old.failure ≡ None → self.new.failure ≡ placing_failure_in result }
        ensures failed { IfSome self.old.failure (λ error. (result ≡ Err (errors.Step error)) × (self.new ≡ self.old)) }
    {
        if let Some(error) = self.failure {
            return Err(PlaceError::Step(error));
        }
        match self.record.place_static(alloc, plan, downlink) {
            Ok(()) => Ok(()),
            Err(PlaceError::NoQuota) => Err(PlaceError::NoQuota),
            Err(PlaceError::Step(error)) => Err(PlaceError::Step(self.failed(error))),
        }
    }

    /// It counts as set up.
    pub fn mark_set_up(&mut self)
        ensures { self.new ≡ record self.old { up = cu_up_set_up self.old.up } }
    {
        self.record.mark_set_up();
    }

    /// The TEID that is given next, 0 where the last one was given.
    pub fn next_teid(&self) -> u32
        ensures { result ≡ self.now.up.next_teid }
    {
        self.record.next_teid()
    }

    /// Whether it has a context of this terminal.
    pub fn has_context(&self, ue: UeId) -> bool
        ensures { result ≡ cu_up_has_context self.now.up ue }
    {
        self.record.has_context(ue)
    }
    /// Whether a downlink packet of this bearer is unconfirmed.
    pub fn is_unconfirmed(&self, ue: UeId, bearer: BearerId) -> bool
        ensures { result ≡ is_unconfirmed self.now.up ue bearer }
    {
        self.record.is_unconfirmed(ue, bearer)
    }

    /// Whether nothing of this bearer is unconfirmed or waits, and no End Marker is awaited for it.
    pub fn rests(&self, ue: UeId, bearer: BearerId) -> bool
        ensures { result ≡ cu_up_rests self.now.up ue bearer }
    {
        self.record.rests(ue, bearer)
    }

    /// Whether octets decode as an item of this tunnel.
    pub fn decodes(&self, teid: u32, octets: &[u8]) -> bool
        ensures { (codec : Codec) → ReadsItems codec → result
            ≡ is_some (option_and_then (λ on. codec.read_item on.0 on.1 octets.now) (up_link self.now.up teid)) }
    {
        self.record.decodes(teid, octets)
    }
}
