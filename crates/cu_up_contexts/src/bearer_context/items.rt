//! What comes to a bearer of a context: an item of a tunnel, or a poll.

ghost use Rattle.std.specs.Prelude.{◌≡◌, not, ◌||◌, ◌∷◌, [], ◌++◌, OnOk, IfErr};
ghost use Rattle.gnb_types.specs.declared.outputs.Output.TheVariants as outs;
ghost use Rattle.gnb_types.specs.Orders.{bearer_cmp};
ghost use Rattle.tables.specs.Tables.{find};
ghost use Rattle.unit_defs.specs.CuUpBearers.{has_downlink};
ghost use Rattle.cu_up_bearer.specs.bearers.Bearers.{kept};
ghost use Rattle.unit_defs.specs.codec_defs.Reading.{ReadsItems};
ghost use Rattle.unit_defs.specs.octet_defs.Codec.{Codec};
ghost use Rattle.unit_messages.specs.steps.Steps.{IsStep, step_after};
ghost use Rattle.unit_messages.specs.declared.steps.StepError.TheVariants as errors;
ghost use Rattle.cu_up_contexts.specs.bearer_context.Items.{came_in, polled, IsReceivedIn};

use crate::bearer_context::context::{Context, index_of};
use crate::bearer_context::orders::forget_if;
use cu_up_bearer::bearers::Bearer;
use cu_up_bearer::tunnels::{Flags, Scope};
use cu_up_items::items::Kind;
use cu_up_items::items::coming::come;
use gnb_types::names::{BearerId, UeId};
use gnb_types::outputs::{Output, Outputs};
use gnb_types::reasons::{DropReason, RefuseReason};
use std::alloc::Global;
use unit_messages::steps::StepError;

/// A poll is refused.
fn refuse(reason: RefuseReason, out: &mut Outputs) -> Result<(), StepError>
    ensures ok { OnOk result (out.new ≡ out.old ++ outs.No reason ∷ []) }
    ensures err { IfErr result (λ e. e ≡ errors.Memory) }
{
    out.push(Output::No(reason))?;
    Ok(())
}

/// Whether nothing goes to a DU: there is no downlink, or the context is frozen.
fn is_unserved(bearer: &Bearer, flags: Flags) -> bool
    ensures { result ≡ (not (has_downlink (kept bearer.now).downlink) || flags.frozen) }
{
    match bearer.down.frames.downlink {
        Some(_) => flags.frozen,
        None => true,
    }
}

impl Context {
    /// Octets of a tunnel of this bearer: dropped if they say nothing there or the bearer isn't there, held, or taken. Says whether an
    /// item was taken.
    pub fn come(
        &mut self,
        alloc: Global,
        ue: UeId,
        bearer: BearerId,
        kind: Kind,
        teid: u32,
        octets: &[u8],
        out: &mut Outputs,
    ) -> Result<bool, StepError>
        ensures { (codec : Codec) → ReadsItems codec → IsReceivedIn
            (came_in codec ue self.old bearer kind teid octets.now (find bearer_cmp self.old.bearers bearer))
            bearer out.old out.new self.old self.new result }
    {
        let Some(index) = index_of(bearer, self.bearers.len()) else {
            out.push(Output::Drop(DropReason::NoContext))?;
            return Ok(false);
        };
        let at = Scope {
            ue,
            bearer,
            sn: self.sn,
            quota: self.quota,
            flags: self.flags,
        };
        let found = &mut self.bearers[index];
        let came = come(found, alloc, &at, kind, teid, octets, out);
        forget_if(came.is_err(), alloc, &mut self.bearers);
        came
    }

    /// A poll of this bearer: refused where nothing is unconfirmed, and where no downlink is served.
    pub fn poll(
        &mut self,
        alloc: Global,
        ue: UeId,
        bearer: BearerId,
        out: &mut Outputs,
    ) -> Result<(), StepError>
        ensures { (codec : Codec) → IsStep
            (step_after out.old (polled codec ue self.old bearer (find bearer_cmp self.old.bearers bearer)))
            out.new self.new result }
    {
        let Some(index) = index_of(bearer, self.bearers.len()) else {
            return refuse(RefuseReason::Empty, out);
        };
        let at = Scope {
            ue,
            bearer,
            sn: self.sn,
            quota: self.quota,
            flags: self.flags,
        };
        let found = &mut self.bearers[index];
        let Some(_) = found.down.sending.unconfirmed(0) else {
            return refuse(RefuseReason::Empty, out);
        };
        if is_unserved(found, at.flags) {
            return refuse(RefuseReason::NoRadio, out);
        }
        found.down.frames.poll(alloc, &at, out)
    }
}
