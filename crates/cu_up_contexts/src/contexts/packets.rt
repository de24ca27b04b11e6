//! Items of tunnels, and polls.

ghost use Rattle.std.specs.Prelude.{◌≡◌, drop, is_some};
ghost use Rattle.std.specs.Option.{option_and_then};
ghost use Rattle.std.specs.Ordering.{nat_cmp};
ghost use Rattle.gnb_types.specs.declared.inputs.Input.TheVariants as ins;
ghost use Rattle.tables.specs.Tables.{find};
ghost use Rattle.unit_defs.specs.CuUp.{poll};
ghost use Rattle.unit_defs.specs.codec_defs.Reading.{ReadsItems};
ghost use Rattle.unit_defs.specs.octet_defs.Codec.{Codec, octet_way};
ghost use Rattle.unit_defs.specs.octet_defs.Reading.{up_link};
ghost use Rattle.unit_defs.specs.octet_defs.Units.{cu_up_steps};
ghost use Rattle.unit_messages.specs.steps.Steps.{IsStep, step_after};
ghost use Rattle.cu_up_contexts.specs.contexts.Tables.{OctetUp, with_tables};
ghost use Rattle.cu_up_contexts.specs.contexts.Comings.{IsPlaceOf, HasReceived};

use crate::contexts::contexts::Contexts;
use crate::contexts::tunnels::close_shown;
use cu_up_items::items::Kind;
use cu_up_items::items::items::read_item;
use gnb_types::names::{BearerId, UeId};
use gnb_types::outputs::{Output, Outputs};
use gnb_types::reasons::{DropReason, RefuseReason};
use std::alloc::Global;
use unit_messages::steps::StepError;

/// Whose a tunnel is, and its kind.
#[derive(Clone, Copy)]
struct TunnelPlace {
    ue: UeId,
    bearer: BearerId,
    kind: Kind,
}

/// What was put out after so many outputs.
fn shown_after(out: &[Output], before: usize) -> &[Output]
    ensures { result.now ≡ drop before out.now }
{
    if before <= out.len() {
        &out[before..]
    } else {
        &[]
    }
}

impl Contexts {
    /// Whose an open tunnel is, and its kind.
    fn place_of(&self, teid: u32) -> Option<TunnelPlace>
        ensures { IsPlaceOf (find nat_cmp self.now.tunnels teid) result }
    {
        let tunnel = self.tunnels.get(&teid)?;
        Some(TunnelPlace {
            ue: tunnel.ue,
            bearer: tunnel.bearer,
            kind: tunnel.kind,
        })
    }

    /// Octets of this tunnel come to its bearer. Says whether an item was taken.
    fn come(
        &mut self,
        alloc: Global,
        place: TunnelPlace,
        teid: u32,
        octets: &[u8],
        out: &mut Outputs,
    ) -> Result<bool, StepError>
        ensures { (codec : Codec) → ReadsItems codec
            → HasReceived codec place teid octets.now out.old out.new self.old self.new result }
    {
        let Some(context) = self.contexts.get_mut(&place.ue) else {
            out.push(Output::Drop(DropReason::NoContext))?;
            return Ok(false);
        };
        context.come(alloc, place.ue, place.bearer, place.kind, teid, octets, out)
    }

    /// An item of a tunnel: dropped, held, or taken; then the context ends where it was released and nothing comes any more.
    pub fn take(
        &mut self,
        alloc: Global,
        teid: u32,
        octets: &[u8],
        out: &mut Outputs,
    ) -> Result<(), StepError>
        ensures { (codec : Codec) (r : OctetUp) → ReadsItems codec → IsStep
            (step_after out.old (cu_up_steps codec (with_tables r self.old) (ins.Packet teid octets.now)))
            out.new (with_tables r self.new) result }
    {
        let before = out.len();
        let Some(place) = self.place_of(teid) else {
            out.push(Output::Drop(DropReason::NoTunnel))?;
            return Ok(());
        };
        let is_taken = self.come(alloc, place, teid, octets, out)?;
        if !is_taken {
            return Ok(());
        }
        close_shown(&mut self.tunnels, shown_after(out.as_slice(), before));
        self.end_where_over(alloc, place.ue, out)
    }

    /// Whether octets decode as an item of this tunnel.
    pub fn decodes(&self, teid: u32, octets: &[u8]) -> bool
        ensures { (codec : Codec) (r : OctetUp) → ReadsItems codec → result
            ≡ is_some (option_and_then (λ on. codec.read_item on.0 on.1 octets.now) (up_link (with_tables r self.now) teid)) }
    {
        let Some(place) = self.place_of(teid) else {
            return false;
        };
        match self.contexts.get(&place.ue) {
            Some(context) => read_item(place.kind, context.sn(), octets).is_some(),
            None => false,
        }
    }

    /// A poll: refused where nothing is unconfirmed, and where no downlink is served.
    pub fn poll(
        &mut self,
        alloc: Global,
        ue: UeId,
        bearer: BearerId,
        out: &mut Outputs,
    ) -> Result<(), StepError>
        ensures { (codec : Codec) (r : OctetUp) → IsStep
            (step_after out.old (poll (octet_way codec) ue bearer (with_tables r self.old)))
            out.new (with_tables r self.new) result }
    {
        let Some(context) = self.contexts.get_mut(&ue) else {
            out.push(Output::No(RefuseReason::Empty))?;
            return Ok(());
        };
        context.poll(alloc, ue, bearer, out)
    }
}
