//! A row, and where it acts.

ghost use Rattle.std.specs.Prelude.{◌≡◌, [], ◌∷◌, map, Some, None, IfOk};
ghost use Rattle.unit_defs.specs.CuCpRecords.{stays, keeps, gives_up, refuses, ignores};
ghost use Rattle.cu_cp_records.specs.control_actions.Rows.{row_as, action_as, RowGives};

use crate::control_actions::actions::{Action, Actions};
use crate::control_actions::lists::beside;
use crate::control_contexts::{Context, Terminal};
use gnb_types::items::{Items, Memory};
use gnb_types::names::{Gnb, NodeId, UeId};
use gnb_types::reasons::{DropReason, RefuseReason};
use std::alloc::Global;
use std::marker::Model;
use unit_messages::steps::StepError;

/// Who acts, and for which terminal; the memory that a row takes, and the codec that spells its messages. Contracts see the first two.
#[derive(Drop)]
pub struct Scope<'a, C> {
    pub alloc: Global,
    pub codec: &'a C,
    pub gnb: Gnb,
    pub ue: UeId,
    /// The units that are set up.
    pub units: &'a [NodeId],
}

impl<'a, C> Model for Scope<'a, C> {
    ghost use Rattle.unit_defs.specs.CuCpRows.{CuCpScope};

    ghost Value = { CuCpScope };

    ghost view = { λ a. record { gnb = a.gnb; ue = a.ue; units = a.units.now } };
}

/// What a row says, and what is kept of the terminal then.
#[derive(Drop)]
pub struct Row {
    pub actions: Actions,
    pub after: Terminal,
}

impl Row {
    /// It keeps the terminal as it is.
    pub fn stays(alloc: Global, terminal: &Terminal, actions: Actions) -> Result<Row, Memory>
        ensures { IfOk result (λ r. row_as r ≡ stays terminal.now (map action_as actions)) }
    {
        let (actions, after) = beside(alloc, terminal, actions)?;
        Ok(Row { actions, after })
    }

    /// It keeps a context.
    pub fn keeps(terminal: &Terminal, actions: Actions, context: Context) -> Row
        ensures { row_as result ≡ keeps terminal.now (map action_as actions) context }
    {
        Row {
            actions,
            after: Terminal {
                context: Some(context),
                taken: terminal.taken,
            },
        }
    }

    /// It gives the context up.
    pub fn gives_up(terminal: &Terminal, actions: Actions) -> Row
        ensures { row_as result ≡ gives_up terminal.now (map action_as actions) }
    {
        Row {
            actions,
            after: Terminal {
                context: None,
                taken: terminal.taken,
            },
        }
    }

    /// It keeps the terminal as it is, and says one thing.
    pub fn only_says<C>(
        at: &Scope<'_, C>,
        terminal: &Terminal,
        say: Action,
    ) -> Result<Row, StepError>
        ensures { RowGives (stays terminal.now (action_as say ∷ [])) result }
    {
        let actions = Items::one(at.alloc, say)?;
        let row = Row::stays(at.alloc, terminal, actions)?;
        Ok(row)
    }

    /// It keeps the terminal as it is, and refuses an order.
    pub fn refuses<C>(
        at: &Scope<'_, C>,
        terminal: &Terminal,
        reason: RefuseReason,
    ) -> Result<Row, StepError>
        ensures { RowGives (stays terminal.now (refuses reason ∷ [])) result }
    {
        Row::only_says(at, terminal, Action::Refuse(reason))
    }

    /// It keeps the terminal as it is, and ignores its input.
    pub fn ignores<C>(
        at: &Scope<'_, C>,
        terminal: &Terminal,
        reason: DropReason,
    ) -> Result<Row, StepError>
        ensures { RowGives (stays terminal.now (ignores reason ∷ [])) result }
    {
        Row::only_says(at, terminal, Action::Ignore(reason))
    }
}
