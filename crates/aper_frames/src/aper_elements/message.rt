//! Protocol-PDU.

ghost use Rattle.std.specs.Prelude.{◌+◌, ◌<◌};
ghost use Rattle.aper_defs.specs.Trees.{pdu};
ghost use Rattle.aper_defs.specs.Asking.{asks, ask_body};
ghost use Rattle.aper_defs.specs.Values as seen;
ghost use Rattle.aper_values.specs.types.Types.{procedures_of};
ghost use Rattle.aper_frames.specs.Frames.{path_of, next_of};
ghost use Rattle.aper_frames.specs.Steps.{Steps};
ghost use Rattle.aper_frames.specs.Weights.{message_weight, frames_weight, Lighter};

use crate::heads::{MessageHead, ask_message_head};
use crate::{BodyFrame, Frame, Stack, Turn, ask_contents, ask_unknown};
use aper_cursor::{Cursor, Unanswered};
use aper_fields::members::rows::message_type;
use asn1_syntax::assignments::ProcedureRow;
use std::alloc::Global;

/// Begins a PDU of these procedures (ITU-T X.691, as a CHOICE of three SEQUENCEs; 3GPP TS 38.413, 9.4). Its body comes next, in an open
/// type. That of an outcome past the three, or of a code or outcome without a row, is kept as octets.
///
/// # Errors
/// `Wrong` where the outcome, the code, the criticality or the open type is wrong: the cursor is at the first wrong field, and the
/// frames lead to the value that it belongs to. `Memory` where none is left.
pub fn begin_message<'m>(
    alloc: Global,
    cursor: &mut Cursor,
    frames: &mut Stack<'m>,
    rows: &'m [ProcedureRow],
) -> Result<Turn, Unanswered>
    ensures asked { Steps (λ of. asks (path_of frames.old) (pdu (procedures_of of rows.now)) (next_of of frames.old)) cursor.old cursor.new frames.new result }
    ensures lighter { Lighter (λ w. message_weight w rows.now + frames_weight w frames.old) frames.new result }
{
    let head = ask_message_head(cursor)?;
    match head {
        MessageHead::Past(outcome) => {
            let frame = Frame::Body(BodyFrame {
                outcome,
                code: 0,
                criticality: 0,
            });
            ask_unknown(alloc, cursor, frames, frame)
        }
        MessageHead::Known {
            outcome,
            code,
            criticality,
        } => {
            let body = BodyFrame {
                outcome,
                code,
                criticality,
            };
            begin_body(alloc, cursor, frames, body, rows)
        }
    }
}

/// The body of a message of these procedures.
fn begin_body<'m>(
    alloc: Global,
    cursor: &mut Cursor,
    frames: &mut Stack<'m>,
    body: BodyFrame,
    rows: &'m [ProcedureRow],
) -> Result<Turn, Unanswered>
    requires { body.outcome < 3 }
    ensures asked { Steps (λ of. ask_body (path_of frames.old) (procedures_of of rows.now) body.outcome body.code
        (λ v. next_of of frames.old (seen.message body.outcome body.code body.criticality v))) cursor.old cursor.new frames.new result }
    ensures lighter { Lighter (λ w. message_weight w rows.now + frames_weight w frames.old) frames.new result }
{
    let known = message_type(body.outcome, body.code, rows);
    ask_contents(alloc, cursor, frames, Frame::Body(body), known)
}
