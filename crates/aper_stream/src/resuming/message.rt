//! Protocol-PDU.

ghost use Rattle.std.specs.Prelude.{ℕ, ◌≡◌, ◌+◌, ◌*◌, ◌<◌};
ghost use Rattle.aper_defs.specs.Trees.{pdu};
ghost use Rattle.aper_defs.specs.Asking.{asks, ask_body};
ghost use Rattle.aper_defs.specs.Values as seen;
ghost use Rattle.aper_values.specs.types.Types.{procedures_of};
ghost use Rattle.aper_frames.specs.Frames.{path_of, next_of};
ghost use Rattle.aper_frames.specs.Weights.{message_weight, frames_weight};
ghost use Rattle.aper_stream.specs.resuming.Turns.{IsLeft, Resumes};
ghost use Rattle.aper_stream.specs.resuming.Weights.{weight_left, pending_weight, Lightens};

use crate::resuming::open::contents;
use crate::resuming::pending::Pending;
use aper_cursor::{Cursor, Unanswered};
use aper_fields::members::rows::message_type;
use aper_frames::heads::{MessageHead, ask_message_head};
use aper_frames::{BodyFrame, Frame, Stack};
use asn1_syntax::assignments::ProcedureRow;

/// Begins a PDU of these procedures. Its body comes next, in an open type.
pub fn begin_message<'m>(
    cursor: &mut Cursor,
    frames: &Stack<'m>,
    rows: &'m [ProcedureRow],
) -> Result<Pending<'m>, Unanswered>
    ensures asked { Resumes (λ of. asks (path_of frames.now) (pdu (procedures_of of rows.now)) (next_of of frames.now)) cursor.old cursor.new frames.now result }
    ensures lighter { Lightens (λ w. 2 * (message_weight w rows.now + frames_weight w frames.now)) frames.now result }
{
    let head = ask_message_head(cursor)?;
    match head {
        MessageHead::Past(outcome) => Ok(Pending::Unknown(Frame::Body(BodyFrame {
            outcome,
            code: 0,
            criticality: 0,
        }))),
        MessageHead::Known {
            outcome,
            code,
            criticality,
        } => {
            let body = BodyFrame {
                outcome,
                code,
                criticality,
            };
            Ok(begin_body(body, rows))
        }
    }
}

/// The body of a message of these procedures.
fn begin_body<'m>(body: BodyFrame, rows: &'m [ProcedureRow]) -> Pending<'m>
    requires { body.outcome < 3 }
    ensures asked { IsLeft (λ fs of. ask_body (path_of fs) (procedures_of of rows.now) body.outcome body.code
        (λ v. next_of of fs (seen.message body.outcome body.code body.criticality v))) result }
    ensures lighter { (w : ℕ → ℕ) → pending_weight w result < 2 * message_weight w rows.now }
{
    let known = message_type(body.outcome, body.code, rows);
    contents(Frame::Body(body), known)
}
