//! ProtocolIE-Container.

ghost use Rattle.std.specs.Prelude.{ℕ, ◌≡◌, ◌+◌, ◌*◌, ◌<◌, IfOk};
ghost use Rattle.aper_defs.specs.Trees.{container};
ghost use Rattle.aper_defs.specs.Asking.{asks};
ghost use Rattle.aper_values.specs.types.Types.{rows_of};
ghost use Rattle.aper_values.specs.Views.{view};
ghost use Rattle.aper_frames.specs.Frames.{elements_left, element_after, path_of, next_of};
ghost use Rattle.aper_frames.specs.Weights.{container_weight, elements_weight, frames_weight};
ghost use Rattle.aper_stream.specs.declared.resuming.pending.Pending.TheVariants as pendings;
ghost use Rattle.aper_stream.specs.resuming.Turns.{IsLeft, Resumes, Keeps, Turns};
ghost use Rattle.aper_stream.specs.resuming.Weights.{weight_left, pending_weight, Lightens};

use crate::resuming::open::contents;
use crate::resuming::pending::{Pending, Stopped};
use aper_cursor::{Cursor, Unanswered};
use aper_fields::members::rows::row_type;
use aper_frames::heads::{ask_element_count, ask_element_head, rows_left};
use aper_frames::{ElementFrame, Elements, Frame, Stack};
use aper_values::make;
use aper_values::value::{Ie, Value};
use asn1_syntax::assignments::IeRow;
use gnb_types::items::Memory;
use std::alloc::Global;

/// Begins a container of information elements of a set with these rows.
pub fn begin_container<'m>(
    alloc: Global,
    cursor: &mut Cursor,
    frames: &Stack<'m>,
    rows: &'m [IeRow],
) -> Result<Pending<'m>, Unanswered>
    ensures asked { Resumes (λ of. asks (path_of frames.now) (container (rows_of of rows.now)) (next_of of frames.now)) cursor.old cursor.new frames.now result }
    ensures lighter { Lightens (λ w. 2 * (container_weight w 65535 rows.now + frames_weight w frames.now)) frames.now result }
{
    let left = ask_element_count(cursor, rows)?;
    let elements = Elements {
        rows,
        possible: rows,
        left,
        made: Vec::new(alloc),
    };
    Ok(next_element(elements))
}

/// Puts the value of an information element behind those before it. The next element comes then, or the container is made.
pub fn after_element<'m>(frame: ElementFrame<'m>, value: Value) -> Result<Pending<'m>, Memory>
    ensures asked { IfOk result (IsLeft (λ fs of. element_after of frame.entry.others frame.entry.head.id frame.entry.head.criticality (path_of fs) (next_of of fs) (view value))) }
    ensures lighter { IfOk result (λ next. (w : ℕ → ℕ) → pending_weight w next < 2 * elements_weight w frame.entry.others) }
{
    let ElementFrame { head, mut others } = frame;
    others.made.push(Ie {
        id: head.id,
        criticality: head.criticality,
        body: value,
    })?;
    Ok(next_element(others))
}

/// The next information element, or the container where none is left.
fn next_element<'m>(elements: Elements<'m>) -> Pending<'m>
    ensures asked { IsLeft (λ fs of. elements_left of elements.entry (path_of fs) (next_of of fs)) result }
    ensures lighter { (w : ℕ → ℕ) → pending_weight w result < 2 * elements_weight w elements.entry }
{
    if elements.left == 0 {
        return Pending::Made(make::elements(elements.made));
    }
    let mut others = elements;
    others.left -= 1;
    Pending::Head(others)
}

/// The head of an information element.
pub fn take_head<'m>(
    cursor: &mut Cursor,
    frames: &Stack<'m>,
    elements: Elements<'m>,
) -> Result<Pending<'m>, Stopped<'m>>
    ensures asked { Turns (pendings.Head elements.entry) cursor.old cursor.new frames.now frames.now result }
    ensures lighter { Lightens (λ w. weight_left w (pendings.Head elements.entry) frames.now) frames.now result }
{
    match ask_element_head(cursor, elements.rows, elements.possible, elements.left) {
        Err(reason) => Err(Stopped::Wrong(reason, Pending::Head(elements))),
        Ok(head) => {
            let mut others = elements;
            others.possible = rows_left(others.rows, others.possible, head.id);
            let known = row_type(head.id, others.rows);
            Ok(contents(Frame::Element(ElementFrame { head, others }), known))
        }
    }
}
