//! The way to the value that is being read.

ghost use Rattle.std.specs.Prelude.{◌≡◌, IfOk, OnOk, option_copied};
ghost use Rattle.aper_defs.specs.Fields.{Path};
ghost use Rattle.aper_frames.specs.Frames.{path_of, inside_of, named_inside, body_inside};
ghost use Rattle.aper_frames.specs.Paths.{path_view, step_put};

use crate::frame::Frame;
use crate::stack::Stack;
use gnb_types::items::Memory;
use std::alloc::Global;

/// One step of the way from a whole value to a value inside it.
#[derive(Clone, Copy, Debug, PartialEq, Eq)]
pub enum Step<'m> {
    /// A component, alternative or addition with this name.
    Component(&'m [u8]),
    /// A member of a SEQUENCE OF.
    Member(u64),
    /// An information element.
    Element(u16),
    /// The body of a Protocol-PDU.
    Outcome(u32),
}

impl<'m> Frame<'m> {
    /// The step to the value that is read.
    fn step(&self) -> Option<Step<'m>>
        ensures { (p : Path) → inside_of self.now p ≡ step_put result p }
    {
        match self {
            Frame::Component(frame) => Some(Step::Component(frame.name)),
            Frame::Addition(frame) => named(frame.name),
            Frame::Alternative(frame) => named(frame.name),
            Frame::Member(members) => Some(Step::Member(members.made.len() as u64)),
            Frame::Element(frame) => Some(Step::Element(frame.head.id)),
            Frame::Body(frame) => outcome(frame.outcome),
            Frame::Open => None,
        }
    }
}

/// The step to a component, where it has a name.
fn named<'m>(name: Option<&'m [u8]>) -> Option<Step<'m>>
    ensures { (p : Path) → named_inside (option_copied name.entry) p ≡ step_put result p }
{
    match name {
        None => None,
        Some(name) => Some(Step::Component(name)),
    }
}

/// The step to the body of a PDU, where its outcome is known.
fn outcome<'m>(outcome: u32) -> Option<Step<'m>>
    ensures { (p : Path) → body_inside outcome p ≡ step_put result p }
{
    if outcome < 3 {
        Some(Step::Outcome(outcome))
    } else {
        None
    }
}

/// Puts a step after others.
fn put_step<'m>(path: &mut Vec<Step<'m>>, step: Option<Step<'m>>) -> Result<(), Memory>
    ensures { OnOk result (path_view path.new.items ≡ step_put step.entry (path_view path.old.items)) }
{
    match step {
        None => Ok(()),
        Some(step) => {
            path.push(step)?;
            Ok(())
        }
    }
}

/// The way to the value that is read, from the whole value on.
pub fn path_of<'m>(alloc: Global, frames: &Stack<'m>) -> Result<Vec<Step<'m>>, Memory>
    ensures { IfOk result (λ path. path_view path.items ≡ path_of frames.now) }
{
    let mut path = Vec::new(alloc);
    for frame in frames.as_slice() {
        put_step(&mut path, frame.step())?;
    }
    Ok(path)
}
