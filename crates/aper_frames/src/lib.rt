//! Values of aligned PER inside which another one is being read, and what they still ask (ITU-T X.691).
#![tactic(auto)]

pub mod aper_elements;
mod flags;
mod frame;
pub mod heads;
mod inside;
mod parts;
mod path;
pub mod simple;
mod stack;

pub use flags::Flags;
pub use frame::{
    AdditionFrame, Additions, AlternativeFrame, BodyFrame, ComponentFrame, Components,
    ElementFrame, Elements, Frame, Members, Turn,
};
pub use inside::{ask_contents, ask_inside, ask_unknown};
pub use parts::Addition;
pub use path::{Step, path_of};
pub use stack::Stack;
