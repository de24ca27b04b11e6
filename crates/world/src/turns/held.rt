//! What is printed in a turn of an item that stays where it is.

ghost use Rattle.std.specs.Prelude.{◌≡◌, ◌++◌, OnOk};
ghost use Rattle.world.specs.turns.Turns.{is_made, quiet_lines};

use gnb_types::items::Memory;
use run_links::lines::Lines;
use scenario_text::line::{Link, OutLine};
use world_steps::asked::Moved;

/// Prints that the item of this link is held. That it is refused isn't printed.
pub fn show_held(moved: Moved, link: Link, lines: &mut Lines) -> Result<(), Memory>
    ensures { OnOk result (lines.new ≡ lines.old ++ quiet_lines link moved) }
{
    match moved {
        Moved::Holds(reason) => lines.push(OutLine::Held { link, reason }),
        Moved::Done | Moved::Refuses(_) => Ok(()),
    }
}

/// Whether the step was made.
pub fn is_made(moved: Moved) -> bool
    ensures { result ≡ is_made moved }
{
    matches!(moved, Moved::Done)
}
