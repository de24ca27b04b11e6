//! What a terminal is to its bearers.

ghost use Rattle.std.specs.Prelude.{◌≡◌};
ghost use Rattle.unit_defs.specs.Ue.{is_connected};

use gnb_types::plans::Plan;
use unit_defs::UeState;

/// What the packet rules read of a terminal.
#[derive(Clone, Copy)]
pub struct Terminal {
    pub plan: Plan,
    pub state: UeState,
    pub epoch: u32,
}

impl Terminal {
    pub fn is_connected(&self) -> bool
        ensures { result ≡ is_connected self.now.state }
    {
        match self.state {
            UeState::Connected => true,
            UeState::Idle | UeState::Accessing | UeState::Lost | UeState::Returning => false,
        }
    }
}
