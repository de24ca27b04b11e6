//! Laws of the book of a state: for whom its TEIDs may be named. Each function does nothing: its contract is the law.

ghost use Rattle.proof_run_steps.specs.steps.Reached.{reached};
ghost use Rattle.law_tunnels_are_owned.specs.tunnel_book.Book.{book_of, HasItsOwn, Keeps};
ghost use Rattle.message_types.specs.declared.rrc.Token.{Token};
ghost use Rattle.run_defs.specs.Runs.{plain_world, Reading};
ghost use Rattle.run_defs.specs.States.{new_state, State};
ghost use Rattle.run_defs.specs.Written.{Written};
ghost use Rattle.scenario_text.specs.declared.event.Event.{Event};
ghost use Rattle.std.specs.Prelude.{List, Some, ◌≡◌};
ghost use Rattle.unit_defs.specs.Ways.{Load, Message, Pdu};

/// In every run, from every state: for whom a TEID of a CU-UP or a DU may be named in a state, it may be named in each later
/// one; so a message that names tunnels as the book of the state in which it was put has it, names them so for good.
pub fn names_stay()
    ensures { (reading : Reading) (events : List Event)
        (s t : State (Message Token) Token (Written (Load Pdu)) (Written Pdu))
        → reached (plain_world reading) events s ≡ Some t → Keeps (book_of s.units) (book_of t.units) }
{}

/// In every run the book of each state has the tunnels of each CU-UP and DU that its own contexts name, as their terminal's,
/// bearer's and kind's; and 0, which is no TEID, may be named for any.
pub fn own_tunnels_are_in_the_book()
    ensures { (reading : Reading) (events : List Event)
        (t : State (Message Token) Token (Written (Load Pdu)) (Written Pdu))
        → reached (plain_world reading) events new_state ≡ Some t → HasItsOwn t.units }
{}
