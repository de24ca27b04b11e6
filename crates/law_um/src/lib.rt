//! Laws of the receiving entity of an unacknowledged bearer. Each function does nothing: its contract is the law.
#![tactic(auto)]

pub mod run;
pub mod text;

ghost use Rattle.std.specs.Prelude.{◌≡◌, ℕ, ◌+◌, ◌<◌, ◌≤◌, ◌++◌, List, ◌∷◌, Some, None};
ghost use Rattle.std.specs.Ordering.{nat_cmp};
ghost use Rattle.tables.specs.Tables.{put};
ghost use Rattle.um_defs.specs.Receivers.{UmReceiver, refuses, received, ticked};
ghost use Rattle.law_um.specs.Sound.{IsWithin, IsRun, HasNone, IsSound};
ghost use Rattle.law_um.specs.Histories.{Step, a_tick, state, does, TakenAgo};

/// Whatever came to an entity: what it stores lies between RX_DELIV and RX_NEXT, and its timer runs exactly while it awaits
/// something below RX_NEXT.
pub fn an_entity_stays_sound<X>()
    ensures { (ticks : ℕ) (steps : List (Step X)) → IsSound (state ticks steps) }
{}

/// The COUNTs that are handed up rise, from RX_DELIV before the step up to RX_DELIV after it: so none is handed up twice.
pub fn counts_rise<X>()
    ensures { (ticks : ℕ) (r : UmReceiver X) (step : Step X) → IsSound r
        → IsWithin r.receiver.deliv (does ticks r step).after.receiver.deliv (does ticks r step).packets }
{}

/// A packet that is taken is stored, and what is stored is handed up or stays stored, octet by octet.
pub fn nothing_is_lost<X>()
    ensures taken { (ticks : ℕ) (r : UmReceiver X) (count : ℕ) (x : X) → IsSound r → refuses r (Some count) ≡ None
        → put nat_cmp r.receiver.stored count x
        ≡ (received ticks r count x).packets ++ (received ticks r count x).after.receiver.stored }
    ensures ticked { (ticks : ℕ) (r : UmReceiver X) → IsSound r
        → r.receiver.stored ≡ (ticked ticks r).packets ++ (ticked ticks r).after.receiver.stored }
{}

/// A packet brings RX_DELIV past COUNTs that are handed up, and past no other.
pub fn a_packet_passes_no_gap<X>()
    ensures { (ticks : ℕ) (r : UmReceiver X) (count : ℕ) (x : X) → IsSound r → refuses r (Some count) ≡ None
        → IsRun r.receiver.deliv (received ticks r count x).after.receiver.deliv (received ticks r count x).packets }
{}

/// Where a tick brings RX_DELIV past a COUNT that is awaited and isn't stored, it is at least as many ticks as the timer has, this one
/// among them, since a packet with a greater COUNT was taken.
pub fn a_gap_is_awaited_for_all_ticks<X>()
    ensures { (ticks : ℕ) (steps : List (Step X)) (count : ℕ)
        → (state ticks steps).receiver.deliv ≤ count → HasNone count (state ticks steps).receiver.stored
        → count < (state ticks (a_tick ∷ steps)).receiver.deliv
        → (n greater : ℕ) × (count < greater) × TakenAgo ticks n greater steps × (ticks ≤ n + 1) }
{}
