//! Laws of the run of an unacknowledged bearer, for every script. Each function does nothing: its contract is the law.

ghost use Rattle.std.specs.Prelude.{◌≡◌, ℕ, ◌-◌, ◌%◌, ◌<◌, ◌≤◌, ◌⊎◌, List, reverse, Some, None};
ghost use Rattle.std.specs.Ordering.{nat_cmp};
ghost use Rattle.gnb_types.specs.declared.names.SnBits.{SnBits};
ghost use Rattle.tables.specs.Tables.{find};
ghost use Rattle.pdcp.specs.Numbers.{space};
ghost use Rattle.pdcp_defs.specs.Counts.{near_count};
ghost use Rattle.um_defs.specs.declared.types.event.UmEvent.{UmEvent};
ghost use Rattle.um_defs.specs.declared.types.line.UmLine.{UmLine};
ghost use Rattle.um_defs.specs.um_run_defs.Run.{UmRun};
ghost use Rattle.um_defs.specs.um_run_defs.Script.{script_of};
ghost use Rattle.law_um.specs.Sound.{IsSound, HasNone};
ghost use Rattle.law_um.specs.run.Gaps.{Passes};
ghost use Rattle.law_um.specs.run.Reached.{GoesOn, IsReached, WasOffered, EachDelivered, Rises};
ghost use Rattle.law_um.specs.run.Scripts.{lines_of};
ghost use Rattle.law_um.specs.run.Taken.{Has, WasTaken, WasDelivered};

/// In every run the receiving entity is a sound one: COUNTs that it hands up rise, and none is handed up twice (`law_um`).
pub fn the_entity_is_sound()
    ensures { (sn : SnBits) (ticks : ℕ) (events : List UmEvent) (s : UmRun) → IsReached sn ticks events s → IsSound s.entity }
{}

/// In every run the COUNT that is found from the number of a message on the link is the one with which it was sent.
pub fn the_count_that_was_sent_is_found()
    ensures { (sn : SnBits) (ticks : ℕ) (events : List UmEvent) (s : UmRun) → IsReached sn ticks events s
        → (number : ℕ) (packet : List ℕ) → find nat_cmp s.flight number ≡ Some packet
        → near_count sn s.entity.receiver.deliv ((number - 1) % space sn) ≡ Some (number - 1) }
{}

/// In every run a packet that is delivered with a COUNT is the one that was offered as that of the COUNT.
pub fn delivered_packets_were_offered()
    ensures { (sn : SnBits) (ticks : ℕ) (events : List UmEvent) (event : UmEvent) (before : UmRun) (printed : List UmLine) (after : UmRun)
        → IsReached sn ticks events before → GoesOn sn ticks event before printed after
        → EachDelivered (WasOffered sn ticks events) printed }
{}

/// Where RX_DELIV passes a COUNT that is awaited and isn't stored, either the packet of that COUNT is given now, or the event is a tick and a
/// packet with a greater COUNT was taken at least as many ticks ago as the timer has, this tick among them.
pub fn a_gap_is_passed_after_all_ticks()
    ensures { (sn : SnBits) (ticks : ℕ) (events : List UmEvent) (event : UmEvent) (before : UmRun) (printed : List UmLine) (after : UmRun)
        → IsReached sn ticks events before → GoesOn sn ticks event before printed after
        → (count : ℕ) → before.entity.receiver.deliv ≤ count → HasNone count before.entity.receiver.stored
        → count < after.entity.receiver.deliv → Passes sn ticks event events count }
{}

/// In every run the COUNTs that an event delivers rise, from RX_DELIV before it up to RX_DELIV after it: so those of the whole run rise.
pub fn delivered_counts_rise()
    ensures { (sn : SnBits) (ticks : ℕ) (events : List UmEvent) (event : UmEvent) (before : UmRun) (printed : List UmLine) (after : UmRun)
        → IsReached sn ticks events before → GoesOn sn ticks event before printed after
        → Rises before.entity.receiver.deliv after.entity.receiver.deliv printed }
{}

/// In every run a packet that was taken of a message, and so was neither dropped nor held, was delivered or is stored.
pub fn what_is_taken_is_delivered_or_stored()
    ensures { (sn : SnBits) (ticks : ℕ) (events : List UmEvent) (s : UmRun) → IsReached sn ticks events s
        → (count : ℕ) (packet : List ℕ) → WasTaken sn ticks events count packet
        → Has count packet s.entity.receiver.stored ⊎ WasDelivered sn ticks events count packet }
{}

/// While a script goes on, its run is one that its events reach: what is said above of such runs holds after each of its events.
pub fn scripts_reach_their_runs()
    ensures { (sn : SnBits) (ticks : ℕ) (events : List UmEvent) → (script_of sn ticks events).ended ≡ None
        → IsReached sn ticks (reverse events) (script_of sn ticks events).now }
{}

/// While a script goes on, the COUNTs that its lines deliver rise, so that none is delivered twice.
pub fn delivered_counts_of_scripts_rise()
    ensures { (sn : SnBits) (ticks : ℕ) (events : List UmEvent) → (script_of sn ticks events).ended ≡ None
        → Rises 0 (script_of sn ticks events).now.entity.receiver.deliv (lines_of (script_of sn ticks events)) }
{}

/// While a script goes on, each packet that its lines deliver with a COUNT is the one that was offered as that of the COUNT.
pub fn delivered_packets_of_scripts_were_offered()
    ensures { (sn : SnBits) (ticks : ℕ) (events : List UmEvent) → (script_of sn ticks events).ended ≡ None
        → EachDelivered (WasOffered sn ticks (reverse events)) (lines_of (script_of sn ticks events)) }
{}
