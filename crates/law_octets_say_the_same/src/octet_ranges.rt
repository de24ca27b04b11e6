//! A law of the states of runs of packets down. Each function does nothing: its contract is the law.

ghost use Rattle.law_octets_say_the_same.specs.octet_facts.Ranges.{AreRanged};
ghost use Rattle.run_defs.specs.Runs.{Reading};

/// Of terminals that are set up without messages, of packets that are offered down and aren't empty, of items that are got and
/// carried, and of questions: in each state that such a script comes to, whatever its length, what stands on tunnels is a packet,
/// or a frame with a packet, each packet of a size that links carry, with NR-U numbers, COUNTs and TEIDs that fit, and its octets
/// by the length of its terminal's numbers; and each unit keeps that length. `confirmed`: where items are confirmed too, delivery
/// statuses without loss stand on tunnels as well.
pub fn packets_down_are_in_range()
    ensures downs { (reading : Reading) → AreRanged ⊥ reading }
    ensures confirmed { (reading : Reading) → AreRanged (Unit {0}) reading }
{}
