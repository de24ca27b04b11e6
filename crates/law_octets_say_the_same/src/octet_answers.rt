//! Laws of what the units of a run answer over octets. Each function does nothing: its contract is the law.

ghost use Rattle.std.specs.Prelude.{◌≡◌, ℕ, ◌^◌, ◌<◌, Bool, false, List, [], Option, Some};
ghost use Rattle.std.specs.Ordering.{nat_cmp};
ghost use Rattle.gnb_types.specs.declared.names.BearerId.{BearerId};
ghost use Rattle.gnb_types.specs.declared.names.Dir.TheVariants.{Dl};
ghost use Rattle.gnb_types.specs.declared.names.Gnb.{Gnb};
ghost use Rattle.gnb_types.specs.declared.names.NodeId.TheVariants.{CuUp as up_id, Du as du_id, Ue};
ghost use Rattle.gnb_types.specs.declared.names.UeId.{UeId};
ghost use Rattle.gnb_types.specs.Orders.{bearer_cmp};
ghost use Rattle.unit_defs.specs.codec_defs.Reading.{ReadsItems, ReadsPdus};
ghost use Rattle.law_octets_say_the_same.specs.octet_runs.Again.{PlainState};
ghost use Rattle.law_octets_say_the_same.specs.octet_runs.Faithful.{ReadsAlike};
ghost use Rattle.link_defs.specs.Decoding.{IsSized};
ghost use Rattle.link_defs.specs.Layouts.{desired_buffer_size};
ghost use Rattle.nr_user_plane.specs.declared.frames.Frame.TheVariants.{Status};
ghost use Rattle.nr_user_plane.specs.Frames.{FitsFrame};
ghost use Rattle.pdcp_defs.specs.Counts.{near_count, number_of};
ghost use Rattle.run_defs.specs.Runs.{Reading};
ghost use Rattle.run_defs.specs.States.{carried_for, confirmed_for, entity, item_for, sn_of};
ghost use Rattle.run_defs.specs.Units.{du_of, ue_of, cu_up_of};
ghost use Rattle.run_defs.specs.Written.{Written, written_item, written_pdu};
ghost use Rattle.tables.specs.Tables.{find};
ghost use Rattle.transport_defs.specs.declared.Item.{Item};
ghost use Rattle.unit_defs.specs.CuUp.{context_of as up_context_of};
ghost use Rattle.unit_defs.specs.Du.{context_of as du_context_of, DuBearer, DuContext, DuTunnel};
ghost use Rattle.unit_defs.specs.Ue.{UeBearer, UeNode};
ghost use Rattle.unit_defs.specs.CuUpRecords.{f1u_uplink, n3, CuUpBearer, CuUpContext, CuUpTunnel};
ghost use Rattle.unit_defs.specs.Ways.{frame, fresh, Load, packet_pdu, Pdu, status};
ghost use Rattle.unit_defs.specs.octet_defs.Codec.{Codec};
ghost use Rattle.unit_defs.specs.octet_defs.Reading.{count_confirmed};
ghost use Rattle.unit_defs.specs.octet_defs.Writing.{on_option};

/// In a state of a run, what a CU-UP, a DU and a terminal that read by a lawful codec make of the octets of an item is what they
/// make of what it says, as it stands on links then: of a packet on N3, of a frame with a packet on a DU's tunnel, of a delivery
/// status without loss, at the COUNT that the CU-UP finds below its next one, of a packet that was confirmed on the radio, and of
/// a packet that the radio carried, at the COUNT that the terminal finds near RX_DELIV.
pub fn units_read_what_items_say()
    ensures packets { (codec : Codec) (reading : Reading) (s : PlainState) (g : Gnb) (n : ℕ)
        → ReadsItems codec → (teid : ℕ) (t : CuUpTunnel) (c : CuUpContext) (b : CuUpBearer)
        (p : List ℕ) (item : Item (Written (Load Pdu))) → teid < 2 ^ 32 → IsSized p
        → find nat_cmp (cu_up_of s.units g n).tunnels teid ≡ Some t → t.kind ≡ n3
        → up_context_of (cu_up_of s.units g n) t.ue ≡ Some c
        → find bearer_cmp c.bearers t.bearer ≡ Some b → c.sn ≡ sn_of s t.ue
        → item.content ≡ written_item (sn_of s t.ue) teid (fresh p)
        → ReadsAlike codec reading s (up_id g n) (item_for teid item) }
    ensures frames { (codec : Codec) (reading : Reading) (s : PlainState) (g : Gnb) (n : ℕ)
        → ReadsItems codec → (teid : ℕ) (t : DuTunnel) (c : DuContext) (b : DuBearer)
        (restart : Bool) (number count : ℕ) (p : List ℕ) (item : Item (Written (Load Pdu)))
        → teid < 2 ^ 32 → number < 2 ^ 24 → IsSized p
        → find nat_cmp (du_of s.units g n).tunnels teid ≡ Some t
        → du_context_of (du_of s.units g n) t.ue ≡ Some c
        → find bearer_cmp c.bearers t.bearer ≡ Some b → c.sn ≡ sn_of s t.ue
        → item.content ≡ written_item (sn_of s t.ue) teid (frame false restart number (Some (packet_pdu count p)))
        → ReadsAlike codec reading s (du_id g n) (item_for teid item) }
    ensures statuses { (codec : Codec) (reading : Reading) (s : PlainState) (g : Gnb) (n : ℕ)
        → ReadsItems codec → (teid : ℕ) (t : CuUpTunnel) (c : CuUpContext) (b : CuUpBearer)
        (delivered : Option ℕ) (item : Item (Written (Load Pdu))) → teid < 2 ^ 32
        → find nat_cmp (cu_up_of s.units g n).tunnels teid ≡ Some t → t.kind ≡ f1u_uplink
        → up_context_of (cu_up_of s.units g n) t.ue ≡ Some c
        → find bearer_cmp c.bearers t.bearer ≡ Some b → c.sn ≡ sn_of s t.ue
        → count_confirmed c.sn b (on_option (number_of (sn_of s t.ue)) delivered) ≡ delivered
        → FitsFrame (Status desired_buffer_size [] (on_option (number_of (sn_of s t.ue)) delivered))
        → item.content ≡ written_item (sn_of s t.ue) teid (status [] delivered)
        → ReadsAlike codec reading s (up_id g n) (item_for teid item) }
    ensures confirmed { (codec : Codec) (reading : Reading) (s : PlainState) (g : Gnb) (n : ℕ)
        → ReadsPdus codec → (ue : UeId) (bearer : BearerId) (c : DuContext) (b : DuBearer)
        (count : ℕ) (p : List ℕ) (item : Item (Written Pdu)) → IsSized p
        → du_context_of (du_of s.units g n) ue ≡ Some c
        → find bearer_cmp c.bearers bearer ≡ Some b → c.sn ≡ sn_of s ue
        → item.key ≡ entity ue bearer Dl
        → item.content ≡ written_pdu (sn_of s ue) (packet_pdu count p)
        → ReadsAlike codec reading s (du_id g n) (confirmed_for item) }
    ensures carried { (codec : Codec) (reading : Reading) (s : PlainState) (ue : UeId) (u : UeNode)
        → ue_of s.units ue ≡ Some u → ReadsPdus codec
        → (bearer : BearerId) (b : UeBearer) (count : ℕ) (p : List ℕ) (item : Item (Written Pdu))
        → IsSized p → find bearer_cmp u.bearers bearer ≡ Some b → u.plan.sn ≡ sn_of s ue
        → near_count u.plan.sn b.receiver.deliv (number_of u.plan.sn count) ≡ Some count
        → item.key ≡ entity ue bearer Dl
        → item.content ≡ written_pdu (sn_of s ue) (packet_pdu count p)
        → ReadsAlike codec reading s (Ue ue.0) (carried_for item) }
{}
