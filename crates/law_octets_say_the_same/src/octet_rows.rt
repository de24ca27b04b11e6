//! Laws of units over octets, beside units that are told what is said. Each function does nothing: its contract is the law.

ghost use Rattle.std.specs.Prelude.{◌≡◌, ℕ, ◌^◌, ◌<◌, Bool, false, List, Option, Some};
ghost use Rattle.std.specs.Ordering.{nat_cmp};
ghost use Rattle.gnb_types.specs.declared.inputs.Input.TheVariants as ins;
ghost use Rattle.gnb_types.specs.declared.names.BearerId.{BearerId};
ghost use Rattle.gnb_types.specs.declared.names.Dir.TheVariants.{Dl};
ghost use Rattle.gnb_types.specs.declared.names.UeId.{UeId};
ghost use Rattle.gnb_types.specs.Orders.{bearer_cmp};
ghost use Rattle.unit_defs.specs.codec_defs.Reading.{ReadsItems, ReadsPdus};
ghost use Rattle.law_octets_say_the_same.specs.octet_rows.Octets.{answer_again, du_again, up_again};
ghost use Rattle.link_defs.specs.Decoding.{IsSized};
ghost use Rattle.link_defs.specs.Layouts.{desired_buffer_size, delivery_status, forwarded_fresh};
ghost use Rattle.message_types.specs.declared.rrc.Token.{Token};
ghost use Rattle.nr_user_plane.specs.declared.frames.Frame.TheVariants.{Status};
ghost use Rattle.nr_user_plane.specs.Frames.{FitsFrame};
ghost use Rattle.pdcp_defs.specs.Counts.{near_count, number_of};
ghost use Rattle.run_defs.specs.Runs.{content_of, plain_way};
ghost use Rattle.run_defs.specs.States.{Lengths};
ghost use Rattle.tables.specs.Tables.{find};
ghost use Rattle.unit_defs.specs.CuUp.{context_of as up_context_of, cu_up_acts};
ghost use Rattle.unit_defs.specs.Du.{context_of as du_context_of, Du, DuBearer, DuContext, DuTunnel, du_acts};
ghost use Rattle.unit_defs.specs.Ue.{UeBearer, UeNode, ue_acts};
ghost use Rattle.unit_defs.specs.CuUpRecords.{CuUp, f1u_uplink, n3, CuUpBearer, CuUpContext, CuUpTunnel};
ghost use Rattle.unit_defs.specs.Ways.{confirm_input, frame, frame_item, fresh_item, Message, packet_input, packet_pdu, radio_input, status_item};
ghost use Rattle.unit_defs.specs.octet_defs.Codec.{Codec};
ghost use Rattle.unit_defs.specs.octet_defs.Reading.{count_confirmed};
ghost use Rattle.unit_defs.specs.octet_defs.Units.{cu_up_steps, du_steps, ue_steps};
ghost use Rattle.unit_defs.specs.octet_defs.Writing.{load_octets, on_option, pdu_octets, written_load};

/// A CU-UP that reads by a lawful codec makes of the octets of a packet on N3, and of those of a delivery status on an uplink
/// tunnel, what it makes of what they say: the same outputs, in octets, and the same record. The COUNT that a status confirms is
/// the one that the CU-UP finds from its number.
pub fn a_cu_up_reads_what_is_said()
    ensures packets { (codec : Codec) → ReadsItems codec → (spelled : Message Token → List ℕ)
        → (sn : Lengths) (r : CuUp (Message Token) Token) (teid : ℕ) (t : CuUpTunnel) (c : CuUpContext)
        (b : CuUpBearer) (p : List ℕ) → teid < 2 ^ 32 → IsSized p → find nat_cmp r.tunnels teid ≡ Some t
        → t.kind ≡ n3 → up_context_of r t.ue ≡ Some c → find bearer_cmp c.bearers t.bearer ≡ Some b
        → c.sn ≡ sn t.ue
        → cu_up_steps codec (up_again r) (ins.Packet teid (forwarded_fresh teid p))
        ≡ answer_again spelled sn up_again (cu_up_acts plain_way r (packet_input teid (fresh_item p))) }
    ensures statuses { (codec : Codec) → ReadsItems codec → (spelled : Message Token → List ℕ)
        → (sn : Lengths) (r : CuUp (Message Token) Token) (teid : ℕ) (t : CuUpTunnel) (c : CuUpContext)
        (b : CuUpBearer) (lost : List (ℕ × ℕ)) (delivered : Option ℕ) → teid < 2 ^ 32
        → find nat_cmp r.tunnels teid ≡ Some t → t.kind ≡ f1u_uplink → up_context_of r t.ue ≡ Some c
        → find bearer_cmp c.bearers t.bearer ≡ Some b → c.sn ≡ sn t.ue
        → count_confirmed c.sn b (on_option (number_of (sn t.ue)) delivered) ≡ delivered
        → FitsFrame (Status desired_buffer_size lost (on_option (number_of (sn t.ue)) delivered))
        → cu_up_steps codec (up_again r) (ins.Packet teid (delivery_status teid lost (on_option (number_of (sn t.ue)) delivered)))
        ≡ answer_again spelled sn up_again (cu_up_acts plain_way r (packet_input teid (status_item lost delivered))) }
{}

/// A DU that reads by a lawful codec makes of the octets of a frame on its tunnel, and of those of a PDU that was confirmed on
/// the radio, what it makes of what they say.
pub fn a_du_reads_what_is_said()
    ensures frames { (codec : Codec) → ReadsItems codec → (spelled : Message Token → List ℕ)
        → (sn : Lengths) (r : Du (Message Token) Token) (teid : ℕ) (t : DuTunnel) (c : DuContext)
        (b : DuBearer) (restart : Bool) (number count : ℕ) (p : List ℕ) → teid < 2 ^ 32
        → number < 2 ^ 24 → IsSized p → find nat_cmp r.tunnels teid ≡ Some t
        → du_context_of r t.ue ≡ Some c → find bearer_cmp c.bearers t.bearer ≡ Some b → c.sn ≡ sn t.ue
        → du_steps codec (du_again r) (ins.Packet teid (load_octets teid (written_load (sn t.ue) (frame false restart number (Some (packet_pdu count p))))))
        ≡ answer_again spelled sn du_again (du_acts plain_way r (packet_input teid (frame_item false restart number (Some (packet_pdu count p))))) }
    ensures confirmations { (codec : Codec) → ReadsPdus codec → (spelled : Message Token → List ℕ)
        → (sn : Lengths) (r : Du (Message Token) Token) (ue : UeId) (bearer : BearerId)
        (c : DuContext) (b : DuBearer) (count : ℕ) (p : List ℕ) → IsSized p
        → du_context_of r ue ≡ Some c → find bearer_cmp c.bearers bearer ≡ Some b → c.sn ≡ sn ue
        → du_steps codec (du_again r) (ins.Confirm ue bearer Dl (pdu_octets (sn ue) (packet_pdu count p)))
        ≡ answer_again spelled sn du_again (du_acts plain_way r (confirm_input ue bearer Dl (packet_pdu count p) (content_of (packet_pdu count p)))) }
{}

/// A terminal that reads by a lawful codec makes of the octets of a packet what it makes of the packet at its COUNT, where the
/// COUNT is the one that it finds near RX_DELIV from the number.
pub fn a_terminal_reads_what_is_said()
    ensures { (codec : Codec) → ReadsPdus codec → (spelled : Message Token → List ℕ)
        → (sn : Lengths) (u : UeNode) (bearer : BearerId) (b : UeBearer) (count : ℕ) (p : List ℕ) (ue : UeId)
        → IsSized p → find bearer_cmp u.bearers bearer ≡ Some b → u.plan.sn ≡ sn ue
        → near_count u.plan.sn b.receiver.deliv (number_of u.plan.sn count) ≡ Some count
        → ue_steps codec u (ins.Radio ue bearer Dl (pdu_octets (sn ue) (packet_pdu count p)))
        ≡ answer_again spelled sn (λ x. x) (ue_acts plain_way u (radio_input ue bearer Dl (packet_pdu count p) (content_of (packet_pdu count p)))) }
{}
