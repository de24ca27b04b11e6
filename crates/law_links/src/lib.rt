//! Laws of what stands on the links. Each function does nothing: its contract is the law.
#![tactic(auto)]

ghost use Rattle.std.specs.Prelude.{◌≡◌, ℕ, ◌%◌, ◌^◌, ◌<◌, ◌≤◌, Bool, false, List, length, Option};
ghost use Rattle.gnb_types.specs.declared.names.SnBits.{SnBits};
ghost use Rattle.gtpu.specs.declared.GtpuError.{GtpuError};
ghost use Rattle.gtpu.specs.Refusals.{IsRefusal};
ghost use Rattle.nr_user_plane.specs.declared.frames.Frame.TheVariants.{Status};
ghost use Rattle.nr_user_plane.specs.Frames.{FitsFrame};
ghost use Rattle.pdcp.specs.declared.pdu.TheConstants.{PACKET_LIMIT};
ghost use Rattle.pdcp.specs.Numbers.{space};
ghost use Rattle.pdcp.specs.Pdus.{data_pdu, status_report, bitmap, radio_data, report_octets};
ghost use Rattle.link_defs.specs.Links.{n3_downlink, f1u_downlink_data};
ghost use Rattle.link_defs.specs.Layouts.{f1u_downlink_packet, f1u_downlink_report, f1u_downlink_poll, f1u_uplink_data, f1u_uplink_report, desired_buffer_size, delivery_status, forwarded_numbered, forwarded_late, forwarded_fresh, end_marker};
ghost use Rattle.link_defs.specs.Decoding as on;

/// What is written on N3 downlink decodes there, to what was put.
pub fn n3_downlink_decodes()
    ensures { (sn : SnBits) (teid : ℕ) (packet : List ℕ) → teid < 2 ^ 32 → on.IsSized packet
        → on.DecodesOn on.n3 sn (on.fresh packet) (n3_downlink teid packet) }
{}

/// What is written on F1-U downlink decodes there.
pub fn f1u_downlink_decodes()
    ensures without_restart { (sn : SnBits) (teid number count : ℕ) (packet : List ℕ)
        → teid < 2 ^ 32 → number < 2 ^ 24 → on.IsSized packet
        → on.DecodesOn on.f1u_downlink sn (on.framed false number (data_pdu (count % space sn) packet) (radio_data sn count packet))
        (f1u_downlink_data sn teid number count packet) }
    ensures packet { (restart : Bool) (sn : SnBits) (teid number count : ℕ) (packet : List ℕ)
        → teid < 2 ^ 32 → number < 2 ^ 24 → on.IsSized packet
        → on.DecodesOn on.f1u_downlink sn (on.framed restart number (data_pdu (count % space sn) packet) (radio_data sn count packet))
        (f1u_downlink_packet restart sn teid number count packet) }
    ensures report { (sn : SnBits) (teid number fmc : ℕ) (bits : List Bool) → teid < 2 ^ 32
        → number < 2 ^ 24 → fmc < 2 ^ 32
        → length (report_octets fmc bits) ≤ PACKET_LIMIT
        → on.DecodesOn on.f1u_downlink sn (on.framed false number (status_report fmc (bitmap bits)) (report_octets fmc bits))
        (f1u_downlink_report teid number fmc bits) }
    ensures poll { (sn : SnBits) (teid number : ℕ) → teid < 2 ^ 32 → number < 2 ^ 24
        → on.DecodesOn on.f1u_downlink sn (on.poll false number) (f1u_downlink_poll teid number) }
{}

/// What is written on F1-U uplink decodes there.
pub fn f1u_uplink_decodes()
    ensures packet { (sn : SnBits) (teid count : ℕ) (packet : List ℕ) → teid < 2 ^ 32
        → on.IsSized packet
        → on.DecodesOn on.f1u_uplink sn (on.pdu (data_pdu (count % space sn) packet) (radio_data sn count packet)) (f1u_uplink_data sn teid count packet) }
    ensures report { (sn : SnBits) (teid fmc : ℕ) (bits : List Bool) → teid < 2 ^ 32 → fmc < 2 ^ 32
        → length (report_octets fmc bits) ≤ PACKET_LIMIT
        → on.DecodesOn on.f1u_uplink sn (on.pdu (status_report fmc (bitmap bits)) (report_octets fmc bits)) (f1u_uplink_report teid fmc bits) }
    ensures status { (sn : SnBits) (teid : ℕ) (lost : List (ℕ × ℕ)) (delivered : Option ℕ)
        → teid < 2 ^ 32
        → FitsFrame (Status desired_buffer_size lost delivered)
        → on.DecodesOn on.f1u_uplink sn (on.status desired_buffer_size lost delivered) (delivery_status teid lost delivered) }
{}

/// What is written on forwarding tunnels decodes there.
pub fn forwarding_decodes()
    ensures numbered { (sn : SnBits) (teid count : ℕ) (packet : List ℕ) → teid < 2 ^ 32
        → on.IsSized packet
        → on.DecodesOn on.forwarding_down sn (on.numbered (count % space sn) packet) (forwarded_numbered sn teid count packet) }
    ensures fresh { (sn : SnBits) (teid : ℕ) (packet : List ℕ) → teid < 2 ^ 32 → on.IsSized packet
        → on.DecodesOn on.forwarding_down sn (on.fresh packet) (forwarded_fresh teid packet) }
    ensures late { (sn : SnBits) (teid count : ℕ) (packet : List ℕ) → teid < 2 ^ 32
        → on.IsSized packet
        → on.DecodesOn on.forwarding_up sn (on.numbered (count % space sn) packet) (forwarded_late sn teid count packet) }
{}

/// An End Marker decodes on each tunnel that ends at a CU-UP.
pub fn end_marker_decodes()
    ensures n3 { (sn : SnBits) (teid : ℕ) → teid < 2 ^ 32
        → on.DecodesOn on.n3 sn on.end_of_tunnel (end_marker teid) }
    ensures f1u_uplink { (sn : SnBits) (teid : ℕ) → teid < 2 ^ 32
        → on.DecodesOn on.f1u_uplink sn on.end_of_tunnel (end_marker teid) }
    ensures forwarding_down { (sn : SnBits) (teid : ℕ) → teid < 2 ^ 32
        → on.DecodesOn on.forwarding_down sn on.end_of_tunnel (end_marker teid) }
    ensures forwarding_up { (sn : SnBits) (teid : ℕ) → teid < 2 ^ 32
        → on.DecodesOn on.forwarding_up sn on.end_of_tunnel (end_marker teid) }
{}

/// Octets say one thing on a link, and none where they are no packet.
pub fn octets_say_one_thing()
    ensures one { (link : on.Link) (sn : SnBits) (a b : on.Item) (octets : List ℕ)
        → on.DecodesOn link sn a octets → on.DecodesOn link sn b octets → a ≡ b }
    ensures refused { (link : on.Link) (sn : SnBits) (item : on.Item) (octets : List ℕ) (reason : GtpuError) → IsRefusal reason octets
        → on.DecodesOn link sn item octets → ⊥ }
{}
