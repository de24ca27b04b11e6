//! The names of the profile's types.

ghost use Rattle.std.specs.Prelude.{◌≡◌, map};
ghost use Rattle.profile.specs.profile_module.inside.Same.{own_names};

/// The names of the profile's types, in order octet by octet.
const TYPE_NAMES: [&[u8]; 53] = [
    b"Bearer",
    b"BearerContextModificationFailure",
    b"BearerContextModificationRequest",
    b"BearerContextModificationResponse",
    b"BearerContextReleaseCommand",
    b"BearerContextReleaseComplete",
    b"BearerContextSetupFailure",
    b"BearerContextSetupRequest",
    b"BearerContextSetupResponse",
    b"Cause",
    b"Command",
    b"Container",
    b"Core-PDU",
    b"DLRRCMessageTransfer",
    b"E1AP-PDU",
    b"E1SetupRequest",
    b"E1SetupResponse",
    b"F1AP-PDU",
    b"F1SetupRequest",
    b"F1SetupResponse",
    b"Flag",
    b"Gnb",
    b"HandoverCancel",
    b"HandoverPreparationFailure",
    b"HandoverRequest",
    b"HandoverRequestAcknowledge",
    b"Mark",
    b"Mode",
    b"Name",
    b"PathSwitchAcknowledge",
    b"PathSwitchRequest",
    b"Peer",
    b"Quota",
    b"RrcToken",
    b"SNStatusTransfer",
    b"SnBits",
    b"Status",
    b"Statuses",
    b"TransportConfirm",
    b"Tunnel",
    b"Tunnels",
    b"UE",
    b"UEContextModificationRequest",
    b"UEContextModificationResponse",
    b"UEContextRelease",
    b"UEContextReleaseCommand",
    b"UEContextReleaseComplete",
    b"UEContextSetupRequest",
    b"UEContextSetupResponse",
    b"ULRRCMessageTransfer",
    b"Unit",
    b"Word",
    b"XnAP-PDU",
];

/// The names of the profile's types, in order octet by octet.
pub fn type_names() -> &'static [&'static [u8]]
    ensures { map (λ name. name.now) result.now ≡ own_names }
{
    &TYPE_NAMES
}
