//! Version 1.

/// The module, with its types by subject.
pub const PROFILE_TEXT: &[u8] = b"SplitGNB DEFINITIONS AUTOMATIC TAGS ::= BEGIN

-- What is numbered, and what is one of a few
UE ::= INTEGER (1..16)
Bearer ::= INTEGER (1..8)
Word ::= INTEGER (0..4294967295)
Unit ::= INTEGER (1..2)
Quota ::= INTEGER (4..4096)
Flag ::= BOOLEAN
Gnb ::= ENUMERATED {a, b}
SnBits ::= ENUMERATED {len12, len18}
Cause ::= ENUMERATED {quota, busy, unit, ...}
Mode ::= ENUMERATED {uplinks, switch, freeze, status, resume, ...}

-- Strings
Name ::= PrintableString (SIZE (1..150, ...))
Container ::= OCTET STRING

-- Tunnels (TS 38.473, 9.3.2.1) and SN statuses (TS 38.423, 9.2.1.14)
Tunnel ::= SEQUENCE {bearer Bearer, teid Word, ...}
Tunnels ::= SEQUENCE (SIZE (1..8)) OF Tunnel
Peer ::= SEQUENCE {gnb Gnb, up Unit, ...}
Status ::= SEQUENCE {
  bearer Bearer,
  dlNext Word,
  ulFirst Word,
  ulReceived BIT STRING (SIZE (1..4096)) OPTIONAL,
  ...
}
Statuses ::= SEQUENCE (SIZE (1..8)) OF Status

-- Tokens in place of messages of RRC (TS 38.331, 6.2.2)
Mark ::= SEQUENCE {ue UE, epoch Word, ...}
Command ::= SEQUENCE {ue UE, epoch Word, gnb Gnb, du Unit, ...}
RrcToken ::= CHOICE {command Command, complete Mark, reestablish Mark, accepted Mark, ...}

-- F1AP (TS 38.473), between a CU-CP and a DU
F1AP-PDU ::= Protocol-PDU {{F1Procedures}}
F1Procedures ELEMENTARY-PROCEDURE ::= {
  {INITIATING MESSAGE F1SetupRequest SUCCESSFUL OUTCOME F1SetupResponse PROCEDURE CODE 1 CRITICALITY reject} |
  {INITIATING MESSAGE UEContextSetupRequest
   SUCCESSFUL OUTCOME UEContextSetupResponse
   PROCEDURE CODE 2 CRITICALITY reject} |
  {INITIATING MESSAGE UEContextModificationRequest
   SUCCESSFUL OUTCOME UEContextModificationResponse
   PROCEDURE CODE 3 CRITICALITY reject} |
  {INITIATING MESSAGE UEContextReleaseCommand
   SUCCESSFUL OUTCOME UEContextReleaseComplete
   PROCEDURE CODE 4 CRITICALITY reject} |
  {INITIATING MESSAGE DLRRCMessageTransfer PROCEDURE CODE 5 CRITICALITY reject} |
  {INITIATING MESSAGE ULRRCMessageTransfer PROCEDURE CODE 6 CRITICALITY reject},
  ...
}

-- F1 Setup (8.2.3)
F1SetupRequest ::= SEQUENCE {protocolIEs ProtocolIE-Container {{F1SetupRequestIEs}}, ...}
F1SetupRequestIEs PROTOCOL-IES ::= {
  {ID 2 CRITICALITY reject TYPE Word PRESENCE mandatory} |
  {ID 17 CRITICALITY reject TYPE Name PRESENCE mandatory},
  ...
}
F1SetupResponse ::= SEQUENCE {protocolIEs ProtocolIE-Container {{F1SetupResponseIEs}}, ...}
F1SetupResponseIEs PROTOCOL-IES ::= {
  {ID 2 CRITICALITY reject TYPE Word PRESENCE mandatory},
  ...
}

-- UE Context Setup (8.3.1)
UEContextSetupRequest ::= SEQUENCE {protocolIEs ProtocolIE-Container {{UEContextSetupRequestIEs}}, ...}
UEContextSetupRequestIEs PROTOCOL-IES ::= {
  {ID 1 CRITICALITY reject TYPE UE PRESENCE mandatory} |
  {ID 2 CRITICALITY reject TYPE Word PRESENCE mandatory} |
  {ID 3 CRITICALITY reject TYPE Word PRESENCE mandatory} |
  {ID 5 CRITICALITY reject TYPE Tunnels PRESENCE mandatory} |
  {ID 9 CRITICALITY reject TYPE SnBits PRESENCE mandatory} |
  {ID 12 CRITICALITY reject TYPE Peer PRESENCE mandatory},
  ...
}
UEContextSetupResponse ::= SEQUENCE {protocolIEs ProtocolIE-Container {{UEContextSetupResponseIEs}}, ...}
UEContextSetupResponseIEs PROTOCOL-IES ::= {
  {ID 1 CRITICALITY reject TYPE UE PRESENCE mandatory} |
  {ID 2 CRITICALITY reject TYPE Word PRESENCE mandatory} |
  {ID 6 CRITICALITY reject TYPE Tunnels PRESENCE mandatory},
  ...
}

-- UE Context Modification (8.3.4)
UEContextModificationRequest ::= SEQUENCE {protocolIEs ProtocolIE-Container {{UEContextModificationRequestIEs}}, ...}
UEContextModificationRequestIEs PROTOCOL-IES ::= {
  {ID 1 CRITICALITY reject TYPE UE PRESENCE mandatory} |
  {ID 2 CRITICALITY reject TYPE Word PRESENCE mandatory} |
  {ID 3 CRITICALITY reject TYPE Word PRESENCE mandatory},
  ...
}
UEContextModificationResponse ::= SEQUENCE {protocolIEs ProtocolIE-Container {{UEContextModificationResponseIEs}}, ...}
UEContextModificationResponseIEs PROTOCOL-IES ::= {
  {ID 1 CRITICALITY reject TYPE UE PRESENCE mandatory} |
  {ID 2 CRITICALITY reject TYPE Word PRESENCE mandatory} |
  {ID 6 CRITICALITY reject TYPE Tunnels PRESENCE mandatory},
  ...
}

-- UE Context Release (8.3.3)
UEContextReleaseCommand ::= SEQUENCE {protocolIEs ProtocolIE-Container {{UEContextReleaseCommandIEs}}, ...}
UEContextReleaseCommandIEs PROTOCOL-IES ::= {
  {ID 1 CRITICALITY reject TYPE UE PRESENCE mandatory} |
  {ID 2 CRITICALITY reject TYPE Word PRESENCE mandatory},
  ...
}
UEContextReleaseComplete ::= SEQUENCE {protocolIEs ProtocolIE-Container {{UEContextReleaseCompleteIEs}}, ...}
UEContextReleaseCompleteIEs PROTOCOL-IES ::= {
  {ID 1 CRITICALITY reject TYPE UE PRESENCE mandatory} |
  {ID 2 CRITICALITY reject TYPE Word PRESENCE mandatory},
  ...
}

-- DL RRC Message Transfer (8.4.2)
DLRRCMessageTransfer ::= SEQUENCE {protocolIEs ProtocolIE-Container {{DLRRCMessageTransferIEs}}, ...}
DLRRCMessageTransferIEs PROTOCOL-IES ::= {
  {ID 1 CRITICALITY reject TYPE UE PRESENCE mandatory} |
  {ID 7 CRITICALITY reject TYPE Container PRESENCE mandatory},
  ...
}

-- UL RRC Message Transfer (8.4.3)
ULRRCMessageTransfer ::= SEQUENCE {protocolIEs ProtocolIE-Container {{ULRRCMessageTransferIEs}}, ...}
ULRRCMessageTransferIEs PROTOCOL-IES ::= {
  {ID 1 CRITICALITY reject TYPE UE PRESENCE mandatory} |
  {ID 7 CRITICALITY reject TYPE Container PRESENCE mandatory},
  ...
}

-- E1AP (TS 37.483), between a CU-CP and a CU-UP
E1AP-PDU ::= Protocol-PDU {{E1Procedures}}
E1Procedures ELEMENTARY-PROCEDURE ::= {
  {INITIATING MESSAGE E1SetupRequest SUCCESSFUL OUTCOME E1SetupResponse PROCEDURE CODE 1 CRITICALITY reject} |
  {INITIATING MESSAGE BearerContextSetupRequest
   SUCCESSFUL OUTCOME BearerContextSetupResponse
   UNSUCCESSFUL OUTCOME BearerContextSetupFailure
   PROCEDURE CODE 2 CRITICALITY reject} |
  {INITIATING MESSAGE BearerContextModificationRequest
   SUCCESSFUL OUTCOME BearerContextModificationResponse
   UNSUCCESSFUL OUTCOME BearerContextModificationFailure
   PROCEDURE CODE 3 CRITICALITY reject} |
  {INITIATING MESSAGE BearerContextReleaseCommand
   SUCCESSFUL OUTCOME BearerContextReleaseComplete
   PROCEDURE CODE 4 CRITICALITY reject},
  ...
}

-- E1 Setup (8.2.3)
E1SetupRequest ::= SEQUENCE {protocolIEs ProtocolIE-Container {{E1SetupRequestIEs}}, ...}
E1SetupRequestIEs PROTOCOL-IES ::= {
  {ID 2 CRITICALITY reject TYPE Word PRESENCE mandatory} |
  {ID 17 CRITICALITY reject TYPE Name PRESENCE mandatory},
  ...
}
E1SetupResponse ::= SEQUENCE {protocolIEs ProtocolIE-Container {{E1SetupResponseIEs}}, ...}
E1SetupResponseIEs PROTOCOL-IES ::= {
  {ID 2 CRITICALITY reject TYPE Word PRESENCE mandatory},
  ...
}

-- Bearer Context Setup (8.3.1)
BearerContextSetupRequest ::= SEQUENCE {protocolIEs ProtocolIE-Container {{BearerContextSetupRequestIEs}}, ...}
BearerContextSetupRequestIEs PROTOCOL-IES ::= {
  {ID 1 CRITICALITY reject TYPE UE PRESENCE mandatory} |
  {ID 2 CRITICALITY reject TYPE Word PRESENCE mandatory} |
  {ID 4 CRITICALITY reject TYPE Bearer PRESENCE mandatory} |
  {ID 9 CRITICALITY reject TYPE SnBits PRESENCE mandatory} |
  {ID 10 CRITICALITY reject TYPE Quota PRESENCE mandatory} |
  {ID 18 CRITICALITY reject TYPE Flag PRESENCE mandatory},
  ...
}
BearerContextSetupResponse ::= SEQUENCE {protocolIEs ProtocolIE-Container {{BearerContextSetupResponseIEs}}, ...}
BearerContextSetupResponseIEs PROTOCOL-IES ::= {
  {ID 1 CRITICALITY reject TYPE UE PRESENCE mandatory} |
  {ID 2 CRITICALITY reject TYPE Word PRESENCE mandatory} |
  {ID 5 CRITICALITY reject TYPE Tunnels PRESENCE mandatory} |
  {ID 13 CRITICALITY reject TYPE Tunnels PRESENCE mandatory} |
  {ID 14 CRITICALITY reject TYPE Tunnels PRESENCE optional} |
  {ID 15 CRITICALITY reject TYPE Tunnels PRESENCE optional},
  ...
}
BearerContextSetupFailure ::= SEQUENCE {protocolIEs ProtocolIE-Container {{BearerContextSetupFailureIEs}}, ...}
BearerContextSetupFailureIEs PROTOCOL-IES ::= {
  {ID 1 CRITICALITY reject TYPE UE PRESENCE mandatory} |
  {ID 2 CRITICALITY reject TYPE Word PRESENCE mandatory} |
  {ID 8 CRITICALITY reject TYPE Cause PRESENCE mandatory},
  ...
}

-- Bearer Context Modification (8.3.2)
BearerContextModificationRequest ::= SEQUENCE {protocolIEs ProtocolIE-Container {{BearerContextModificationRequestIEs}}, ...}
BearerContextModificationRequestIEs PROTOCOL-IES ::= {
  {ID 1 CRITICALITY reject TYPE UE PRESENCE mandatory} |
  {ID 2 CRITICALITY reject TYPE Word PRESENCE mandatory} |
  {ID 6 CRITICALITY reject TYPE Tunnels PRESENCE optional} |
  {ID 11 CRITICALITY reject TYPE Mode PRESENCE mandatory} |
  {ID 12 CRITICALITY reject TYPE Peer PRESENCE optional} |
  {ID 14 CRITICALITY reject TYPE Tunnels PRESENCE optional} |
  {ID 15 CRITICALITY reject TYPE Tunnels PRESENCE optional} |
  {ID 16 CRITICALITY reject TYPE Statuses PRESENCE optional} |
  {ID 19 CRITICALITY reject TYPE Unit PRESENCE optional},
  ...
}
BearerContextModificationResponse ::= SEQUENCE {protocolIEs ProtocolIE-Container {{BearerContextModificationResponseIEs}}, ...}
BearerContextModificationResponseIEs PROTOCOL-IES ::= {
  {ID 1 CRITICALITY reject TYPE UE PRESENCE mandatory} |
  {ID 2 CRITICALITY reject TYPE Word PRESENCE mandatory} |
  {ID 5 CRITICALITY reject TYPE Tunnels PRESENCE optional} |
  {ID 16 CRITICALITY reject TYPE Statuses PRESENCE optional},
  ...
}
BearerContextModificationFailure ::= SEQUENCE {protocolIEs ProtocolIE-Container {{BearerContextModificationFailureIEs}}, ...}
BearerContextModificationFailureIEs PROTOCOL-IES ::= {
  {ID 1 CRITICALITY reject TYPE UE PRESENCE mandatory} |
  {ID 2 CRITICALITY reject TYPE Word PRESENCE mandatory} |
  {ID 8 CRITICALITY reject TYPE Cause PRESENCE mandatory},
  ...
}

-- Bearer Context Release (8.3.4)
BearerContextReleaseCommand ::= SEQUENCE {protocolIEs ProtocolIE-Container {{BearerContextReleaseCommandIEs}}, ...}
BearerContextReleaseCommandIEs PROTOCOL-IES ::= {
  {ID 1 CRITICALITY reject TYPE UE PRESENCE mandatory} |
  {ID 2 CRITICALITY reject TYPE Word PRESENCE mandatory} |
  {ID 20 CRITICALITY reject TYPE Flag PRESENCE mandatory},
  ...
}
BearerContextReleaseComplete ::= SEQUENCE {protocolIEs ProtocolIE-Container {{BearerContextReleaseCompleteIEs}}, ...}
BearerContextReleaseCompleteIEs PROTOCOL-IES ::= {
  {ID 1 CRITICALITY reject TYPE UE PRESENCE mandatory} |
  {ID 2 CRITICALITY reject TYPE Word PRESENCE mandatory},
  ...
}

-- XnAP (TS 38.423), between two CU-CPs
XnAP-PDU ::= Protocol-PDU {{XnProcedures}}
XnProcedures ELEMENTARY-PROCEDURE ::= {
  {INITIATING MESSAGE HandoverRequest
   SUCCESSFUL OUTCOME HandoverRequestAcknowledge
   UNSUCCESSFUL OUTCOME HandoverPreparationFailure
   PROCEDURE CODE 1 CRITICALITY reject} |
  {INITIATING MESSAGE SNStatusTransfer PROCEDURE CODE 2 CRITICALITY reject} |
  {INITIATING MESSAGE HandoverCancel PROCEDURE CODE 3 CRITICALITY reject} |
  {INITIATING MESSAGE UEContextRelease PROCEDURE CODE 4 CRITICALITY reject} |
  {INITIATING MESSAGE TransportConfirm PROCEDURE CODE 5 CRITICALITY reject},
  ...
}

-- Handover Preparation (8.2.1)
HandoverRequest ::= SEQUENCE {protocolIEs ProtocolIE-Container {{HandoverRequestIEs}}, ...}
HandoverRequestIEs PROTOCOL-IES ::= {
  {ID 1 CRITICALITY reject TYPE UE PRESENCE mandatory} |
  {ID 2 CRITICALITY reject TYPE Word PRESENCE mandatory} |
  {ID 3 CRITICALITY reject TYPE Word PRESENCE mandatory} |
  {ID 4 CRITICALITY reject TYPE Bearer PRESENCE mandatory} |
  {ID 9 CRITICALITY reject TYPE SnBits PRESENCE mandatory} |
  {ID 10 CRITICALITY reject TYPE Quota PRESENCE mandatory} |
  {ID 12 CRITICALITY reject TYPE Peer PRESENCE mandatory} |
  {ID 19 CRITICALITY reject TYPE Unit PRESENCE mandatory},
  ...
}
HandoverRequestAcknowledge ::= SEQUENCE {protocolIEs ProtocolIE-Container {{HandoverRequestAcknowledgeIEs}}, ...}
HandoverRequestAcknowledgeIEs PROTOCOL-IES ::= {
  {ID 1 CRITICALITY reject TYPE UE PRESENCE mandatory} |
  {ID 2 CRITICALITY reject TYPE Word PRESENCE mandatory} |
  {ID 12 CRITICALITY reject TYPE Peer PRESENCE mandatory} |
  {ID 14 CRITICALITY reject TYPE Tunnels PRESENCE mandatory} |
  {ID 15 CRITICALITY reject TYPE Tunnels PRESENCE mandatory},
  ...
}
HandoverPreparationFailure ::= SEQUENCE {protocolIEs ProtocolIE-Container {{HandoverPreparationFailureIEs}}, ...}
HandoverPreparationFailureIEs PROTOCOL-IES ::= {
  {ID 1 CRITICALITY reject TYPE UE PRESENCE mandatory} |
  {ID 2 CRITICALITY reject TYPE Word PRESENCE mandatory} |
  {ID 8 CRITICALITY reject TYPE Cause PRESENCE mandatory},
  ...
}

-- SN Status Transfer (8.2.2)
SNStatusTransfer ::= SEQUENCE {protocolIEs ProtocolIE-Container {{SNStatusTransferIEs}}, ...}
SNStatusTransferIEs PROTOCOL-IES ::= {
  {ID 1 CRITICALITY reject TYPE UE PRESENCE mandatory} |
  {ID 2 CRITICALITY reject TYPE Word PRESENCE mandatory} |
  {ID 16 CRITICALITY reject TYPE Statuses PRESENCE mandatory},
  ...
}

-- Handover Cancel (8.2.3)
HandoverCancel ::= SEQUENCE {protocolIEs ProtocolIE-Container {{HandoverCancelIEs}}, ...}
HandoverCancelIEs PROTOCOL-IES ::= {
  {ID 1 CRITICALITY reject TYPE UE PRESENCE mandatory} |
  {ID 2 CRITICALITY reject TYPE Word PRESENCE mandatory},
  ...
}

-- UE Context Release (8.2.7)
UEContextRelease ::= SEQUENCE {protocolIEs ProtocolIE-Container {{UEContextReleaseIEs}}, ...}
UEContextReleaseIEs PROTOCOL-IES ::= {
  {ID 1 CRITICALITY reject TYPE UE PRESENCE mandatory} |
  {ID 2 CRITICALITY reject TYPE Word PRESENCE mandatory},
  ...
}

-- answers the three before
TransportConfirm ::= SEQUENCE {protocolIEs ProtocolIE-Container {{TransportConfirmIEs}}, ...}
TransportConfirmIEs PROTOCOL-IES ::= {
  {ID 1 CRITICALITY reject TYPE UE PRESENCE mandatory} |
  {ID 2 CRITICALITY reject TYPE Word PRESENCE mandatory},
  ...
}

-- between a CU-CP and the core, in place of NGAP (TS 38.413)
Core-PDU ::= Protocol-PDU {{CoreProcedures}}
CoreProcedures ELEMENTARY-PROCEDURE ::= {
  {INITIATING MESSAGE PathSwitchRequest SUCCESSFUL OUTCOME PathSwitchAcknowledge PROCEDURE CODE 1 CRITICALITY reject},
  ...
}

-- Path Switch Request (8.4.4)
PathSwitchRequest ::= SEQUENCE {protocolIEs ProtocolIE-Container {{PathSwitchRequestIEs}}, ...}
PathSwitchRequestIEs PROTOCOL-IES ::= {
  {ID 1 CRITICALITY reject TYPE UE PRESENCE mandatory} |
  {ID 2 CRITICALITY reject TYPE Word PRESENCE mandatory} |
  {ID 12 CRITICALITY reject TYPE Peer PRESENCE mandatory} |
  {ID 13 CRITICALITY reject TYPE Tunnels PRESENCE mandatory},
  ...
}
PathSwitchAcknowledge ::= SEQUENCE {protocolIEs ProtocolIE-Container {{PathSwitchAcknowledgeIEs}}, ...}
PathSwitchAcknowledgeIEs PROTOCOL-IES ::= {
  {ID 1 CRITICALITY reject TYPE UE PRESENCE mandatory} |
  {ID 2 CRITICALITY reject TYPE Word PRESENCE mandatory},
  ...
}

END
";
