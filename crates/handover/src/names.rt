//! Messages, their modes and their receivers by name, and what a state refuses.

ghost use Rattle.std.specs.Prelude.{◌≡◌, Some, None};
ghost use Rattle.handover.specs.Rows.{sends, modifies};

/// The messages of F1AP, E1AP, XnAP and of the core.
#[derive(Clone, Copy, PartialEq, Eq)]
pub enum MessageName {
    F1SetupRequest,
    F1SetupResponse,
    UeContextSetupRequest,
    UeContextSetupResponse,
    UeContextModificationRequest,
    UeContextModificationResponse,
    UeContextReleaseCommand,
    UeContextReleaseComplete,
    DlRrcMessageTransfer,
    UlRrcMessageTransfer,
    E1SetupRequest,
    E1SetupResponse,
    BearerContextSetupRequest,
    BearerContextSetupResponse,
    BearerContextSetupFailure,
    BearerContextModificationRequest,
    BearerContextModificationResponse,
    BearerContextModificationFailure,
    BearerContextReleaseCommand,
    BearerContextReleaseComplete,
    HandoverRequest,
    HandoverRequestAcknowledge,
    HandoverPreparationFailure,
    SnStatusTransfer,
    HandoverCancel,
    UeContextRelease,
    TransportConfirm,
    PathSwitchRequest,
    PathSwitchAcknowledge,
}

/// What a modification of bearers is for.
#[derive(Clone, Copy)]
pub enum ModeName {
    Uplinks,
    Switch,
    Freeze,
    Status,
    Resume,
}

/// Who gets a message. The DUs are those before the step: the one of the context, and the one of the attempt.
#[derive(Clone, Copy, PartialEq, Eq)]
pub enum Role {
    ServingDu,
    TargetDu,
    CuUp,
    OtherCu,
    Core,
}

/// A message of a step.
#[derive(Clone, Copy)]
pub struct Send {
    pub message: MessageName,
    /// Of a Bearer Context Modification Request alone.
    pub mode: Option<ModeName>,
    pub to: Role,
}

impl Send {
    pub(crate) fn new(message: MessageName, to: Role) -> Send
        ensures { result ≡ sends message to }
    {
        Send {
            message,
            mode: None,
            to,
        }
    }

    /// A Bearer Context Modification Request.
    pub(crate) fn modification(mode: ModeName) -> Send
        ensures { result ≡ modifies mode }
    {
        Send {
            message: MessageName::BearerContextModificationRequest,
            mode: Some(mode),
            to: Role::CuUp,
        }
    }
}

/// Why a state is handed back.
#[derive(Clone, Copy, PartialEq, Eq)]
pub enum Refusal {
    /// The instance or the epoch isn't the awaited one.
    Stale,
    /// The attempt can't be given up right now.
    Busy,
    /// The terminal was told to leave.
    TooLate,
}
