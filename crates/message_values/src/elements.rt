//! The information elements of the profile's messages, by name.

/// An information element.
#[derive(Clone, Copy)]
pub enum ElementName {
    Ue,
    Instance,
    Epoch,
    Bearers,
    Uplinks,
    Downlinks,
    Container,
    Cause,
    Sn,
    Quota,
    Mode,
    Peer,
    N3,
    ForwardDown,
    ForwardUp,
    Statuses,
    Name,
    Forward,
    Du,
    Final,
}

impl ElementName {
    ghost use Rattle.std.specs.Prelude.{◌≡◌};
    ghost use Rattle.message_values.specs.Elements.{element_named};

    /// Its id in the profile.
    pub fn id(self) -> u16
        ensures { result ≡ (element_named self).id }
    {
        match self {
            ElementName::Ue => 1,
            ElementName::Instance => 2,
            ElementName::Epoch => 3,
            ElementName::Bearers => 4,
            ElementName::Uplinks => 5,
            ElementName::Downlinks => 6,
            ElementName::Container => 7,
            ElementName::Cause => 8,
            ElementName::Sn => 9,
            ElementName::Quota => 10,
            ElementName::Mode => 11,
            ElementName::Peer => 12,
            ElementName::N3 => 13,
            ElementName::ForwardDown => 14,
            ElementName::ForwardUp => 15,
            ElementName::Statuses => 16,
            ElementName::Name => 17,
            ElementName::Forward => 18,
            ElementName::Du => 19,
            ElementName::Final => 20,
        }
    }
}

/// How a message has an information element.
#[derive(Clone, Copy)]
pub enum Use {
    Mandatory(ElementName),
    Optional(ElementName),
}

impl Use {
    ghost use Rattle.std.specs.Prelude.{◌≡◌};
    ghost use Rattle.message_values.specs.Elements.{use_of};

    /// The id of its element.
    pub fn id(self) -> u16
        ensures { result ≡ (use_of self).element.id }
    {
        match self {
            Use::Mandatory(name) | Use::Optional(name) => name.id(),
        }
    }
}
