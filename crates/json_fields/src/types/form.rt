//! Forms of types, with names.

ghost use Rattle.std.specs.Prelude.{◌≡◌, ℕ, ◌<◌, length, None};
ghost use Rattle.asn1_defs.specs.Modules.{IsModule};
ghost use Rattle.asn1_defs.specs.Targets.{definition_at, referred};
ghost use Rattle.json_defs.specs.Named.{Named};
ghost use Rattle.json_defs.specs.type_defs.Types.{definition_with, named};
ghost use Rattle.json_fields.specs.types.Forms.{form_named, IsFormInside};

use asn1_module::{Component, Definition, Extensible, IeRow, Module, ProcedureRow, Size, TypeId};
use gnb_types::octets::Octets;

/// A type, without the name that it goes by: what JSON of its values depends on. Types inside it go by their numbers.
#[derive(Clone, Copy)]
pub enum NamedForm<'m> {
    Boolean,
    Integer {
        low: i128,
        high: i128,
        extensible: bool,
    },
    Enumerated(&'m Extensible<Octets>),
    BitString(Option<Size>),
    OctetString(Option<Size>),
    PrintableString(Option<Size>),
    Sequence(&'m Extensible<Component>),
    Choice(&'m Extensible<Component>),
    SequenceOf {
        size: Option<Size>,
        element: TypeId,
    },
    /// ProtocolIE-Container, with the rows of its set.
    Container(&'m [IeRow]),
    /// Protocol-PDU, with the rows of its set.
    Pdu(&'m [ProcedureRow]),
}

/// The type at the end of the names that a type refers by: a chain of them may be as long as a module has names.
fn resolved(m: &Module, id: TypeId) -> TypeId
    requires { id.number < length m.now.nodes }
    ensures named { named m.now id.number ≡ named m.now result.number }
    ensures inside { result.number < length m.now.nodes }
    ensures own { referred m.now.assignments (definition_at m.now result.number) ≡ None }
    ensures sound { IsModule m.now }
{
    let mut id = id;
    while let Some(next) = m.referred(id) {
        id = next;
    }
    id
}

/// The form of a type that isn't a name.
fn own_form<'m>(m: &'m Module, id: TypeId) -> NamedForm<'m>
    requires inside { id.number < length m.now.nodes }
    requires own { referred m.now.assignments (definition_at m.now id.number) ≡ None }
    ensures named { (of : ℕ → Named)
        → definition_with m.now.assignments of (definition_at m.now id.number) ≡ form_named of result }
    ensures inside { IsFormInside (length m.now.nodes) result }
{
    match m.definition(id) {
        Definition::Boolean => NamedForm::Boolean,
        Definition::Integer {
            low,
            high,
            extensible,
        } => NamedForm::Integer {
            low: *low,
            high: *high,
            extensible: *extensible,
        },
        Definition::Enumerated(names) => NamedForm::Enumerated(names),
        Definition::BitString(size) => NamedForm::BitString(*size),
        Definition::OctetString(size) => NamedForm::OctetString(*size),
        Definition::PrintableString(size) => NamedForm::PrintableString(*size),
        Definition::Sequence(members) => NamedForm::Sequence(members),
        Definition::Choice(members) => NamedForm::Choice(members),
        Definition::SequenceOf { size, element } => NamedForm::SequenceOf {
            size: *size,
            element: *element,
        },
        Definition::Reference(_) => unreachable!(),
        Definition::IeContainer(_) => NamedForm::Container(m.element_rows(id)),
        Definition::Pdu(_) => NamedForm::Pdu(m.message_rows(id)),
    }
}

/// The form of a type of a module. The types in it are of the module too.
pub fn form_of<'m>(m: &'m Module, id: TypeId) -> NamedForm<'m>
    requires { id.number < length m.now.nodes }
    ensures named { named m.now id.number ≡ form_named (named m.now) result }
    ensures inside { IsFormInside (length m.now.nodes) result }
{
    let end = resolved(m, id);
    own_form(m, end)
}
