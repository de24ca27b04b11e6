//! Forms of types.

ghost use Rattle.std.specs.Prelude.{◌≡◌, ℕ, ◌<◌, length, None};
ghost use Rattle.aper_defs.specs.Trees.{Tree};
ghost use Rattle.aper_defs.specs.Bounds.{IsBounded};
ghost use Rattle.asn1_defs.specs.Modules.{IsModule};
ghost use Rattle.asn1_defs.specs.Targets.{definition_at, referred};
ghost use Rattle.aper_values.specs.types.Types.{definition_tree, tree};
ghost use Rattle.aper_values.specs.types.Forms.{form_tree, IsFormInside};

use asn1_module::{Component, Definition, Extensible, IeRow, Module, ProcedureRow, Size, TypeId};

/// A type, without the name that it goes by: what an encoding of it depends on. Types inside it go by their numbers.
#[derive(Clone, Copy)]
pub enum Form<'m> {
    Boolean,
    Integer {
        low: i128,
        high: i128,
        extensible: bool,
    },
    /// So many names in its root.
    Enumerated {
        names: usize,
        extensible: bool,
    },
    BitString(Option<Size>),
    OctetString(Option<Size>),
    PrintableString(Option<Size>),
    Sequence(&'m Extensible<Component>),
    Choice(&'m Extensible<Component>),
    SequenceOf {
        size: Option<Size>,
        element: TypeId,
    },
    /// ProtocolIE-Container, with the rows of its set.
    Container(&'m [IeRow]),
    /// Protocol-PDU, with the rows of its set.
    Pdu(&'m [ProcedureRow]),
}

/// The type at the end of the names that a type refers by: a chain of them may be as long as a module has names.
#[inline(always)]
fn resolved(m: &Module, id: TypeId) -> TypeId
    requires { id.number < length m.now.nodes }
    ensures tree { tree m.now id.number ≡ tree m.now result.number }
    ensures inside { result.number < length m.now.nodes }
    ensures own { referred m.now.assignments (definition_at m.now result.number) ≡ None }
    ensures sound { IsModule m.now }
{
    let mut id = id;
    while let Some(next) = m.referred(id) {
        id = next;
    }
    id
}

/// The form of a type that isn't a name.
#[inline(always)]
fn own_form<'m>(m: &'m Module, id: TypeId) -> Form<'m>
    requires inside { id.number < length m.now.nodes }
    requires own { referred m.now.assignments (definition_at m.now id.number) ≡ None }
    ensures tree { (of : ℕ → Tree) → definition_tree m.now.assignments of (definition_at m.now id.number) ≡ form_tree of result }
    ensures inside { IsFormInside (length m.now.nodes) result }
{
    match m.definition(id) {
        Definition::Boolean => Form::Boolean,
        Definition::Integer {
            low,
            high,
            extensible,
        } => Form::Integer {
            low: *low,
            high: *high,
            extensible: *extensible,
        },
        Definition::Enumerated(names) => Form::Enumerated {
            names: names.root.len(),
            extensible: names.additions.is_some(),
        },
        Definition::BitString(size) => Form::BitString(*size),
        Definition::OctetString(size) => Form::OctetString(*size),
        Definition::PrintableString(size) => Form::PrintableString(*size),
        Definition::Sequence(members) => Form::Sequence(members),
        Definition::Choice(members) => Form::Choice(members),
        Definition::SequenceOf { size, element } => Form::SequenceOf {
            size: *size,
            element: *element,
        },
        Definition::Reference(_) => unreachable!(),
        Definition::IeContainer(_) => Form::Container(m.element_rows(id)),
        Definition::Pdu(_) => Form::Pdu(m.message_rows(id)),
    }
}

/// The form of a type of a module. The types in it are of the module too.
#[inline(always)]
pub fn form_of<'m>(m: &'m Module, id: TypeId) -> Form<'m>
    requires { id.number < length m.now.nodes }
    ensures tree { tree m.now id.number ≡ form_tree (tree m.now) result }
    ensures inside { IsFormInside (length m.now.nodes) result }
    ensures bounded { IsBounded (tree m.now id.number) }
{
    let end = resolved(m, id);
    own_form(m, end)
}
