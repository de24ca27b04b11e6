//! Lists of members.

ghost use Rattle.std.specs.Prelude.{◌≡◌, ◌++◌};
ghost use Rattle.asn1_syntax.specs.types.inside.Reading.{Gives};
ghost use Rattle.asn1_syntax.specs.types.Members.{all_parts, is_full};
ghost use Rattle.asn1_syntax.specs.types.Types.{node};
ghost use Rattle.asn1_syntax.specs.types.inside.Members.{has_component, least_members, composed, new_name_at, named_at, entry_at, optional_at, member_end_at, close_at};

use crate::types::definition::{Component, Definition, Extensible, Node, Size, TypeId};
use crate::types::fault::{ModuleReason, ReadError};
use crate::types::reader::Reader;
use asn1_tokens::{Sign, Word, is_text};
use gnb_types::octets::Octets;
use gnb_types::results::beside;

/// What a list of members belongs to.
#[derive(Clone, Copy, PartialEq, Eq)]
pub enum Group {
    Sequence,
    Choice,
}

/// A type whose next part is to be read.
#[derive(Drop)]
pub enum Frame {
    /// A SEQUENCE OF, before the type of its elements.
    List {
        size: Option<Size>,
        place: usize,
    },
    /// A SEQUENCE or CHOICE, before the type of the member with this name.
    Member {
        group: Group,
        members: Extensible<Component>,
        name: Octets,
        place: usize,
    },
}

/// What a type begins with.
#[derive(Drop)]
pub enum Head {
    /// A whole type.
    Leaf(Node),
    /// A type that has others inside.
    Opens(Frame),
}

impl Extensible<Component> {
    fn has_name(&self, name: &[u8]) -> bool
        ensures { result ≡ has_component name.now (all_parts self.now) }
    {
        if has_component(name, self.root.as_slice()) {
            return true;
        }
        match &self.additions {
            None => false,
            Some(added) => has_component(name, added.as_slice()),
        }
    }
}

/// The name is that of one of these.
fn has_component(name: &[u8], components: &[Component]) -> bool
    ensures { result ≡ has_component name.now components.now }
{
    components
        .iter()
        .any(|other| is_text(other.name.as_slice(), name))
}

impl Group {
    /// How many members stand before `...` at least.
    fn least_members(self) -> usize
        ensures { result ≡ least_members self }
    {
        match self {
            Group::Sequence => 0,
            Group::Choice => 1,
        }
    }

    /// The type that members make.
    fn composed(self, members: Extensible<Component>, place: usize) -> Head
        ensures { result ≡ Head.Leaf (node (composed self members) place) }
    {
        let definition = match self {
            Group::Sequence => Definition::Sequence(members),
            Group::Choice => Definition::Choice(members),
        };
        Head::Leaf(Node { definition, place })
    }
}

impl<'a> Reader<'a> {
    /// Takes the name of a member that follows these.
    #[tactic(auto, unfolding(crate::specs::types::inside::Members::new_name_at))]
    fn new_name(&mut self, members: &Extensible<Component>) -> Result<Octets, ReadError>
        ensures { Gives (λ name. (name, self.new)) result
            (new_name_at (λ name. has_component name (all_parts members.now)) (is_full members.now) self.old) }
    {
        let bounds = self.fault(ModuleReason::Bounds);
        let twice = self.fault(ModuleReason::Twice);
        let name = self.lower()?;
        if members.is_full() {
            return Err(ReadError::Fault(bounds));
        }
        if members.has_name(name.as_slice()) {
            return Err(ReadError::Fault(twice));
        }
        Ok(name)
    }

    /// Takes the name of a member; its type follows.
    #[tactic(auto, unfolding(crate::specs::types::inside::Members::named_at))]
    fn named(
        &mut self,
        group: Group,
        members: Extensible<Component>,
        place: usize,
    ) -> Result<Head, ReadError>
        ensures { Gives (λ head. (head, self.new)) result (named_at group members place self.old) }
    {
        let (name, members) = beside(self.new_name(&members), members)?;
        Ok(Head::Opens(Frame::Member {
            group,
            members,
            name,
            place,
        }))
    }

    /// Takes what follows the brace or comma before a member, up to the member's type.
    #[tactic(auto, unfolding(crate::specs::types::inside::Members::entry_at))]
    pub fn entry(
        &mut self,
        group: Group,
        members: Extensible<Component>,
        place: usize,
    ) -> Result<Head, ReadError>
        ensures { Gives (λ head. (head, self.new)) result (entry_at group members place self.old) }
    {
        if !(members.can_extend(group.least_members()) && self.begins_with_sign(Sign::Ellipsis)) {
            return self.named(group, members, place);
        }
        let (_, mut members) = beside(self.sign(Sign::Ellipsis), members)?;
        members.extend(self.alloc());
        let (more, members) = beside(self.list_goes_on(), members)?;
        if more {
            self.named(group, members, place)
        } else {
            Ok(group.composed(members, place))
        }
    }

    /// Takes the word OPTIONAL where it stands behind a component, and answers whether it does.
    #[tactic(auto, unfolding(crate::specs::types::inside::Members::optional_at))]
    fn optional(&mut self, group: Group) -> Result<bool, ReadError>
        ensures { Gives (λ found. (found, self.new)) result (optional_at group self.old) }
    {
        if group == Group::Choice {
            return Ok(false);
        }
        if !self.begins_with(Word::Optional) {
            return Ok(false);
        }
        self.word(Word::Optional)?;
        Ok(true)
    }

    /// Takes what follows the type of a member, up to the next member's type.
    #[tactic(auto, unfolding(crate::specs::types::inside::Members::member_end_at))]
    fn member_end(
        &mut self,
        group: Group,
        members: Extensible<Component>,
        name: Octets,
        place: usize,
        definition: TypeId,
    ) -> Result<Head, ReadError>
        ensures { Gives (λ head. (head, self.new)) result (member_end_at group members name place definition self.old) }
    {
        let (optional, (members, name)) = beside(self.optional(group), (members, name))?;
        let (more, (mut members, name)) = beside(self.list_goes_on(), (members, name))?;
        let put = members.put(Component {
            name,
            definition,
            optional,
        });
        let (_, members) = beside(put, members)?;
        if more {
            self.entry(group, members, place)
        } else {
            Ok(group.composed(members, place))
        }
    }

    /// Takes what follows a type inside another one, and answers what it makes of that other one.
    pub fn close(&mut self, frame: Frame, definition: TypeId) -> Result<Head, ReadError>
        ensures { Gives (λ head. (head, self.new)) result (close_at frame definition self.old) }
    {
        match frame {
            Frame::List { size, place } => {
                let definition = Definition::SequenceOf {
                    size,
                    element: definition,
                };
                Ok(Head::Leaf(Node { definition, place }))
            }
            Frame::Member {
                group,
                members,
                name,
                place,
            } => self.member_end(group, members, name, place, definition),
        }
    }
}
