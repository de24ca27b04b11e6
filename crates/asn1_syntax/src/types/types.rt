//! Types, with those inside them.

ghost use Rattle.std.specs.Prelude.{◌≡◌, ◌++◌, [], ◌∷◌, IfOk, OnOk, OnErr};
ghost use Rattle.asn1_syntax.specs.types.inside.Reading.{Gives};
ghost use Rattle.asn1_syntax.specs.types.Types.{node, next_id};
ghost use Rattle.asn1_syntax.specs.types.inside.Types.{enumerated_at, string_at, simple_rest_at, is_simple, simple_at, list_head_at, components_head_at, sequence_head_at, choice_head_at, set_name_at, container_at, pdu_at, reference_at, head_by, head_at, rise_at, risen, type_turn_at, type_within_at, type_at};

use crate::types::definition::{Definition, Extensible, Node, Size, TypeId};
use crate::types::fault::ReadError;
use crate::types::items::Items;
use crate::types::members::{Frame, Group, Head};
use crate::types::reader::Reader;
use crate::types::stack::Stack;
use asn1_tokens::{Sign, Word};
use gnb_types::octets::Octets;

impl Items<Node> {
    /// One more type, and its number. After an error the state is unspecified.
    fn add(&mut self, node: Node) -> Result<TypeId, ReadError>
        ensures id { IfOk result (λ id. id ≡ next_id self.old) }
        ensures ok { OnOk result (self.new ≡ self.old ++ node ∷ []) }
        ensures err { OnErr result (result ≡ Err ReadError.Memory) }
    {
        let id = TypeId { number: self.len() };
        self.push(node)?;
        Ok(id)
    }
}

/// The word begins a type that has no other one inside.
fn is_simple(word: Word) -> bool
    ensures { result ≡ is_simple word }
{
    matches!(
        word,
        Word::Boolean
            | Word::Integer
            | Word::Enumerated
            | Word::Bit
            | Word::Octet
            | Word::PrintableString
    )
}

impl<'a> Reader<'a> {
    #[tactic(auto, unfolding(crate::specs::types::inside::Types::enumerated_at))]
    fn enumerated(&mut self, turns: u64) -> Result<Definition, ReadError>
        ensures { Gives (λ definition. (definition, self.new)) result (enumerated_at turns self.old) }
    {
        self.sign(Sign::LeftBrace)?;
        Ok(Definition::Enumerated(self.names(turns)?))
    }

    /// Takes the word STRING, and a size where one stands.
    #[tactic(auto, unfolding(crate::specs::types::inside::Types::string_at))]
    fn string(&mut self) -> Result<Option<Size>, ReadError>
        ensures { Gives (λ size. (size, self.new)) result (string_at self.old) }
    {
        self.word(Word::String)?;
        self.optional_size(false)
    }

    /// Takes the rest of a type that begins with this word, and has no other one inside.
    #[tactic(auto, unfolding(crate::specs::types::inside::Types::simple_rest_at, crate::specs::types::inside::Types::rest_at))]
    fn simple_rest(&mut self, turns: u64, word: Word) -> Result<Definition, ReadError>
        ensures { Gives (λ definition. (definition, self.new)) result (simple_rest_at turns word self.old) }
    {
        match word {
            Word::Boolean => Ok(Definition::Boolean),
            Word::Integer => self.integer(),
            Word::Enumerated => self.enumerated(turns),
            Word::Bit => Ok(Definition::BitString(self.string()?)),
            Word::Octet => Ok(Definition::OctetString(self.string()?)),
            Word::PrintableString => Ok(Definition::PrintableString(self.optional_size(true)?)),
            _ => Err(self.unexpected()),
        }
    }

    /// Takes a type that begins with this word, if it has no other one inside.
    #[tactic(auto, unfolding(crate::specs::types::inside::Types::simple_at))]
    fn simple(&mut self, turns: u64, word: Word) -> Result<Head, ReadError>
        ensures { Gives (λ head. (head, self.new)) result (simple_at turns word self.old) }
    {
        if !is_simple(word) {
            return Err(self.unexpected());
        }
        let place = self.place();
        self.word(word)?;
        let definition = self.simple_rest(turns, word)?;
        Ok(Head::Leaf(Node { definition, place }))
    }

    #[tactic(auto, unfolding(crate::specs::types::inside::Types::list_head_at))]
    fn list_head(&mut self, place: usize) -> Result<Head, ReadError>
        ensures { Gives (λ head. (head, self.new)) result (list_head_at place self.old) }
    {
        if !self.begins_with_sign(Sign::LeftParenthesis) {
            self.word(Word::Of)?;
            return Ok(Head::Opens(Frame::List { size: None, place }));
        }
        let size = Some(self.size(false)?);
        self.word(Word::Of)?;
        Ok(Head::Opens(Frame::List { size, place }))
    }

    #[tactic(auto, unfolding(crate::specs::types::inside::Types::components_head_at))]
    fn components_head(&mut self, place: usize) -> Result<Head, ReadError>
        ensures { Gives (λ head. (head, self.new)) result (components_head_at place self.old) }
    {
        if !self.begins_with_sign(Sign::RightBrace) {
            return self.entry(Group::Sequence, Extensible::new(self.alloc()), place);
        }
        self.sign(Sign::RightBrace)?;
        let definition = Definition::Sequence(Extensible::new(self.alloc()));
        Ok(Head::Leaf(Node { definition, place }))
    }

    #[tactic(auto, unfolding(crate::specs::types::inside::Types::sequence_head_at))]
    fn sequence_head(&mut self) -> Result<Head, ReadError>
        ensures { Gives (λ head. (head, self.new)) result (sequence_head_at self.old) }
    {
        let place = self.place();
        self.word(Word::Sequence)?;
        if !self.begins_with_sign(Sign::LeftBrace) {
            return self.list_head(place);
        }
        self.sign(Sign::LeftBrace)?;
        self.components_head(place)
    }

    #[tactic(auto, unfolding(crate::specs::types::inside::Types::choice_head_at))]
    fn choice_head(&mut self) -> Result<Head, ReadError>
        ensures { Gives (λ head. (head, self.new)) result (choice_head_at self.old) }
    {
        let place = self.place();
        self.word(Word::Choice)?;
        self.sign(Sign::LeftBrace)?;
        self.entry(Group::Choice, Extensible::new(self.alloc()), place)
    }

    /// Takes the name of a set in its braces, and answers it with its place.
    #[tactic(auto, unfolding(crate::specs::types::inside::Types::set_name_at))]
    fn set_name(&mut self) -> Result<(Octets, usize), ReadError>
        ensures { Gives (λ set. (set.0, set.1, self.new)) result (set_name_at self.old) }
    {
        self.sign(Sign::LeftBrace)?;
        self.sign(Sign::LeftBrace)?;
        let place = self.place();
        let name = self.upper()?;
        self.sign(Sign::RightBrace)?;
        self.sign(Sign::RightBrace)?;
        Ok((name, place))
    }

    #[tactic(auto, unfolding(crate::specs::types::inside::Types::container_at))]
    fn container(&mut self) -> Result<Head, ReadError>
        ensures { Gives (λ head. (head, self.new)) result (container_at self.old) }
    {
        self.word(Word::ProtocolIeContainer)?;
        let (set, place) = self.set_name()?;
        let definition = Definition::IeContainer(set);
        Ok(Head::Leaf(Node { definition, place }))
    }

    #[tactic(auto, unfolding(crate::specs::types::inside::Types::pdu_at))]
    fn pdu(&mut self) -> Result<Head, ReadError>
        ensures { Gives (λ head. (head, self.new)) result (pdu_at self.old) }
    {
        self.word(Word::ProtocolPdu)?;
        let (set, place) = self.set_name()?;
        let definition = Definition::Pdu(set);
        Ok(Head::Leaf(Node { definition, place }))
    }

    #[tactic(auto, unfolding(crate::specs::types::inside::Types::reference_at))]
    fn reference(&mut self) -> Result<Head, ReadError>
        ensures { Gives (λ head. (head, self.new)) result (reference_at self.old) }
    {
        let place = self.place();
        let definition = Definition::Reference(self.upper()?);
        Ok(Head::Leaf(Node { definition, place }))
    }

    /// Takes a type, up to another one inside it.
    #[tactic(auto, unfolding(crate::specs::types::inside::Types::head_by))]
    fn head(&mut self, turns: u64) -> Result<Head, ReadError>
        ensures { Gives (λ head. (head, self.new)) result (head_at turns self.old) }
    {
        match self.first_word() {
            None => self.reference(),
            Some(Word::Sequence) => self.sequence_head(),
            Some(Word::Choice) => self.choice_head(),
            Some(Word::ProtocolIeContainer) => self.container(),
            Some(Word::ProtocolPdu) => self.pdu(),
            Some(word) => self.simple(turns, word),
        }
    }

    /// Puts a type into those around it, up to one that awaits its next part; answers the type that is whole then, if
    /// none does.
    #[tactic(auto, unfolding(crate::specs::types::inside::Types::rise_at))]
    fn rise(
        &mut self,
        stack: &mut Stack,
        nodes: &mut Items<Node>,
        definition: TypeId,
    ) -> Result<Option<TypeId>, ReadError>
        ensures { Gives (λ whole. (whole, stack.new, nodes.new, self.new)) result (rise_at stack.old definition nodes.old self.old) }
    {
        let mut definition = definition;
        while let Some(frame) = stack.pop() {
            match self.close(frame, definition)? {
                Head::Leaf(node) => definition = nodes.add(node)?,
                Head::Opens(frame) => {
                    stack.push(frame)?;
                    return Ok(None);
                }
            }
        }
        Ok(Some(definition))
    }

    /// Takes one more beginning of a type.
    #[tactic(auto, unfolding(crate::specs::types::inside::Types::type_turn_at))]
    fn type_turn(
        &mut self,
        turns: u64,
        stack: &mut Stack,
        nodes: &mut Items<Node>,
    ) -> Result<Option<TypeId>, ReadError>
        ensures { Gives (λ whole. (whole, stack.new, nodes.new, self.new)) result (type_turn_at turns stack.old nodes.old self.old) }
    {
        match self.head(turns)? {
            Head::Leaf(node) => {
                let definition = nodes.add(node)?;
                self.rise(stack, nodes, definition)
            }
            Head::Opens(frame) => {
                stack.push(frame)?;
                Ok(None)
            }
        }
    }

    /// Takes a type, in at most so many turns; it and those inside it are added to the module's types.
    #[tactic(auto, using(crate::proofs::types::Loops::type_turn, crate::proofs::types::Loops::type_end), unfolding(crate::specs::types::inside::Types::type_at))]
    pub fn definition(&mut self, turns: u64, nodes: &mut Items<Node>) -> Result<TypeId, ReadError>
        ensures { Gives (λ definition. (definition, nodes.new, self.new)) result (type_at turns nodes.old self.old) }
    {
        let mut stack = Stack::new(self.alloc());
        for _ in 0..turns {
            if let Some(definition) = self.type_turn(turns, &mut stack, nodes)? {
                return Ok(definition);
            }
        }
        Err(self.unexpected())
    }
}
