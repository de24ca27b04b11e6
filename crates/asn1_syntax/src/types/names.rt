//! The names of a list: each stands once.

ghost use Rattle.std.specs.Prelude.{◌≡◌, ◌++◌, length, map, OnOk};
ghost use Rattle.asn1_syntax.specs.types.inside.Reading.{Gives};
ghost use Rattle.asn1_syntax.specs.types.Members.{no_parts, all_parts, with_part, extended, is_full, has_name};
ghost use Rattle.asn1_syntax.specs.types.inside.Members.{can_extend, new_name_at, list_goes_on_at, name_entry_at, names_turn_at, names_at};

use crate::types::definition::Extensible;
use crate::types::fault::{ModuleReason, ReadError};
use crate::types::items::Items;
use crate::types::reader::Reader;
use asn1_tokens::{Sign, is_text};
use gnb_types::octets::{Memory, Octets};
use std::alloc::Global;

const ROOT_PARTS: usize = 256;

const ADDITIONS: usize = 64;

impl<T> Extensible<T> {
    /// No parts.
    pub fn new(alloc: Global) -> Extensible<T>
        ensures { result ≡ no_parts }
    {
        Extensible {
            root: Items::new(alloc),
            additions: None,
        }
    }

    /// `...` may follow a root of at least this many parts, and once.
    pub fn can_extend(&self, least: usize) -> bool
        ensures { result ≡ can_extend least self.now }
    {
        self.additions.is_none() && least <= self.root.len()
    }

    /// As many parts as a type may have.
    pub fn is_full(&self) -> bool
        ensures { result ≡ is_full self.now }
    {
        match &self.additions {
            None => self.root.len() >= ROOT_PARTS,
            Some(added) => added.len() >= ADDITIONS,
        }
    }
}

impl<T: Drop> Extensible<T> {
    /// Puts `...` behind the root.
    pub fn extend(&mut self, alloc: Global)
        ensures { self.new ≡ extended self.old }
    {
        self.additions = Some(Items::new(alloc));
    }

    /// One more part, of the root or of the additions. After an error the state is unspecified.
    pub fn put(&mut self, part: T) -> Result<(), Memory>
        ensures { OnOk result (self.new ≡ with_part self.old part) }
    {
        match &mut self.additions {
            None => self.root.push(part),
            Some(added) => added.push(part),
        }
    }
}

/// The name is among these.
pub fn has_name(name: &[u8], names: &[Octets]) -> bool
    ensures { result ≡ has_name name.now names.now }
{
    names.iter().any(|other| is_text(other.as_slice(), name))
}

impl Extensible<Octets> {
    fn has_name(&self, name: &[u8]) -> bool
        ensures { result ≡ has_name name.now (all_parts self.now) }
    {
        if has_name(name, self.root.as_slice()) {
            return true;
        }
        match &self.additions {
            None => false,
            Some(added) => has_name(name, added.as_slice()),
        }
    }
}

impl<'a> Reader<'a> {
    /// Takes the sign behind a list's entry, and answers whether the list goes on.
    #[tactic(auto, unfolding(crate::specs::types::inside::Members::list_goes_on_at))]
    pub fn list_goes_on(&mut self) -> Result<bool, ReadError>
        ensures { Gives (λ more. (more, self.new)) result (list_goes_on_at self.old) }
    {
        if self.begins_with_sign(Sign::Comma) {
            self.sign(Sign::Comma)?;
            return Ok(true);
        }
        self.sign(Sign::RightBrace)?;
        Ok(false)
    }

    /// Takes a name of an ENUMERATED, or its `...`.
    #[tactic(auto, unfolding(crate::specs::types::inside::Members::name_entry_at, crate::specs::types::inside::Members::new_name_at))]
    fn name_entry(&mut self, names: &mut Extensible<Octets>) -> Result<(), ReadError>
        ensures { Gives (λ _. (names.new, self.new)) result (name_entry_at names.old self.old) }
    {
        if names.can_extend(1) && self.begins_with_sign(Sign::Ellipsis) {
            self.sign(Sign::Ellipsis)?;
            names.extend(self.alloc());
            return Ok(());
        }
        let bounds = self.fault(ModuleReason::Bounds);
        let twice = self.fault(ModuleReason::Twice);
        let name = self.lower()?;
        if names.is_full() {
            return Err(ReadError::Fault(bounds));
        }
        if names.has_name(name.as_slice()) {
            return Err(ReadError::Fault(twice));
        }
        names.put(name)?;
        Ok(())
    }

    /// Takes an entry of an ENUMERATED, and answers whether another one follows.
    #[tactic(auto, unfolding(crate::specs::types::inside::Members::names_turn_at))]
    fn names_turn(&mut self, names: &mut Extensible<Octets>) -> Result<bool, ReadError>
        ensures { Gives (λ more. (more, names.new, self.new)) result (names_turn_at names.old self.old) }
    {
        self.name_entry(names)?;
        self.list_goes_on()
    }

    /// Takes the names of an ENUMERATED, up to its brace, in at most so many turns.
    #[tactic(auto, using(crate::proofs::types::Loops::repeat_turn, crate::proofs::types::Loops::repeat_end), unfolding(crate::specs::types::inside::Members::names_at))]
    pub fn names(&mut self, turns: u64) -> Result<Extensible<Octets>, ReadError>
        ensures { Gives (λ names. (names, self.new)) result (names_at turns self.old) }
    {
        let mut names = Extensible::new(self.alloc());
        for _ in 0..turns {
            if !self.names_turn(&mut names)? {
                return Ok(names);
            }
        }
        Err(self.unexpected())
    }
}
