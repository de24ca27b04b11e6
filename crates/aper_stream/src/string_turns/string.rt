//! A string of which some units are there.

ghost use Rattle.std.specs.Prelude.{◌≡◌, ℕ, List, [], OnOk};
ghost use Rattle.aper_defs.specs.Bounds.{IsSizeBounded};
ghost use Rattle.aper_defs.specs.Fields.{Path};
ghost use Rattle.aper_defs.specs.Parts as parts;
ghost use Rattle.aper_defs.specs.Parts.{of_characters};
ghost use Rattle.aper_defs.specs.Questions.{Prog, ask_string};
ghost use Rattle.aper_cursor.specs.Questions.{unit_of};
ghost use Rattle.aper_cursor.specs.strings.Contents.{content_of};
ghost use Rattle.aper_stream.specs.declared.string_turns.field.StringField.TheVariants as next;
ghost use Rattle.aper_stream.specs.string_turns.Strings.{field_left, string_left, with_parts, IsRunOf, IsFieldBounded, AreOthersBounded, TakesString};

use crate::string_turns::field::{Parts, StringField, after_field};
use aper_cursor::asking::{ask_one, ask_run};
use aper_cursor::strings::Content;
use aper_cursor::{Cursor, Question, RunUnit, Unanswered};
use asn1_syntax::types::Size;
use std::alloc::Global;

/// A string of which some units are there, and what comes next of it.
#[derive(Drop)]
pub struct StringLeft {
    pub content: Content,
    pub units: Vec<u8>,
    pub field: StringField,
}

impl StringLeft {
    /// A string of which nothing is there.
    pub fn new(alloc: Global, content: Content, size: Option<Size>) -> StringLeft
        requires { IsSizeBounded size }
        ensures asked { (p : Path) (K : List ℕ → Prog) → string_left result p K ≡ ask_string p (content_of content) size K }
        ensures content { result.content ≡ content }
        ensures bounded { (place : ℕ) → IsFieldBounded place result.field }
    {
        StringLeft {
            content,
            units: Vec::new(alloc),
            field: StringField::All(size),
        }
    }

    /// Takes the next field. Where it isn't there, all stays as it was.
    pub fn take_field(&mut self, alloc: Global, cursor: &mut Cursor) -> Result<(), Unanswered>
        requires { IsFieldBounded cursor.old.place self.old.field }
        ensures asked { TakesString self.old self.new cursor.old cursor.new result }
        ensures bounded { OnOk result (IsFieldBounded cursor.new.place self.new.field) }
        ensures content { OnOk result (self.new.content ≡ self.old.content) }
    {
        match self.field {
            StringField::Units { count, others } => self.take_units(alloc, cursor, count, others),
            field => {
                self.field = after_field(cursor, self.content, field)?;
                Ok(())
            }
        }
    }

    /// Takes units: all of them as they stand, or a character.
    fn take_units(
        &mut self,
        alloc: Global,
        cursor: &mut Cursor,
        count: u32,
        others: Option<Parts>,
    ) -> Result<(), Unanswered>
        requires bounded { IsFieldBounded cursor.old.place self.old.field }
        requires units { self.old.field ≡ next.Units count others }
        ensures asked { TakesString self.old self.new cursor.old cursor.new result }
        ensures bounded { OnOk result (IsFieldBounded cursor.new.place self.new.field) }
        ensures content { OnOk result (self.new.content ≡ self.old.content) }
    {
        match self.content {
            Content::Bits => self.take_run(alloc, cursor, RunUnit::Bit, count, others),
            Content::Octets => self.take_run(alloc, cursor, RunUnit::Octet, count, others),
            Content::Characters => self.take_character(cursor, count, others),
        }
    }

    /// Takes all units of a part, as they stand.
    fn take_run(
        &mut self,
        alloc: Global,
        cursor: &mut Cursor,
        unit: RunUnit,
        count: u32,
        others: Option<Parts>,
    ) -> Result<(), Unanswered>
        requires bounded { IsFieldBounded cursor.old.place self.old.field }
        requires units { self.old.field ≡ next.Units count others }
        requires kind { IsRunOf (content_of self.old.content) (unit_of unit) }
        ensures asked { TakesString self.old self.new cursor.old cursor.new result }
        ensures bounded { OnOk result (IsFieldBounded cursor.new.place self.new.field) }
        ensures content { OnOk result (self.new.content ≡ self.old.content) }
    {
        let mut run = Vec::new(alloc);
        ask_run(cursor, unit, count, &mut run)?;
        self.units.extend_from_slice(run.as_slice())?;
        self.field = after_units(others);
        Ok(())
    }

    /// Takes a character.
    fn take_character(
        &mut self,
        cursor: &mut Cursor,
        count: u32,
        others: Option<Parts>,
    ) -> Result<(), Unanswered>
        requires bounded { IsFieldBounded cursor.old.place self.old.field }
        requires units { self.old.field ≡ next.Units count others }
        requires kind { content_of self.old.content ≡ of_characters }
        ensures asked { TakesString self.old self.new cursor.old cursor.new result }
        ensures bounded { OnOk result (IsFieldBounded cursor.new.place self.new.field) }
        ensures content { OnOk result (self.new.content ≡ self.old.content) }
    {
        if count == 0 {
            self.field = after_units(others);
            return Ok(());
        }
        let character = ask_one(cursor, Question::Character)?;
        self.units.push(character as u8)?;
        self.field = StringField::Units {
            count: count - 1,
            others,
        };
        Ok(())
    }
}

/// What comes after all units of a part.
fn after_units(others: Option<Parts>) -> StringField
    ensures asked { (content : parts.Content) (p : Path) (K : List ℕ → Prog) → field_left content result p K ≡ with_parts content others p K [] }
    ensures bounded { (place : ℕ) → AreOthersBounded place others → IsFieldBounded place result }
{
    match others {
        None => StringField::Nothing,
        Some(parts) => StringField::Length(parts),
    }
}
