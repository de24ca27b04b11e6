//! A decoder whose octets come in pieces.

ghost use Rattle.std.specs.Prelude.{◌≡◌, ◌≤◌, ◌<◌, ◌++◌, [], length, take, IfOk};
ghost use Rattle.aper_values.specs.types.Types.{tree};
ghost use Rattle.aper_defs.specs.declared.reason.Reason.TheVariants as reasons;
ghost use Rattle.aper_frames.specs.Frames.{path_of};
ghost use Rattle.aper_decode.specs.Decoding.{Decodes};
ghost use Rattle.aper_decode.specs.Turns.{IsRefusal};
ghost use Rattle.aper_stream.specs.decoder.Feeding.{reading, tree_of, Feeds, Finishes};
ghost use Rattle.aper_stream.specs.decoder.inside.Reading.{end_of};
ghost use Rattle.aper_stream.specs.decoder.inside.States.{type_of, front, IsFed, IsStateSound, IsSameType, IsNew, PieceEnds, StateAfter, IsStateOf, ReadsPiece, Advances, Answers, UnlessFailed, FinishesState, Gives};

use crate::decoder::spot::Spot;
use crate::decoder::turns::{End, take_turns};
use crate::resuming::Pending;
use crate::steps::{Next, begun};
use aper_decode::DecodeError;
use aper_defs::Reason;
use aper_frames::{Stack, path_of};
use aper_values::value::Value;
use asn1_module::{Module, TypeId};
use gnb_types::items::Memory;
use std::alloc::Global;
use std::marker::Model;

/// An encoding has at most 131,072 octets. One octet more shows that it is longer, and what comes after that changes no answer.
const FRONT: usize = 131_073;

/// What a piece leads to.
#[derive(Clone, Copy, Debug, PartialEq, Eq)]
pub enum Step {
    /// More octets are awaited.
    More,
    /// The value is there, and its last octet is among so many of this piece.
    Done { used: usize },
}

/// What a decoder is at.
#[derive(Drop)]
enum State<'m> {
    /// This comes next.
    Reading(Next<'m>),
    /// The value is there, with so many octets of the last piece.
    Done(Value, usize),
    Refused(u64, Reason),
    Failed,
}

/// The octets of the pieces, and the values inside which another one is being read.
#[derive(Drop)]
struct Reader<'m> {
    module: &'m Module,
    id: TypeId,
    alloc: Global,
    kept: Vec<u8>,
    spot: Spot,
    frames: Stack<'m>,
}

/// A decoder of one value. It keeps the octets of its pieces, up to and with the piece that ends it. Between two pieces stand the values
/// inside which another one is being read, and what comes next: of that alone fields are read again, and there are few.
#[derive(Drop)]
pub struct Decoder<'m> {
    reader: Reader<'m>,
    state: State<'m>,
}

impl<'m> Model for Decoder<'m> {
    ghost use Rattle.std.specs.Coded.{codes};
    ghost use Rattle.aper_values.specs.contracts.value.Value as value;
    ghost use Rattle.aper_stream.specs.decoder.Feeding.{Decoding};
    ghost use Rattle.aper_stream.specs.decoder.inside.States.{decoding_of, IsSound};

    ghost Value = { Decoding };

    ghost coded = { Prim.hlevel (codes, value.the_row.coded) };

    ghost view = { decoding_of };

    ghost invariant = { IsSound };
}

impl<'m> Decoder<'m> {
    /// A decoder of a value of this type, without octets.
    pub fn new(alloc: Global, module: &'m Module, id: TypeId) -> Decoder<'m>
        requires { id.number < length module.now.nodes }
        ensures { result ≡ record { types = module.now; id = id; now = reading [] } }
    {
        Decoder {
            reader: Reader::new(alloc, module, id),
            state: State::Reading(begun(alloc, module, Pending::Read(id))),
        }
    }

    /// One more piece.
    pub fn feed(&mut self, piece: &[u8]) -> Result<Step, DecodeError<'m>>
        ensures types { self.new.types ≡ self.old.types }
        ensures id { self.new.id ≡ self.old.id }
        ensures answer { Feeds (tree_of self.old) self.old.now piece.now self.new.now result }
    {
        let before = std::mem::replace(&mut self.state, State::Failed);
        let state = self.reader.advance(before, piece);
        let answer = self.reader.answer(&state);
        self.state = unless_failed(state, &answer);
        answer
    }

    /// The value that all pieces gave, or the first wrong field of the octets.
    pub fn finish(self) -> Result<Value, DecodeError<'m>>
        ensures { Finishes (tree_of self.entry) self.entry.now result }
    {
        finished(self.reader, self.state)
    }
}

impl<'m> Reader<'m> {
    /// Before the first octet.
    fn new(alloc: Global, module: &'m Module, id: TypeId) -> Reader<'m>
        ensures { IsNew module.now id result }
    {
        Reader {
            module,
            id,
            alloc,
            kept: Vec::new(alloc),
            spot: Spot {
                place: 0,
                spans: Vec::new(alloc),
            },
            frames: Stack::new(alloc),
        }
    }

    /// Takes a piece, where octets are awaited.
    fn advance(&mut self, state: State<'m>, piece: &[u8]) -> State<'m>
        requires { IsStateSound self.old state }
        ensures { Advances self.old state.entry piece.now self.new result }
    {
        match state {
            State::Reading(next) => self.read(next, piece),
            State::Done(value, _) => State::Done(value, 0),
            State::Refused(bit, reason) => State::Refused(bit, reason),
            State::Failed => State::Failed,
        }
    }

    /// Takes a piece, and goes on with what comes next.
    fn read(&mut self, next: Next<'m>, piece: &[u8]) -> State<'m>
        requires { IsFed self.old next }
        ensures same { IsSameType self.old self.new }
        ensures reads { ReadsPiece self.old piece.now self.new result }
    {
        let before = self.kept.len();
        match self.take_piece(next, piece) {
            Err(_) => State::Failed,
            Ok(end) => state_after(before, end),
        }
    }

    /// Takes turns over the octets of one more piece too.
    fn take_piece(&mut self, next: Next<'m>, piece: &[u8]) -> Result<End<'m>, Memory>
        requires { IsFed self.old next }
        ensures same { IsSameType self.old self.new }
        ensures kept { IfOk result (λ end. self.new.kept.items ≡ self.old.kept.items ++ piece.now) }
        ensures ends { IfOk result (PieceEnds self.new) }
    {
        self.kept.extend_from_slice(piece)?;
        take_turns(
            self.alloc,
            self.module,
            front(self.kept.as_slice()),
            &mut self.spot,
            &mut self.frames,
            next,
        )
    }

    /// What is answered to a piece.
    fn answer(&self, state: &State<'m>) -> Result<Step, DecodeError<'m>>
        ensures { Answers self.now state.now result }
    {
        match state {
            State::Reading(_) => Ok(Step::More),
            State::Done(_, used) => Ok(Step::Done { used: *used }),
            State::Refused(bit, reason) => Err(refused(self.alloc, *bit, &self.frames, *reason)),
            State::Failed => Err(DecodeError::Memory),
        }
    }

    /// The value of all octets, with those of a last piece, or their first wrong field.
    fn end(mut self, next: Next<'m>, piece: &[u8]) -> Result<Value, DecodeError<'m>>
        requires { IsFed self next }
        ensures { Decodes (type_of self.entry) (self.entry.kept.items ++ piece.now) result }
    {
        match self.take_piece(next, piece) {
            Ok(end) => self.ended(end),
            Err(_) => Err(DecodeError::Memory),
        }
    }

    /// What turns gave that ended so, where no octets come any more.
    fn ended(&self, end: End<'m>) -> Result<Value, DecodeError<'m>>
        ensures { Gives (end_of (length (front self.now.kept.items)) self.now.frames end.entry) result }
    {
        match end {
            End::Whole(value, place) => {
                let octets = front(self.kept.as_slice());
                if place == 8 * octets.len() as u64 {
                    Ok(value)
                } else {
                    drop(value);
                    Err(left_over(self.alloc, place))
                }
            }
            End::Wrong(bit, reason, _) => Err(refused(self.alloc, bit, &self.frames, reason)),
        }
    }
}

/// The value of a type of a module that these octets spell, or their first wrong field: what one piece and the end give.
pub fn decode<'m>(
    alloc: Global,
    module: &'m Module,
    id: TypeId,
    octets: &[u8],
) -> Result<Value, DecodeError<'m>>
    requires { id.number < length module.now.nodes }
    ensures { Decodes (tree module.now id.number) octets.now result }
{
    let next = begun(alloc, module, Pending::Read(id));
    Reader::new(alloc, module, id).end(next, octets)
}

/// What a decoder is at where turns ended, after so many octets of the pieces before.
fn state_after<'m>(before: usize, end: End<'m>) -> State<'m>
    ensures { StateAfter before end.entry result }
{
    match end {
        End::Whole(value, place) => {
            // It is never less, by the laws of octets that come in pieces.
            let size = (place / 8) as usize;
            State::Done(value, size.saturating_sub(before))
        }
        End::Wrong(bit, reason, next) => unless_cut(bit, reason, next),
    }
}

/// What a decoder is at where a field is wrong, unless octets end there.
fn unless_cut<'m>(bit: u64, reason: Reason, next: Next<'m>) -> State<'m>
    ensures { IsStateOf bit reason next.entry result }
{
    match reason {
        Reason::Truncated => State::Reading(next),
        _ => State::Refused(bit, reason),
    }
}

/// The state, unless memory ran out.
fn unless_failed<'m>(state: State<'m>, answer: &Result<Step, DecodeError<'m>>) -> State<'m>
    ensures { UnlessFailed state.entry answer.now result }
{
    match answer {
        Ok(_) => state,
        Err(DecodeError::Refused { .. }) => state,
        Err(DecodeError::Memory) => State::Failed,
    }
}

/// What is answered at the end.
fn finished<'m>(reader: Reader<'m>, state: State<'m>) -> Result<Value, DecodeError<'m>>
    requires { IsStateSound reader state }
    ensures { FinishesState reader.entry state.entry result }
{
    match state {
        State::Reading(next) => reader.end(next, &[]),
        State::Done(value, _) => Ok(value),
        State::Refused(bit, reason) => Err(refused(reader.alloc, bit, &reader.frames, reason)),
        State::Failed => Err(DecodeError::Memory),
    }
}

/// The refusal at this place.
fn refused<'m>(alloc: Global, bit: u64, frames: &Stack<'m>, reason: Reason) -> DecodeError<'m>
    ensures { IsRefusal bit reason (path_of frames.now) result }
{
    match path_of(alloc, frames) {
        Ok(path) => DecodeError::Refused { bit, reason, path },
        Err(_) => DecodeError::Memory,
    }
}

/// The refusal of octets that are left after a value.
fn left_over<'m>(alloc: Global, bit: u64) -> DecodeError<'m>
    ensures { IsRefusal bit reasons.Tail [] result }
{
    DecodeError::Refused {
        bit,
        reason: Reason::Tail,
        path: Vec::new(alloc),
    }
}

/// These octets as far as they are looked at.
fn front(octets: &[u8]) -> &[u8]
    ensures front { result.now ≡ take 131073 octets.now }
    ensures short { length result.now ≤ 131073 }
{
    if octets.len() > FRONT {
        &octets[..FRONT]
    } else {
        octets
    }
}
