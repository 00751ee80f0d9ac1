//! The steps of a reader within a face.

ghost use Rattle.std.specs.Prelude.{◌≡◌, ◌+◌, ◌==◌, ◌&&◌, not, true, false, [], ◌∷◌, Ok, MatchOption, OnOk, length};
ghost use Rattle.qm_grammar.specs.Slots.{points_of};
ghost use Rattle.qm_grammar.specs.Symbol.{sort_of};
ghost use Rattle.qm_grammar.specs.inner.Machine.{step_face, step_slot, step_mark, with_face, with_left, with_number, with_text, coordinate_of, give_plane, plane_refusal};
ghost use Rattle.qm_map.specs.inner.Steady.{HasDueParts, IsAwaiting};
ghost use Rattle.qm_map.specs.Stepping.{IsStep};

use crate::face::{face_of, refusal_of_points};
use crate::number::coordinate;
use crate::reader::Reader;
use crate::slots::{behind_bracket, behind_word};
use crate::sort::{is_mark, sort_of};
use crate::stop::Stop;
use qm_grammar::{Context, Mark, Refusal, Slot, Sort};
use qm_mapfile::Text;
use qm_tokens::TokenKind;
use std::alloc::AllocError;

impl Reader {
    /// Takes a token of a face.
    #[inline(always)]
    pub(crate) fn step_face(&mut self, kind: TokenKind, bytes: &[u8]) -> Result<(), Stop>
        requires { self.old.context ≡ Context.Face }
        ensures { IsStep result self.new (step_face self.old self.old.left (sort_of (record { kind = kind; bytes = bytes.now })) bytes.now) }
    {
        match self.left {
            [slot, others @ ..] => self.step_slot(*slot, others, kind, bytes),
            [] => Err(Stop::Refused(Refusal::Unexpected)),
        }
    }

    /// Takes a token where this slot is due. Its sort is asked for where the slot is known, and so for no more than the slot needs.
    #[inline(always)]
    #[tactic(auto, unfolding(qm_grammar::specs::inner::Machine::step_slot))]
    fn step_slot(
        &mut self,
        slot: Slot,
        others: &'static [Slot],
        kind: TokenKind,
        bytes: &[u8],
    ) -> Result<(), Stop>
        requires { IsAwaiting self.old (slot ∷ others.now) }
        ensures { IsStep result self.new (step_slot self.old slot others.now (sort_of (record { kind = kind; bytes = bytes.now })) bytes.now) }
    {
        match slot {
            Slot::Mark(due) => self.step_due(due, others, kind, bytes),
            Slot::Coordinate => self.step_coordinate(others, sort_of(kind, bytes), bytes),
            Slot::Texture => self.step_texture(others, sort_of(kind, bytes), bytes),
            Slot::FirstOfMapping => self.step_first(others, sort_of(kind, bytes), bytes),
            Slot::Word => self.step_word(others, sort_of(kind, bytes), bytes),
        }
    }

    /// Takes a token where this mark is due.
    #[inline(always)]
    #[tactic(auto, unfolding(qm_grammar::specs::inner::Machine::step_slot))]
    fn step_due(
        &mut self,
        due: Mark,
        others: &'static [Slot],
        kind: TokenKind,
        bytes: &[u8],
    ) -> Result<(), Stop>
        requires { IsAwaiting self.old (Slot.Mark due ∷ others.now) }
        ensures { IsStep result self.new (step_slot self.old (Slot.Mark due) others.now (sort_of (record { kind = kind; bytes = bytes.now })) bytes.now) }
    {
        if is_mark(due, kind, bytes) {
            self.step_mark(due, others)
        } else {
            Err(Stop::Refused(Refusal::Unexpected))
        }
    }

    /// Takes a token where a coordinate is due.
    #[inline(always)]
    #[tactic(auto, unfolding(qm_grammar::specs::inner::Machine::step_slot))]
    fn step_coordinate(
        &mut self,
        others: &'static [Slot],
        sort: Sort,
        bytes: &[u8],
    ) -> Result<(), Stop>
        requires { IsAwaiting self.old (Slot.Coordinate ∷ others.now) }
        ensures { IsStep result self.new (step_slot self.old Slot.Coordinate others.now sort bytes.now) }
    {
        match sort {
            Sort::Name => self.step_number(others, bytes),
            _ => Err(Stop::Refused(Refusal::Unexpected)),
        }
    }

    /// Takes a token where a texture is due.
    #[inline(always)]
    #[tactic(auto, unfolding(qm_grammar::specs::inner::Machine::step_slot))]
    fn step_texture(
        &mut self,
        others: &'static [Slot],
        sort: Sort,
        bytes: &[u8],
    ) -> Result<(), Stop>
        requires { IsAwaiting self.old (Slot.Texture ∷ others.now) }
        ensures { IsStep result self.new (step_slot self.old Slot.Texture others.now sort bytes.now) }
    {
        match sort {
            Sort::Name => self.step_text(others, bytes),
            Sort::Quoted => self.step_text(others, bytes),
            _ => Err(Stop::Refused(Refusal::Unexpected)),
        }
    }

    /// Takes a token where the first of a mapping is due.
    #[inline(always)]
    #[tactic(auto, unfolding(qm_grammar::specs::inner::Machine::step_slot))]
    fn step_first(&mut self, others: &'static [Slot], sort: Sort, bytes: &[u8]) -> Result<(), Stop>
        requires { IsAwaiting self.old (Slot.FirstOfMapping ∷ others.now) }
        ensures { IsStep result self.new (step_slot self.old Slot.FirstOfMapping others.now sort bytes.now) }
    {
        match sort {
            Sort::Name => self.step_text(behind_word(), bytes),
            Sort::Mark(Mark::OpenBracket) => self.step_over(behind_bracket()),
            _ => Err(Stop::Refused(Refusal::Unexpected)),
        }
    }

    /// Takes a token where a word of a mapping is due.
    #[inline(always)]
    #[tactic(auto, unfolding(qm_grammar::specs::inner::Machine::step_slot))]
    fn step_word(&mut self, others: &'static [Slot], sort: Sort, bytes: &[u8]) -> Result<(), Stop>
        requires { IsAwaiting self.old (Slot.Word ∷ others.now) }
        ensures { IsStep result self.new (step_slot self.old Slot.Word others.now sort bytes.now) }
    {
        match sort {
            Sort::Name => self.step_text(others, bytes),
            _ => Err(Stop::Refused(Refusal::Unexpected)),
        }
    }

    /// Takes the mark that is due. Behind the third point the three have to give a plane.
    #[inline(always)]
    #[tactic(auto, unfolding(qm_grammar::specs::inner::Machine::step_mark))]
    fn step_mark(&mut self, mark: Mark, others: &'static [Slot]) -> Result<(), Stop>
        requires { IsAwaiting self.old others.now }
        ensures { IsStep result self.new (step_mark self.old mark others.now) }
    {
        match mark {
            Mark::CloseParenthesis => {
                if let Some(reason) = self.refusal_of_points() {
                    return Err(Stop::Refused(reason));
                }
                self.step_over(others)
            }
            _ => self.step_over(others),
        }
    }

    /// Why the points that are read give no plane, where there are three and they give none.
    fn refusal_of_points(&self) -> Option<Refusal>
        ensures { MatchOption result ((length self.now.numbers == 9 && not (give_plane (points_of self.now.numbers))) ≡ false)
            (λ reason. ((length self.now.numbers == 9 && not (give_plane (points_of self.now.numbers))) ≡ true) × (reason ≡ plane_refusal (points_of self.now.numbers))) }
    {
        let numbers = self.numbers.as_slice();
        if numbers.len() != 9 {
            return None;
        }
        refusal_of_points(numbers)
    }

    /// Takes a token that gives nothing.
    #[inline(always)]
    fn step_over(&mut self, others: &'static [Slot]) -> Result<(), Stop>
        requires { IsAwaiting self.old others.now }
        ensures { IsStep result self.new (Ok (with_left self.old others.now)) }
    {
        self.left = others;
        self.end_slot()?;
        Ok(())
    }

    /// Takes a token as the coordinate that is due.
    #[inline(always)]
    fn step_number(&mut self, others: &'static [Slot], bytes: &[u8]) -> Result<(), Stop>
        requires { IsAwaiting self.old (Slot.Coordinate ∷ others.now) }
        ensures { IsStep result self.new (with_number self.old others.now (coordinate_of bytes.now)) }
    {
        let number = coordinate(bytes)?;
        self.numbers.push(number)?;
        self.left = others;
        self.end_slot()?;
        Ok(())
    }

    /// Takes a token as a texture or as a word of its mapping.
    #[inline(always)]
    fn step_text(&mut self, others: &'static [Slot], bytes: &[u8]) -> Result<(), Stop>
        requires context { self.old.context ≡ Context.Face }
        requires due { HasDueParts Context.Face (length self.old.numbers) (length self.old.texts + 1) others.now }
        ensures { IsStep result self.new (Ok (with_text self.old others.now bytes.now)) }
    {
        self.texts.push(Text::from_slice(self.alloc, bytes)?)?;
        self.left = others;
        self.end_slot()?;
        Ok(())
    }

    /// Ends the face where no token is due.
    #[inline]
    fn end_slot(&mut self) -> Result<(), AllocError>
        requires { self.old.context ≡ Context.Face }
        ensures { OnOk result (self.new ≡ with_left self.old self.old.left) }
    {
        if self.left.is_empty() {
            self.end_face()?;
        }
        Ok(())
    }

    /// Puts the open face to the others.
    #[inline(never)]
    fn end_face(&mut self) -> Result<(), AllocError>
        requires context { self.old.context ≡ Context.Face }
        requires whole { self.old.left ≡ [] }
        ensures { OnOk result (self.new ≡ with_face self.old) }
    {
        let face = face_of(&self.numbers, &mut self.texts)?;
        self.context = Context::Brush;
        self.numbers.clear();
        self.faces.push(face)?;
        Ok(())
    }
}
