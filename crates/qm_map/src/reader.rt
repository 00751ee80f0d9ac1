ghost use Rattle.std.specs.Prelude.{◌≡◌, [], ◌∷◌, ◌++◌, IfOk, OnOk};
ghost use Rattle.qm_grammar.specs.Prefix.{between_entities};
ghost use Rattle.qm_grammar.specs.inner.Machine.{step, step_outside, step_entity, step_value, step_brush, with_value, without_brush, is_bad_origin};
ghost use Rattle.qm_map.specs.Stepping.{IsStep};

use crate::empties::Empties;
use crate::list::take_all;
use crate::origin::{is_origin_key, lacks_behind, origin_of};
use crate::slots::behind_first;
use crate::sort::sort_of;
use crate::stop::Stop;
use qm_grammar::{Context, Mark, Refusal, Slot, Sort};
use qm_lists::Items;
use qm_mapfile::{Brush, Entity, Face, MapFile, Pair, Text};
use qm_tokens::TokenKind;
use std::alloc::{AllocError, Global};
use std::marker::Model;
use std::mem;

/// Takes the tokens of a map one by one. Contracts see it as what the tokens so far have spelled.
#[derive(Drop)]
pub struct Reader {
    pub(crate) alloc: Global,
    pub(crate) context: Context,
    entities: Vec<Entity>,
    pairs: Vec<Pair>,
    brushes: Vec<Brush>,
    key: Text,
    pub(crate) faces: Vec<Face>,
    pub(crate) numbers: Vec<i32>,
    pub(crate) texts: Vec<Text>,
    pub(crate) left: &'static [Slot],
    /// No pair of the open entity has the key `origin`.
    lacks_origin: bool,
    empties: Empties,
}

impl Model for Reader {
    ghost use Rattle.std.specs.Prelude.{◌≡◌, length, All, is_none};
    ghost use Rattle.qm_space.specs.Point.{IsThousandths};
    ghost use Rattle.qm_grammar.specs.Prefix.{Prefix};
    ghost use Rattle.qm_grammar.specs.Origin.{origin_key, value_of};
    ghost use Rattle.qm_map.specs.inner.Steady.{HasDueParts};

    ghost Value = { Prefix };

    ghost view = { λ r. record {
      context = r.context;
      entities = r.entities.items;
      pairs = r.pairs.items;
      brushes = r.brushes.items;
      key = r.key;
      faces = r.faces.items;
      numbers = r.numbers.items;
      texts = r.texts.items;
      left = r.left.now;
    } };

    ghost invariant = { λ r.
        All IsThousandths r.numbers.items
        × HasDueParts r.context (length r.numbers.items) (length r.texts.items) r.left.now
        × (r.lacks_origin ≡ is_none (value_of origin_key r.pairs.items)) };
}

impl Reader {
    /// Before the first token.
    pub fn new(alloc: Global) -> Result<Reader, AllocError>
        ensures { IfOk result (λ reader. reader ≡ between_entities []) }
    {
        let empties = Empties::new(alloc)?;
        Ok(Reader {
            alloc,
            context: Context::Outside,
            entities: Vec::new(alloc),
            pairs: Vec::new(alloc),
            brushes: Vec::new(alloc),
            key: Text::new(alloc),
            faces: Vec::new(alloc),
            numbers: Vec::new(alloc),
            texts: Vec::new(alloc),
            left: &[],
            lacks_origin: true,
            empties,
        })
    }

    /// Where in a map it stands.
    pub fn context(&self) -> Context
        ensures { result ≡ self.now.context }
    {
        self.context
    }

    /// The map of the entities that have ended.
    pub fn into_map(self) -> MapFile
        ensures { result ≡ record { entities = self.entities } }
    {
        let Reader { entities, .. } = self;
        MapFile {
            entities: Items::from_vec(entities),
        }
    }

    /// Takes the next token, of this kind and with these bytes. In line with it stands all that the tokens of faces need, which
    /// nearly all tokens of a map are.
    #[inline(always)]
    #[tactic(auto, unfolding(qm_grammar::specs::inner::Machine::step))]
    pub fn accept(&mut self, kind: TokenKind, bytes: &[u8]) -> Result<(), Stop>
        ensures { IsStep result self.new (step self.old (record { kind = kind; bytes = bytes.now })) }
    {
        match self.context {
            Context::Outside => self.step_outside(sort_of(kind, bytes)),
            Context::Entity => self.step_entity(sort_of(kind, bytes), bytes),
            Context::Value => self.step_value(sort_of(kind, bytes), bytes),
            Context::Brush => self.step_brush(sort_of(kind, bytes)),
            Context::Face => self.step_face(kind, bytes),
        }
    }

    #[tactic(auto, unfolding(qm_grammar::specs::inner::Machine::step_outside))]
    fn step_outside(&mut self, sort: Sort) -> Result<(), Stop>
        requires { self.old.context ≡ Context.Outside }
        ensures { IsStep result self.new (step_outside self.old sort) }
    {
        match sort {
            Sort::Mark(Mark::OpenBrace) => {
                self.context = Context::Entity;
                Ok(())
            }
            _ => Err(Stop::Refused(Refusal::Unexpected)),
        }
    }

    #[tactic(auto, unfolding(qm_grammar::specs::inner::Machine::step_entity))]
    fn step_entity(&mut self, sort: Sort, bytes: &[u8]) -> Result<(), Stop>
        requires { self.old.context ≡ Context.Entity }
        ensures { IsStep result self.new (step_entity self.old sort bytes.now) }
    {
        match sort {
            Sort::Quoted => {
                self.key = Text::from_slice(self.alloc, bytes)?;
                self.context = Context::Value;
                Ok(())
            }
            Sort::Mark(Mark::OpenBrace) => {
                self.context = Context::Brush;
                Ok(())
            }
            Sort::Mark(Mark::CloseBrace) => {
                self.end_entity()?;
                Ok(())
            }
            _ => Err(Stop::Refused(Refusal::Unexpected)),
        }
    }

    /// Puts the open entity to the others.
    #[inline]
    fn end_entity(&mut self) -> Result<(), AllocError>
        ensures { OnOk result (self.new ≡ between_entities (self.old.entities ++ (record { pairs = self.old.pairs; brushes = self.old.brushes }) ∷ [])) }
    {
        let pairs = take_all(self.alloc, &mut self.pairs)?;
        self.lacks_origin = true;
        let entity = self
            .empties
            .entity_of(self.alloc, pairs, &mut self.brushes)?;
        self.context = Context::Outside;
        self.key = Text::new(self.alloc);
        self.faces.clear();
        self.numbers.clear();
        self.texts.clear();
        self.left = &[];
        self.entities.push(entity)?;
        Ok(())
    }

    #[tactic(auto, unfolding(qm_grammar::specs::inner::Machine::step_value))]
    fn step_value(&mut self, sort: Sort, bytes: &[u8]) -> Result<(), Stop>
        requires { self.old.context ≡ Context.Value }
        ensures { IsStep result self.new (step_value self.old sort bytes.now) }
    {
        match sort {
            Sort::Quoted => {
                if self.is_bad_origin(bytes) {
                    return Err(Stop::Refused(Refusal::BadOrigin));
                }
                self.end_pair(bytes)?;
                Ok(())
            }
            _ => Err(Stop::Refused(Refusal::Unexpected)),
        }
    }

    /// Whether a value is the first one under the key `origin` in an entity that is not the first, and gives no point.
    #[tactic(auto, unfolding(qm_grammar::specs::inner::Machine::is_bad_origin))]
    fn is_bad_origin(&self, value: &[u8]) -> bool
        ensures { result ≡ is_bad_origin self.now value.now }
    {
        !self.entities.is_empty()
            && is_origin_key(self.key.as_slice())
            && self.lacks_origin
            && origin_of(value).is_none()
    }

    /// Puts the open pair to the others.
    fn end_pair(&mut self, value: &[u8]) -> Result<(), AllocError>
        requires { self.old.context ≡ Context.Value }
        ensures { OnOk result (self.new ≡ with_value self.old value.now) }
    {
        let value = Text::from_slice(self.alloc, value)?;
        let key = mem::replace(&mut self.key, Text::new(self.alloc));
        let lacks_origin = lacks_behind(self.lacks_origin, key.as_slice());
        self.context = Context::Entity;
        self.pairs.push(Pair { key, value })?;
        self.lacks_origin = lacks_origin;
        Ok(())
    }

    #[tactic(auto, unfolding(qm_grammar::specs::inner::Machine::step_brush))]
    fn step_brush(&mut self, sort: Sort) -> Result<(), Stop>
        requires { self.old.context ≡ Context.Brush }
        ensures { IsStep result self.new (step_brush self.old sort) }
    {
        match sort {
            Sort::Mark(Mark::OpenParenthesis) => {
                self.context = Context::Face;
                self.left = behind_first();
                Ok(())
            }
            Sort::Mark(Mark::CloseBrace) => {
                if self.faces.is_empty() {
                    return Err(Stop::Refused(Refusal::NoFaces));
                }
                self.end_brush()?;
                Ok(())
            }
            _ => Err(Stop::Refused(Refusal::Unexpected)),
        }
    }

    /// Puts the open brush to the others.
    fn end_brush(&mut self) -> Result<(), AllocError>
        requires { self.old.context ≡ Context.Brush }
        ensures { OnOk result (self.new ≡ without_brush self.old) }
    {
        let faces = take_all(self.alloc, &mut self.faces)?;
        self.context = Context::Entity;
        self.brushes.push(Brush {
            faces: Items::from_vec(faces),
        })?;
        Ok(())
    }
}
