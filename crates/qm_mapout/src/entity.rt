//! The lines of an entity.

ghost use Rattle.std.specs.Prelude.{◌≡◌, ◌++◌, flat_map, map, All, OnOk};
ghost use Rattle.qm_grammar.specs.Valid.{IsValidBrush, IsValidEntity};
ghost use Rattle.qm_grammar.specs.Lines.{line_text, text_of_lines};
ghost use Rattle.qm_grammar.specs.Printed.{pair_line, face_line, brush_lines, entity_lines};

use crate::face::FaceLine;
use crate::line::{put_close_brace, put_last_quoted, put_open_brace, put_quoted};
use qm_lists::{Encoding, append_all};
use qm_mapfile::{Brush, Entity, Pair};
use std::alloc::AllocError;

/// A key and a value.
struct PairLine;

impl Encoding for PairLine {
    type Value = Pair;

    ghost can_append = { λ _. Unit {0} };

    ghost bytes_of = { λ pair. line_text (pair_line pair) };

    #[tactic(auto, unfolding(qm_grammar::specs::Printed::pair_line, qm_grammar::specs::Lines::line_text))]
    fn append(out: &mut Vec<u8>, pair: &Pair) -> Result<(), AllocError> {
        put_quoted(out, pair.key.as_slice())?;
        put_last_quoted(out, pair.value.as_slice())
    }
}

/// The faces of a brush, between braces.
struct BrushLines;

impl Encoding for BrushLines {
    type Value = Brush;

    ghost can_append = { IsValidBrush };

    ghost bytes_of = { λ brush. text_of_lines (brush_lines brush) };

    #[tactic(auto, unfolding(qm_grammar::specs::Printed::brush_lines))]
    fn append(out: &mut Vec<u8>, brush: &Brush) -> Result<(), AllocError> {
        put_open_brace(out)?;
        append_all::<FaceLine>(out, brush.faces.as_slice())?;
        put_close_brace(out)
    }
}

/// The pairs and then the brushes of an entity, between braces.
pub(crate) struct EntityLines;

impl Encoding for EntityLines {
    type Value = Entity;

    ghost can_append = { IsValidEntity };

    ghost bytes_of = { λ entity. text_of_lines (entity_lines entity) };

    #[tactic(auto, unfolding(qm_grammar::specs::Printed::entity_lines))]
    fn append(out: &mut Vec<u8>, entity: &Entity) -> Result<(), AllocError> {
        put_open_brace(out)?;
        append_all::<PairLine>(out, entity.pairs.as_slice())?;
        append_all::<BrushLines>(out, entity.brushes.as_slice())?;
        put_close_brace(out)
    }
}
