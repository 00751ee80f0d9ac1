//! What a tree file answers to a query.

ghost use Rattle.std.specs.Prelude.{◌≡◌, IfOk, Result};
ghost use Rattle.qm_partition.specs.Counting.{leaves_of};
ghost use Rattle.qm_formats.specs.TreeFile.{IsValidFile};
ghost use Rattle.qm_answers.specs.Answers.{AnswersQuery, answer_to_count};
ghost use Rattle.qm_answers.specs.Printable.{IsPrintable};
ghost use Rattle.qm_inspect.specs.inner.BlockCounts.{AreBlockCounts};
ghost use Rattle.qm_inspect.specs.Parts.{ArePartsOf};

use crate::faces::{face, faces};
use crate::hulls::hull;
use crate::models::{model, model_at};
use crate::numbered::numbered;
use crate::parts::Parts;
use crate::places::place;
use crate::rows::{row, sees};
use crate::traces::{hull_trace, trace};
use qm_answers::{Answer, QueryFault};
use qm_commands::Query;
use qm_file::TreeFile;

/// What a tree file answers to a query. `OutsideCube` exactly for a point that is not strictly inside the cube of the file's
/// bound, `NoSuchLeaf` exactly for a number that no numbered leaf has, `NoRows` exactly where that leaf is there and rows are not.
/// For a hull at a point inside, `NoPart` exactly where the file has no section of it, and `BadPart` exactly where its reader
/// refuses that section. For a trace the same, of both ends, and then `TooWide` exactly where the plane of a node is too far.
/// For a model the same as for a hull, and then `NoSuchModel` exactly where the section has none of that entity. For faces the
/// same, and for one of them then `NoSuchFace` exactly where there are not that many. It takes no memory.
pub fn query(file: &TreeFile, parts: &Parts, ask: &Query) -> Result<Answer, QueryFault>
    requires valid { IsValidFile file.now }
    requires parts { ArePartsOf file.now parts.now }
    ensures answers { AnswersQuery file.now ask.now result }
    ensures printable { IfOk result (IsPrintable file.now) }

    // There is no other answer.
    ensures only { (other : Result Answer QueryFault) → AnswersQuery file.now ask.now other → other ≡ result }
{
    answer(file, parts, &NONE_BEFORE, ask)
}

/// Before the first block of leaves none is numbered.
const NONE_BEFORE: [u64; 1] = [0];

/// What a tree file answers to a query, where it was counted how many leaves are numbered before the first blocks of leaves.
#[tactic(auto, unfolding(qm_answers::specs::Answers::AnswersQuery))]
pub(crate) fn answer(
    file: &TreeFile,
    parts: &Parts,
    counts: &[u64],
    ask: &Query,
) -> Result<Answer, QueryFault>
    requires valid { IsValidFile file.now }
    requires parts { ArePartsOf file.now parts.now }
    requires counts { AreBlockCounts (leaves_of file.now.tree.shape) counts.now }
    ensures { AnswersQuery file.now ask.now result }
{
    match *ask {
        Query::Count => Ok(count(file, counts)),
        Query::At { x, y, z } => place(file, counts, x, y, z),
        Query::Hull {
            hull: number,
            x,
            y,
            z,
        } => hull(file, parts, number, x, y, z),
        Query::Trace { from, to } => trace(file, parts, from, to),
        Query::HullTrace {
            hull: number,
            from,
            to,
        } => hull_trace(file, parts, number, from, to),
        Query::Model(entity) => model(&parts.models, entity),
        Query::ModelAt { entity, x, y, z } => model_at(file, parts, entity, x, y, z),
        Query::Faces => faces(&parts.faces),
        Query::Face(n) => face(&parts.faces, n),
        Query::Row(n) => row(file, counts, n),
        Query::Sees(n, m) => sees(file, counts, n, m),
        Query::Parts => Ok(Answer::Parts),
    }
}

/// How much there is in a file.
fn count(file: &TreeFile, counts: &[u64]) -> Answer
    requires valid { IsValidFile file.now }
    requires counts { AreBlockCounts (leaves_of file.now.tree.shape) counts.now }
    ensures { result ≡ answer_to_count file.now }
{
    let tree = &file.tree;
    Answer::Count {
        planes: u64::from(tree.planes()),
        nodes: tree.nodes(),
        leaves: tree.leaves(),
        numbered: numbered(file, counts),
        rows: file.rows.is_some(),
    }
}
