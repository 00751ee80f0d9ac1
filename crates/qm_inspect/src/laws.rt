//! What holds of the answers to queries, whatever is asked.

ghost use Rattle.std.specs.Prelude.{◌≡◌, ◌≢◌, ◌↔◌, ℕ, List, Some, None, Contains};
ghost use Rattle.qm_space.specs.Bounds.{world_extent};
ghost use Rattle.qm_space.specs.Point.{Point, IsInCube};
ghost use Rattle.qm_partition.specs.Tree.{Tree};
ghost use Rattle.qm_spans.specs.declared.span.Span.{Span};
ghost use Rattle.qm_spans.specs.SegmentTrace.{IsSegmentTrace};
ghost use Rattle.qm_spans.specs.ComputedSpans.{trace_of};
ghost use Rattle.qm_formats.specs.TreeFile.{TreeFile as FileRecord};
ghost use Rattle.qm_commands.specs.declared.millionths.Millionths.{Millionths};
ghost use Rattle.qm_formats.specs.Upgraded.{upgraded};
ghost use Rattle.qm_commands.specs.declared.query.Query.{Query};
ghost use Rattle.qm_answers.specs.declared.query_fault.QueryFault.{QueryFault};
ghost use Rattle.qm_model_layout.specs.BrushModel.{BrushModel};
ghost use Rattle.qm_answers.specs.Answers.{point_of, model_of_entity};
ghost use Rattle.qm_answers.specs.AnswerText.{trace_between};
ghost use Rattle.qm_answers.specs.DecodedSections.{AscendByEntity};
ghost use Rattle.qm_answers.specs.AllAnswers.{AreAnswered, IsFirstRefused};
ghost use Rattle.qm_space.specs.InsideBound.{IsInsideBound};
ghost use Rattle.qm_answers.specs.SameAnswers.{HaveSameAnswers};

/// What is told of queries is one text or one refusal, and never both.
pub fn told_once()
    ensures one_text { (file : FileRecord) (queries : List Query) (lines other : List ℕ) → AreAnswered file queries lines → AreAnswered file queries other → lines ≡ other }
    ensures one_refusal { (file : FileRecord) (queries : List Query) (number other : ℕ) (fault other_fault : QueryFault) → IsFirstRefused file 1 queries number fault → IsFirstRefused file 1 queries other other_fault → (number ≡ other) × (fault ≡ other_fault) }
    ensures never_both { (file : FileRecord) (queries : List Query) (lines : List ℕ) (number : ℕ) (fault : QueryFault) → AreAnswered file queries lines → IsFirstRefused file 1 queries number fault → ⊥ }
{}

/// A file and the same file in version 2 have the same answers, but to `parts`, and these the same lines.
pub fn same_answers()
    ensures { (file : FileRecord) → HaveSameAnswers file (upgraded file) }
{}

/// The cube of a file whose bound is the world's extent is the world's cube.
pub fn same_cube()
    ensures { (point : Point) → IsInsideBound world_extent point ↔ IsInCube point }
{}

/// The spans that are printed of a segment are its trace through the tree, and no other spans are. They are what a walk down the
/// tree computes.
pub fn exact_traces()
    ensures are_trace { (tree : Tree) (from to : Millionths) → IsSegmentTrace tree (point_of from) (point_of to) (trace_between tree (point_of from) (point_of to)).0 }
    ensures only { (tree : Tree) (from to : Millionths) (other : List Span) → IsSegmentTrace tree (point_of from) (point_of to) other → other ≡ (trace_between tree (point_of from) (point_of to)).0 }
    ensures computed { (tree : Tree) (from to : Millionths) → (trace_between tree (point_of from) (point_of to)).0 ≡ trace_of tree (point_of from) (point_of to) }
{}

/// The model that answers for an entity is one of the models and has this entity, and where there is none, no model has it. Where
/// entities ascend, as in each section that is read, each model answers for its own.
pub fn exact_models()
    ensures found { (models : List BrushModel) (entity : ℕ) (model : BrushModel) → model_of_entity models entity ≡ Some model → Contains models model × (model.entity ≡ entity) }
    ensures none { (models : List BrushModel) (entity : ℕ) → model_of_entity models entity ≡ None → (model : BrushModel) → Contains models model → model.entity ≢ entity }
    ensures each { (models : List BrushModel) (model : BrushModel) → AscendByEntity 0 models → Contains models model → model_of_entity models model.entity ≡ Some model }
{}
