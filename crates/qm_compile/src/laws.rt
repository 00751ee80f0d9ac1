//! What holds of a run: how it ends over forms that never fail, and that it leaves what it reads; and what the spans of a
//! segment, the brush models and the faces say of a map, in the files that it compiles to.

ghost use Rattle.std.specs.Prelude.{◌≡◌, ℕ, Bool, List, Some, IsTrue, All};
ghost use Rattle.qm_mapfile.specs.declared.entity.MapFile.{MapFile};
ghost use Rattle.qm_contacts.specs.World.{World};
ghost use Rattle.qm_formats.specs.TreeFile.{TreeFile};
ghost use Rattle.qm_model_layout.specs.BrushModel.{BrushModel};
ghost use Rattle.qm_model_files.specs.ReadModels.{AreReadModels, HasModels};
ghost use Rattle.qm_model_files.specs.ExactModels.{AreExactModels};
ghost use Rattle.qm_model_files.specs.SeenModels.{HasLeavesOfPoints, IsShownByLines};
ghost use Rattle.qm_face_layout.specs.declared.face_record.FaceRecord.{FaceRecord};
ghost use Rattle.qm_face_sections.specs.MapFaces.{AreFacesOfMap};
ghost use Rattle.qm_face_files.specs.ReadFaces.{AreReadFaces, HasFaces};
ghost use Rattle.qm_face_files.specs.BoundaryFaces.{AreBoundaryFaces};
ghost use Rattle.qm_shelf.specs.SeenForms.{surroundings};
ghost use Rattle.qm_surroundings.specs.Surroundings.{Surroundings};
ghost use Rattle.qm_commands.specs.declared.map_command.MapCommand.TheVariants.{Compile};
ghost use Rattle.qm_commands.specs.declared.options.Options.{Options as SeenOptions};
ghost use Rattle.qm_commands.specs.FileNames.{FileNames};
ghost use Rattle.qm_commands.specs.Order.{Order, of_map};
ghost use Rattle.qm_commands.specs.Words.{AreWordsOf};
ghost use Rattle.qm_words.specs.SeenWords.{bytes_of_words};
ghost use Rattle.qm_statement.specs.declared.status.Status.{Status as SeenStatus};
ghost use Rattle.qm_statement.specs.declared.status.Status.TheVariants.{Done};
ghost use Rattle.qm_statement.specs.declared.summary.Summary.{Summary as SeenSummary};
ghost use Rattle.qm_statement.specs.CompiledMap.{IsCompiledWithoutLeak, IsCompiledToLeak};
ghost use Rattle.qm_statement.specs.Complete.{MayEndWhereNoneMet};
ghost use Rattle.qm_statement.specs.Headline.{IsHeadline};
ghost use Rattle.qm_statement.specs.KeptFile.{KeepsWhatItReads};
ghost use Rattle.qm_statement.specs.MapSpans.{SpansTellContents, HullSpansTellObstacles};
ghost use Rattle.qm_statement.specs.Run.{Answers};

use crate::program::run;
use qm_crew::Gate;
use qm_shelf::{Shelf, Sink, SureShelf, SureSink};
use qm_statement::Status;
use std::alloc::Global;
use std::thread::Threads;

/// Runs the program over forms that never fail. Each command is done or runs out of memory, but for what it reads: a text may
/// have a fault, and of `compile` an entity may leak; of `inspect` and `upgrade` the bytes may have a fault; of `inspect` a
/// query may be refused.
pub fn run_surely<R: Threads + Sync, G: Gate + Sync>(
    rt: &R,
    alloc: Global,
    words: &[&str],
    shelf: &mut SureShelf,
    out: &mut SureSink,
    gate: &G,
) -> Status
    ensures answers { Answers (bytes_of_words words.now) (surroundings ⟦<SureShelf as Shelf>⟧ ⟦<SureSink as Sink>⟧ shelf.old out.old)
        (surroundings ⟦<SureShelf as Shelf>⟧ ⟦<SureSink as Sink>⟧ shelf.new out.new) result }
    ensures ends { (order : Order) → AreWordsOf order (bytes_of_words words.now) → MayEndWhereNoneMet result order }
{
    run(rt, alloc, words, shelf, out, gate)
}

/// What a successful `compile` means for the tree file in OUT, if the shelf tells what it holds.
pub fn headline()
    ensures { (words : List (List ℕ)) (before after : Surroundings) (options : SeenOptions) (listed : Bool) (files : FileNames) →
        AreWordsOf (of_map (Compile options listed) files) words → IsTrue before.shelf.tells → Answers words before after Done →
        IsHeadline before.shelf after.shelf options files }
{}

/// The file that a command reads, MAP or TREE, is as it was, however the run ends.
pub fn kept_file()
    ensures { (words : List (List ℕ)) (before after : Surroundings) (status : SeenStatus) → Answers words before after status → KeepsWhatItReads words before.shelf after.shelf }
{}

/// Within the spans of a segment through the tree of a map stand the contents that the map's brushes define, unless the span's
/// leaf is filled.
pub fn spans_tell_contents()
    ensures without_leak { (map : MapFile) (options : SeenOptions) (file : TreeFile) (world : World) (summary : SeenSummary) → IsCompiledWithoutLeak map options file world summary → SpansTellContents map file.tree }
    ensures to_leak { (map : MapFile) (file : TreeFile) (entity : ℕ) (trail : List ℕ) → IsCompiledToLeak map file entity trail → SpansTellContents map file.tree }
{}

/// Where the box of a hull, set at some point of a segment, has a point strictly inside an obstacle, some span of the segment
/// through that hull is solid.
pub fn hull_spans_tell_obstacles()
    ensures { (map : MapFile) (options : SeenOptions) (file : TreeFile) (world : World) (summary : SeenSummary) → IsCompiledWithoutLeak map options file world summary → HullSpansTellObstacles map file }
{}

/// With `--models` the file has a section of models, and what is read in it are exactly the models of the map: one for each entity
/// but the world with a full brush that is not clip, with its box, the leaves that it touches, and a tree that gives its contents.
pub fn models_are_exact()
    ensures there { (map : MapFile) (options : SeenOptions) (file : TreeFile) (world : World) (summary : SeenSummary) → IsCompiledWithoutLeak map options file world summary → IsTrue options.models → HasModels file }
    ensures exact { (map : MapFile) (options : SeenOptions) (file : TreeFile) (world : World) (summary : SeenSummary) → IsCompiledWithoutLeak map options file world summary → (models : List BrushModel) → AreReadModels file models → AreExactModels map file.tree models }
{}

/// A point strictly inside a brush of a model, off the node planes of the world's tree, has its leaf among the model's, if that
/// leaf is numbered.
pub fn models_have_leaves_of_points()
    ensures { (map : MapFile) (options : SeenOptions) (file : TreeFile) (world : World) (summary : SeenSummary) → IsCompiledWithoutLeak map options file world summary → (models : List BrushModel) → AreReadModels file models → All (HasLeavesOfPoints map file.tree) models }
{}

/// Where a line of sight ends strictly inside a brush of a model, the row of its first leaf has a leaf of the model.
pub fn lines_of_sight_show_models()
    ensures { (map : MapFile) (options : SeenOptions) (file : TreeFile) (world : World) (summary : SeenSummary) → IsCompiledWithoutLeak map options file world summary → (models : List BrushModel) (rows : List (List Bool)) → AreReadModels file models → file.rows ≡ Some rows → All (IsShownByLines map file.tree rows) models }
{}

/// With `--faces` the file has a section of faces, and what is read in it are exactly the faces of the map by the file's tree: the
/// records of the pieces into which the map's brushes cut the surface between rock and leaves that are not solid.
pub fn faces_are_exact()
    ensures there { (map : MapFile) (options : SeenOptions) (file : TreeFile) (world : World) (summary : SeenSummary) → IsCompiledWithoutLeak map options file world summary → IsTrue options.faces → HasFaces file }
    ensures exact { (map : MapFile) (options : SeenOptions) (file : TreeFile) (world : World) (summary : SeenSummary) → IsCompiledWithoutLeak map options file world summary → (faces : List FaceRecord) → AreReadFaces file faces → AreFacesOfMap map file.tree faces }
{}

/// Each boundary point of the file's tree lies in just one of these pieces, whose record names the leaf that is not solid there, and
/// the brush and the face to which the point belongs.
pub fn boundary_points_have_faces()
    ensures { (map : MapFile) (options : SeenOptions) (file : TreeFile) (world : World) (summary : SeenSummary) → IsCompiledWithoutLeak map options file world summary → (faces : List FaceRecord) → AreReadFaces file faces → AreBoundaryFaces map file.tree faces }
{}
