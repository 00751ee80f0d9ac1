//! What holds of sections of brush models, whatever is written or read.

ghost use Rattle.std.specs.Prelude.{◌≡◌, ◌↔◌, ℕ, List, length};
ghost use Rattle.qm_formats.specs.Layout.{got, bad};
ghost use Rattle.qm_formats.specs.Fields.{AreBytes};
ghost use Rattle.qm_formats.specs.FileParts.{FileFaultKind};
ghost use Rattle.qm_formats.specs.Exact.{IsExact};
ghost use Rattle.qm_model_layout.specs.BrushModel.{BrushModel};
ghost use Rattle.qm_model_layout.specs.ModelLayout.{AreModelsBytes, models_layout, models_bytes, read_models};
ghost use Rattle.qm_model_layout.specs.ModelFaults.{IsFaultOfModelBytes};

/// What is read in a section stands there and can stand there, and the other way round.
pub fn exact_models_layout()
    ensures { (bound numbered : ℕ) → IsExact (models_layout bound numbered) }
{}

/// The bytes of models depend neither on the cube nor on the number of leaves.
pub fn own_models_bytes()
    ensures { (bound numbered : ℕ) (models : List BrushModel) → (models_layout bound numbered).bytes_of models ≡ models_bytes models }
{}

/// Models are read in bytes just where the bytes are those of models that can stand there.
pub fn read_section()
    ensures { (bound numbered : ℕ) (bytes : List ℕ) (models : List BrushModel) → AreBytes bytes → (read_models bound numbered bytes ≡ got models (length bytes) ↔ AreModelsBytes bound numbered bytes models) }
{}

/// The fault that reading gives is the first in the order of the bytes, in words.
pub fn first_models_fault()
    ensures { (bound numbered : ℕ) (bytes : List ℕ) (fault : FileFaultKind) (place : ℕ) → AreBytes bytes → (read_models bound numbered bytes ≡ bad fault place ↔ IsFaultOfModelBytes bound numbered bytes fault place) }
{}
