//! The sections of a tree file, decoded, and whether its trees can be traced through.

ghost use Rattle.std.specs.Prelude.{◌≡◌, None, Some, IfOk, MatchOption};
ghost use Rattle.qm_answers.specs.declared.decoded_section.DecodedSection.TheVariants.{Bad};
ghost use Rattle.qm_answers.specs.DecodedSections.{section_bytes, decoded_by, plain_answer, decoded_hull, decoded_models, decoded_faces, AscendByEntity};
ghost use Rattle.qm_inspect.specs.Parts.{ArePartsOf, FitsIfKnown, IfKnown, hull_in, fits_in};

use crate::numbered::count_numbered;
use qm_answers::DecodedSection;
use qm_face_file::{FaceRecord, FacesFault, decode as decode_faces};
use qm_file::{Section, TreeFile, plain_file};
use qm_lists::Items;
use qm_model_file::{BrushModel, ModelsFault, decode_models};
use qm_trace::Tracer;
use std::alloc::{AllocError, Global};

/// The number of the first hull, which is the kind of its section.
const FIRST_HULL: u8 = 1;

/// The number of the second hull, which is the kind of its section.
const SECOND_HULL: u8 = 2;

/// The kind of the section of brush models.
const MODELS: u32 = 3;

/// The kind of the section of faces.
const FACES: u32 = 4;

/// What the known sections of a tree file are decoded to, and whether segments can be traced through the file's own tree and
/// through each hull that is known.
#[derive(Drop)]
pub struct Parts {
    pub(crate) fits: bool,
    pub(crate) first_hull: DecodedSection<TreeFile>,
    pub(crate) first_fits: bool,
    pub(crate) second_hull: DecodedSection<TreeFile>,
    pub(crate) second_fits: bool,
    pub(crate) models: DecodedSection<Items<BrushModel>>,
    pub(crate) faces: DecodedSection<Items<FaceRecord>>,
}

impl Parts {
    /// Decodes each known section of a file once, or marks it as missing, or as bad exactly where its bytes are those of no content.
    /// Goes through each tree once.
    pub fn of(alloc: Global, file: &TreeFile) -> Result<Parts, AllocError>
        ensures { IfOk result (λ parts. ArePartsOf file.now parts) }
    {
        let first_hull = decoded_tree(alloc, file, u32::from(FIRST_HULL))?;
        let second_hull = decoded_tree(alloc, file, u32::from(SECOND_HULL))?;
        let models = decoded_models(alloc, file)?;
        let faces = decoded_faces(alloc, file)?;
        Ok(Parts {
            fits: Tracer::fits(&file.tree),
            first_fits: is_traceable(&first_hull),
            second_fits: is_traceable(&second_hull),
            first_hull,
            second_hull,
            models,
            faces,
        })
    }

    /// The hull of a number.
    pub(crate) fn hull(&self, hull: u8) -> &DecodedSection<TreeFile>
        ensures { result.now ≡ hull_in self.now hull }
    {
        if hull == FIRST_HULL {
            &self.first_hull
        } else {
            &self.second_hull
        }
    }

    /// Whether segments can be traced through the hull of a number, where it is known.
    pub(crate) fn hull_fits(&self, hull: u8) -> bool
        ensures { result ≡ fits_in self.now hull }
    {
        if hull == FIRST_HULL {
            self.first_fits
        } else {
            self.second_fits
        }
    }
}

/// Whether segments can be traced through a hull, where it is known.
fn is_traceable(hull: &DecodedSection<TreeFile>) -> bool
    ensures { FitsIfKnown hull.now result }
{
    match hull {
        DecodedSection::Known(hull) => Tracer::fits(&hull.tree),
        _ => false,
    }
}

/// The section of a kind, where it is there, decoded as a plain file of the file's bound.
fn decoded_tree(
    alloc: Global,
    file: &TreeFile,
    kind: u32,
) -> Result<DecodedSection<TreeFile>, AllocError>
    ensures { IfOk result (λ section. section ≡ decoded_by (λ bytes. (plain_answer file.now.bound bytes).0) (section_bytes file.now.sections kind)) }
{
    let Some(bytes) = section_bytes(file.sections.as_slice(), kind) else {
        return Ok(DecodedSection::Missing);
    };
    match plain_file(alloc, bytes, file.bound)? {
        Some(tree) => Ok(DecodedSection::Known(tree)),
        None => Ok(DecodedSection::Bad),
    }
}

/// The brush models of a file.
fn decoded_models(
    alloc: Global,
    file: &TreeFile,
) -> Result<DecodedSection<Items<BrushModel>>, AllocError>
    ensures decoded { IfOk result (λ section. section ≡ decoded_models file.now) }
    ensures ascend { IfOk result (λ section. IfKnown section (AscendByEntity 0)) }
{
    let Some(bytes) = section_bytes(file.sections.as_slice(), MODELS) else {
        return Ok(DecodedSection::Missing);
    };
    let numbered = count_numbered(file.tree.all_leaves());
    match decode_models(alloc, bytes, file.bound, numbered) {
        Ok(models) => Ok(DecodedSection::Known(models)),
        Err(fault) => not_read(fault),
    }
}

/// What a section is decoded to in which no models are read.
fn not_read(fault: ModelsFault) -> Result<DecodedSection<Items<BrushModel>>, AllocError>
    ensures bad { IfOk result (λ section. section ≡ Bad) }
    ensures refused { IfOk result (λ _. fault ≡ ModelsFault.Memory → ⊥) }
{
    match fault {
        ModelsFault::Memory => Err(AllocError),
        _ => Ok(DecodedSection::Bad),
    }
}

/// The faces of a file.
fn decoded_faces(
    alloc: Global,
    file: &TreeFile,
) -> Result<DecodedSection<Items<FaceRecord>>, AllocError>
    ensures { IfOk result (λ section. section ≡ decoded_faces file.now) }
{
    let Some(bytes) = section_bytes(file.sections.as_slice(), FACES) else {
        return Ok(DecodedSection::Missing);
    };
    match decode_faces(alloc, bytes, file) {
        Ok(faces) => Ok(DecodedSection::Known(faces)),
        Err(fault) => no_faces(fault),
    }
}

/// What a section is decoded to in which no faces are read.
fn no_faces(fault: FacesFault) -> Result<DecodedSection<Items<FaceRecord>>, AllocError>
    ensures bad { IfOk result (λ section. section ≡ Bad) }
    ensures refused { IfOk result (λ _. fault ≡ FacesFault.Memory → ⊥) }
{
    match fault {
        FacesFault::Memory => Err(AllocError),
        _ => Ok(DecodedSection::Bad),
    }
}

/// The bytes of the section of a kind.
fn section_bytes(sections: &[Section], kind: u32) -> Option<&[u8]>
    ensures { MatchOption result (section_bytes sections.now kind ≡ None) (λ bytes. section_bytes sections.now kind ≡ Some bytes.now) }
{
    for section in sections {
        if section.kind == kind {
            return Some(section.bytes.as_slice());
        }
    }
    None
}
