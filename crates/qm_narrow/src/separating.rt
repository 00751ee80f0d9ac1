//! The separators of a source and a pass.

ghost use Rattle.std.specs.Prelude.{◌≡◌, IfOk, OnOk};
ghost use Rattle.qm_space.specs.Book.{AreDistinct};
ghost use Rattle.qm_separators.specs.Gains.{HasExactly};
ghost use Rattle.qm_separators.specs.Separator.{IsSeparator, IsSeparatorFrom};

use crate::candidates::gain_across;
use crate::pair::Pair;
use crate::traced::Traced;
use qm_geom::Plane;
use qm_lists::Items;
use qm_wind::Winding;
use std::alloc::{AllocError, Global};

/// Exactly the separators of a source and a pass, each once, in any order: of the planes through an edge of the one winding
/// and near a corner of the other, those that separate the two.
pub fn separators(
    alloc: Global,
    source: &Winding,
    pass: &Winding,
) -> Result<Items<Plane>, AllocError>
    ensures exactly { IfOk result (λ planes. HasExactly (IsSeparator source.now pass.now) planes) }
    ensures once { IfOk result (λ planes. AreDistinct planes) }
{
    let source = Traced::copied(alloc, source)?;
    let pass = Traced::copied(alloc, pass)?;
    let mut planes = Vec::new(alloc);
    list_separators(&mut planes, &source, &pass)?;
    Ok(Items::from_vec(planes))
}

/// Lists the separators of two windings whose corners are known, in place of what was listed.
fn list_separators(
    planes: &mut Vec<Plane>,
    source: &Traced,
    pass: &Traced,
) -> Result<(), AllocError>
    ensures exactly { OnOk result (HasExactly (IsSeparator source.now pass.now) planes.new.items) }
    ensures once { OnOk result (AreDistinct planes.new.items) }
{
    planes.clear();
    let by_source = Pair {
        source,
        pass,
        edges: source,
        others: pass,
        of_pass: false,
    };
    let by_pass = Pair {
        source,
        pass,
        edges: pass,
        others: source,
        of_pass: true,
    };
    gain_across(planes, &by_source)?;
    gain_across(planes, &by_pass)?;
    Ok(())
}

/// Lists the separators of a winding and the pass, where there is one, in place of what was listed; where there is none, no
/// plane.
pub(crate) fn list_separators_from(
    planes: &mut Vec<Plane>,
    source: &Traced,
    pass: &Option<Traced>,
) -> Result<(), AllocError>
    ensures { OnOk result (HasExactly (IsSeparatorFrom pass.now source.now) planes.new.items) }
{
    match pass {
        None => {
            planes.clear();
            Ok(())
        }
        Some(pass) => {
            list_separators(planes, source, pass)?;
            Ok(())
        }
    }
}
