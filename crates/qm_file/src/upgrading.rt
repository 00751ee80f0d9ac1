ghost use Rattle.std.specs.Prelude.{◌≡◌};
ghost use Rattle.qm_formats.specs.Upgraded.{upgraded};

use crate::tree_file::TreeFile;

/// The version of an upgraded file.
const UPGRADED_VERSION: u8 = 2;

/// The same file in version 2. It takes no memory.
pub fn upgrade(file: TreeFile) -> TreeFile
    ensures { result ≡ upgraded file }
{
    let TreeFile {
        version: _,
        bound,
        tree,
        rows,
        sections,
    } = file;
    TreeFile {
        version: UPGRADED_VERSION,
        bound,
        tree,
        rows,
        sections,
    }
}
