//! From a tree file to the bytes of the same file in version 2.

ghost use Rattle.std.specs.Prelude.{◌≡◌, IfOk, string_bytes};
ghost use Rattle.qm_formats.specs.TreeFile.{IsValidFile};
ghost use Rattle.qm_statement.specs.Texts.{upgrade_text};
ghost use Rattle.qm_statement.specs.UpgradeComesOf.{IsUpgradeOf};

use qm_file::{TreeFile, encode, upgrade};
use std::alloc::{AllocError, Global};

/// What is made of a tree file.
#[derive(Drop)]
pub struct Upgrade {
    /// The bytes of the same file in version 2.
    pub bytes: Vec<u8>,
    /// The line of the version that it had.
    pub line: String,
}

/// Makes of a tree file the bytes of the same file in version 2. The file is let go of.
pub fn make_upgrade(alloc: Global, file: TreeFile) -> Result<Upgrade, AllocError>
    requires { IsValidFile file }
    ensures made { IfOk result (λ upgrade. IsUpgradeOf file upgrade.bytes.items) }
    ensures said { IfOk result (λ upgrade. string_bytes upgrade.line ≡ upgrade_text file.version) }
{
    let version = file.version;
    let bytes = upgraded_bytes(alloc, file)?;
    let line = upgrade_line(alloc, version)?;
    Ok(Upgrade { bytes, line })
}

/// The bytes of a tree file in version 2. The file is let go of.
fn upgraded_bytes(alloc: Global, file: TreeFile) -> Result<Vec<u8>, AllocError>
    requires { IsValidFile file }
    ensures { IfOk result (λ bytes. IsUpgradeOf file bytes.items) }
{
    let file = upgrade(file);
    encode(alloc, &file)
}

/// The line that is printed of a tree file that had this version.
#[tactic(auto, unfolding(qm_statement::specs::Texts::upgrade_text))]
fn upgrade_line(alloc: Global, version: u8) -> Result<String, AllocError>
    ensures { IfOk result (λ text. string_bytes text ≡ upgrade_text version) }
{
    let mut text = String::new(alloc);
    writeln!(text, "version {version} to 2")?;
    Ok(text)
}
