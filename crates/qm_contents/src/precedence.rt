ghost use Rattle.std.specs.Prelude.{◌≡◌, ◌⊎◌};
ghost use Rattle.qm_contents.specs.declared.contents.Contents.{Contents};
ghost use Rattle.qm_contents.specs.Precedence.{strength, stronger, IsAtMost};

use crate::contents::Contents;

/// The stronger of two kinds of contents. The order, strongest first, is solid, sky, lava, slime, water,
/// empty.
pub fn stronger(a: Contents, b: Contents) -> Contents
    ensures value { result ≡ stronger a b }
    ensures one { (result ≡ a) ⊎ (result ≡ b) }
    ensures above_first { IsAtMost a result }
    ensures above_second { IsAtMost b result }
    // No two kinds are equally strong, so that the result is the only one of that strength.
    ensures only { (other : Contents) → IsAtMost result other → IsAtMost other result → other ≡ result }
{
    if strength(a) < strength(b) { b } else { a }
}

/// How strong contents are, from 0 for empty.
fn strength(contents: Contents) -> u8
    ensures { result ≡ strength contents }
{
    match contents {
        Contents::Empty => 0,
        Contents::Water => 1,
        Contents::Slime => 2,
        Contents::Lava => 3,
        Contents::Sky => 4,
        Contents::Solid => 5,
    }
}
