ghost use Rattle.std.specs.Prelude.{◌≡◌, ◌↔◌, IfSome, IsSome};
ghost use Rattle.qm_contents.specs.declared.contents.Contents.{Contents};
ghost use Rattle.qm_contents.specs.Codes.{code_of, IsCode};

use crate::contents::Contents;

/// The code of contents in a tree file: -1 to -6 in the order of the kinds.
pub fn code(contents: Contents) -> i32
    ensures value { result ≡ code_of contents }
    ensures range { IsCode result }
{
    match contents {
        Contents::Empty => -1,
        Contents::Solid => -2,
        Contents::Water => -3,
        Contents::Slime => -4,
        Contents::Lava => -5,
        Contents::Sky => -6,
    }
}

/// The contents of a code, and `None` exactly outside -6..=-1.
pub fn of_code(code: i32) -> Option<Contents>
    ensures known { IfSome result (λ contents. code_of contents ≡ code) }
    ensures only { (contents : Contents) → code_of contents ≡ code → result ≡ Some contents }
    ensures range { IsSome result ↔ IsCode code }
{
    match code {
        -1 => Some(Contents::Empty),
        -2 => Some(Contents::Solid),
        -3 => Some(Contents::Water),
        -4 => Some(Contents::Slime),
        -5 => Some(Contents::Lava),
        -6 => Some(Contents::Sky),
        _ => None,
    }
}
