ghost use Rattle.std.specs.Prelude.{◌≡◌, ◌↔◌, IsNone, codes};
ghost use Rattle.std.specs.Str.{str_to_ascii_lowercase};
ghost use Rattle.qm_contents.specs.Texture.{begins, contents_of_texture, IsCalled};

use crate::contents::Contents;

/// The contents that a texture's name gives its brush, without regard to the case of ASCII letters. The
/// first rule that fits counts: a name that begins with `*lava` is lava, with `*slime` slime, with `*`
/// water; the whole name `clip` is `None`, no part of the drawn world; a name that begins with `sky` is
/// sky; any other is solid.
#[tactic(auto, unfolding(crate::specs::Texture::contents_of_texture))]
pub fn of_texture(name: &[u8]) -> Option<Contents>
    ensures value { result ≡ contents_of_texture name.now }
    ensures clip { IsNone result ↔ IsCalled name.now (codes "clip") }
{
    if begins(name, b"*lava") {
        Some(Contents::Lava)
    } else if begins(name, b"*slime") {
        Some(Contents::Slime)
    } else if begins(name, b"*") {
        Some(Contents::Water)
    } else if name.eq_ignore_ascii_case(b"clip") {
        None
    } else if begins(name, b"sky") {
        Some(Contents::Sky)
    } else {
        Some(Contents::Solid)
    }
}

/// Whether a name begins with a prefix in small letters, in any case.
fn begins(name: &[u8], prefix: &[u8]) -> bool
    requires { str_to_ascii_lowercase prefix.now ≡ prefix.now }
    ensures { result ≡ begins name.now prefix.now }
{
    match name.get(..prefix.len()) {
        Some(first) => first.eq_ignore_ascii_case(prefix),
        None => false,
    }
}
