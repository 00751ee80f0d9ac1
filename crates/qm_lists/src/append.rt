//! Values that are appended to bytes, and the one loop over a list of them.

ghost use Rattle.std.specs.Prelude.{◌≡◌, ◌++◌, ℕ, List, [], flat_map, All, OnOk, OnErr};

use std::alloc::AllocError;

/// How the values of a type are put into bytes. A crate has one type for each way.
pub trait Encoding {
    /// What is put.
    type Value;

    /// What has to hold of a value.
    ghost can_append: { Self.Value → Type 0 };

    /// The bytes of a value.
    ghost bytes_of: { Self.Value → List ℕ };

    /// Appends the bytes of a value.
    fn append(out: &mut Vec<u8>, value: &Self::Value) -> Result<(), AllocError>
        requires { can_append value.now }
        ensures { OnOk result (out.new.items ≡ out.old.items ++ bytes_of value.now) };
}

/// Appends the bytes of each value in turn. Where memory runs out, no byte is left in `out`: of bytes that are not all
/// there none is of use.
pub fn append_all<E: Encoding>(out: &mut Vec<u8>, values: &[E::Value]) -> Result<(), AllocError>
    requires { All E.can_append values.now }
    ensures ok { OnOk result (out.new.items ≡ out.old.items ++ flat_map E.bytes_of values.now) }
    ensures err { OnErr result (out.new.items ≡ []) }
{
    let appended = append_each::<E>(out, values);
    if appended.is_err() {
        out.clear();
    }
    appended
}

fn append_each<E: Encoding>(out: &mut Vec<u8>, values: &[E::Value]) -> Result<(), AllocError>
    requires { All E.can_append values.now }
    ensures { OnOk result (out.new.items ≡ out.old.items ++ flat_map E.bytes_of values.now) }
{
    for value in values {
        E::append(out, value)?;
    }
    Ok(())
}
