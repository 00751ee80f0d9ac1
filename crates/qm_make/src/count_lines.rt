ghost use Rattle.std.specs.Prelude.{◌≡◌, ◌++◌, OnOk, string_bytes};
ghost use Rattle.qm_statement.specs.Texts.{line_of_count};

use std::alloc::AllocError;

/// Adds a line of a name and a count.
pub fn put_count_line(text: &mut String, name: &str, count: u64) -> Result<(), AllocError>
    ensures { OnOk result (string_bytes text.new ≡ string_bytes text.old ++ line_of_count name.now count) }
{
    writeln!(text, "{name} {count}")
}
