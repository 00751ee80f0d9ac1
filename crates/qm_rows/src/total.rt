ghost use Rattle.std.specs.Prelude.{◌≡◌, ◌+◌, ◌-◌, ◌^◌, min};
ghost use Rattle.qm_coarse_rows.specs.Seen.{seen_of};

use qm_bits::BitRow;

/// How many places are set in all rows, or the greatest number of 64 bits where there are more.
pub fn seen(rows: &[BitRow]) -> u64
    ensures { result ≡ seen_of rows.now }
{
    let mut seen: u64 = 0;
    for row in rows {
        seen = sum_or_most(seen, row.count());
    }
    seen
}

/// The sum, or the greatest number of 64 bits where it is more.
fn sum_or_most(first: u64, second: u64) -> u64
    ensures { result ≡ min (first + second) (2 ^ 64 - 1) }
{
    first.saturating_add(second)
}
