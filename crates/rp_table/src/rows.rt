//! Rows of equal width in one list.
ghost use Rattle.std.specs.Prelude.{◌≡◌, ◌+◌, ◌*◌, ◌≤◌, length};
ghost use Rattle.rp_table.specs.Rows.{row_of};

/// The i-th row of that width.
pub(crate) fn row_at(numbers: &[u32], width: usize, i: usize) -> &[u32]
    requires { i * width + width ≤ length numbers.now }
    ensures exact { result.now ≡ row_of numbers.now width i }
    ensures whole { length result.now ≡ width }
{
    let start = i * width;
    &numbers[start..start + width]
}
