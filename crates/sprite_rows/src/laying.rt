//! Values laid over the bytes of a pair.

ghost use Rattle.std.specs.Prelude.{◌≡◌, ◌≤◌, ℕ, Bool, length, slice_index};
ghost use Rattle.sprite_rows.specs.Laid.{with_even, with_odd, with_value, laid_byte};

/// Lays the values of sixteen pixels of the pair's even or odd sprite over its row, from position
/// `x` on.
pub fn lay(row: &mut [u8; 512], is_even: bool, x: usize, values: &[u8])
    requires room { x ≤ 496 }
    requires size { length values.now ≡ 16 }
    requires values { (k : ℕ) → slice_index values.now k ≤ 3 }
    requires few { (k : ℕ) → slice_index row.old k ≤ 15 }
    ensures bytes { (k : ℕ) →
        slice_index row.new k ≡ laid_byte (with_value is_even) row.old x values.now 16 k }
    ensures few { (k : ℕ) → slice_index row.new k ≤ 15 }
{
    if is_even {
        lay_even(row, x, values);
    } else {
        lay_odd(row, x, values);
    }
}

/// Lays the values of sixteen pixels of the pair's even sprite from position `x` on: a copy of them, so
/// that all sixteen are laid at once.
#[inline(never)]
fn lay_even(row: &mut [u8; 512], x: usize, values: &[u8])
    requires room { x ≤ 496 }
    requires size { length values.now ≡ 16 }
    requires values { (k : ℕ) → slice_index values.now k ≤ 3 }
    ensures bytes { (k : ℕ) →
        slice_index row.new k ≡ laid_byte with_even row.old x values.now 16 k }
    ensures long { length row.new ≡ 512 }
{
    let mut laid = [0; 16];
    laid.copy_from_slice(&values[..16]);
    for k in 0..16 {
        row[x + k] = row[x + k] / 4 * 4 + laid[k];
    }
}

/// The same of its odd sprite.
#[inline(never)]
fn lay_odd(row: &mut [u8; 512], x: usize, values: &[u8])
    requires room { x ≤ 496 }
    requires size { length values.now ≡ 16 }
    requires values { (k : ℕ) → slice_index values.now k ≤ 3 }
    ensures bytes { (k : ℕ) →
        slice_index row.new k ≡ laid_byte with_odd row.old x values.now 16 k }
    ensures long { length row.new ≡ 512 }
{
    let mut laid = [0; 16];
    laid.copy_from_slice(&values[..16]);
    for k in 0..16 {
        row[x + k] = row[x + k] % 4 + 4 * laid[k];
    }
}
