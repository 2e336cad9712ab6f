//! Numbers of steps as numbers of duals.
ghost use Rattle.std.specs.Prelude.{◌≡◌, length};

/// The values as wider numbers.
pub(crate) fn widen(values: &[i64], wide: &mut [i128])
    requires { length wide.old ≡ length values.now }
    ensures { length wide.new ≡ length wide.old }
{
    for j in 0..values.len() {
        wide[j] = i128::from(values[j]);
    }
}
