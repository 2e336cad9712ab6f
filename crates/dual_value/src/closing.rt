ghost use Rattle.std.specs.Prelude.{◌≤◌, ◌↔◌, IsTrue};
ghost use Rattle.location_terms.specs.Fit.{BoundCloses};
ghost use Rattle.location_terms.specs.declared.limits.TheConstants.{MAX_SCALE};

/// Whether a bound at scale `q` closes a box against the target, a cost in millionths: at scale 0 a
/// bound of at least 1 shows that the box is empty, and at another scale a bound above
/// `q * (target - 1)` shows that no plan of the box costs less than the target.
pub fn closes(bound: i128, q: u32, target: Option<u64>) -> bool
    requires { q ≤ MAX_SCALE }
    ensures { IsTrue result ↔ BoundCloses bound q target }
{
    if q == 0 {
        return bound >= 1;
    }
    match target {
        None => false,
        Some(cost) => bound > i128::from(q) * (i128::from(cost) - 1),
    }
}
