// The scan for values that are not finite.
ghost use Rattle.std.specs.Prelude.{◌≡◌, is_none};
ghost use Rattle.std.specs.Float.Ieee.Scale.{finite as is_finite};
ghost use Rattle.arrays.specs.Scan.{first_infinite};

// Neither infinity nor a NaN, which fails the first comparison.
pub fn finite(x: f64) -> bool
    ensures { result ≡ is_finite x }
{
    -1.0 / 0.0 < x && x < 1.0 / 0.0
}

// Whether every value is finite. No value ends the loop, so that the compiler tests several at a time.
fn clean(x: &[f64]) -> bool
    ensures { result ≡ is_none (first_infinite 0 x.now) }
{
    x.iter().fold(true, |good, v| good & finite(*v))
}

// The index of the first value that is infinite or a NaN. An empty slice has none.
pub fn first_infinite(x: &[f64]) -> Option<usize>
    ensures { result ≡ first_infinite 0 x.now }
{
    if clean(x) {
        return None;
    }
    x.iter().position(|v| !finite(*v))
}
