// For C: the root, the maximum and the minimum of crate numbers, under the same names, with the same clauses.
#![tactic(auto)]

ghost use Rattle.std.specs.Prelude.{◌≡◌};
ghost use Rattle.numbers.specs.Order.{maximum_of, minimum_of};
ghost use Rattle.numbers.specs.Root.{root_of};

// The larger of two; of a NaN and a number the number; of the zeros +0.
#[unsafe(no_mangle)]
pub extern "C" fn maximum(x: f64, y: f64) -> f64
    ensures { result ≡ maximum_of x y }
{
    numbers::order::maximum(x, y)
}

// The smaller of two; of a NaN and a number the number; of the zeros -0.
#[unsafe(no_mangle)]
pub extern "C" fn minimum(x: f64, y: f64) -> f64
    ensures { result ≡ minimum_of x y }
{
    numbers::order::minimum(x, y)
}

// Both zeros and +infinity are their own roots; below 0, and of a NaN, it is a NaN.
#[unsafe(no_mangle)]
pub extern "C" fn root(x: f64) -> f64
    ensures { result ≡ root_of x }
{
    numbers::square_root::root(x)
}
