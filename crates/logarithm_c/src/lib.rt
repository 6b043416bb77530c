// For C: the logarithm of crate logarithm, under the same name, with the same clause.
#![tactic(auto)]

ghost use Rattle.std.specs.Prelude.{◌≡◌};
ghost use Rattle.logarithm.specs.Log.{ln_of};

// -infinity for both zeros, +infinity for +infinity, and a NaN for a NaN and for everything below 0.
#[unsafe(no_mangle)]
pub extern "C" fn ln(x: f64) -> f64
    ensures { result ≡ ln_of x }
{
    logarithm::ln(x)
}
