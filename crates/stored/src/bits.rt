// Words as the bits of numbers.
ghost use Rattle.std.specs.Prelude.{◌≡◌, length};
ghost use Rattle.stored.specs.Stored.{numbers_of, bits_of, Says};

use numbers::bits::{bits_of, of_bits};

pub fn load(w: &[u64], out: &mut [f64])
    requires { length w.now ≡ length out.old }
    ensures { out.new ≡ numbers_of w.now }
{
    for (i, x) in out.iter_mut().enumerate() {
        *x = of_bits(w[i]);
    }
}

// Are these the bits of these numbers?
pub fn same(x: &[f64], w: &[u64]) -> bool
    requires { length x.now ≡ length w.now }
    ensures { Says result (bits_of x.now ≡ w.now) }
{
    x.iter()
        .zip(w)
        .all(|(number, bits)| bits_of(*number) == *bits)
}

// Have all of these the same bits?
pub fn all(x: &[f64], bits: u64) -> bool {
    x.iter().all(|number| bits_of(*number) == bits)
}
