// The root and the logarithm: the bits of the argument and those of the answer.
use logarithm::ln;
use numbers::bits::{bits_of, of_bits};
use numbers::square_root::root;
use stored::Damaged;
use stored::tally::Compared;

pub fn root_verdict(w: &[u64]) -> Result<Compared, Damaged> {
    compared(w, root)
}

pub fn logarithm_verdict(w: &[u64]) -> Result<Compared, Damaged> {
    compared(w, ln)
}

fn compared<F: Fn(f64) -> f64>(w: &[u64], f: F) -> Result<Compared, Damaged>
    requires { F.IsAlwaysCallable f }
{
    let [x, wanted] = w else {
        return Err(Damaged(0));
    };
    Ok(Compared::one(bits_of(f(of_bits(*x))) == *wanted))
}
