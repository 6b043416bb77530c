// An entry of the design that is not stored, of lazy_normalization.rs: from the lent number, its column's centre, scale and reciprocal.
#![tactic(auto)]

ghost use Rattle.std.specs.Prelude.{◌≡◌};
ghost use Rattle.layout.specs.Slots.{Room, Makes};
ghost use Rattle.lazy_normalization.specs.Lazy.{is_normal, reciprocal_of, normalised, recip_store};

use arrays::vectors::map;
use layout::{Places, Sizes};
use numbers::bits::magnitude;

// Neither a zero nor subnormal, infinite or a NaN.
#[tactic(auto, using(crate::proofs::Choice::infinity), unfolding(crate::specs::Lazy::is_normal))]
pub fn is_normal(x: f64) -> bool
    ensures { result ≡ is_normal x }
{
    let a = magnitude(x);
    a >= 2.2250738585072014e-308 && a < 1.0 / 0.0
}

// 1 / scale, for a product in place of the division. +0 where scale or its reciprocal is not normal, which stands for: divide.
#[tactic(auto, unfolding(crate::specs::Lazy::reciprocal_of))]
pub fn reciprocal(scale: f64) -> f64
    ensures { result ≡ reciprocal_of scale }
{
    let r = 1.0 / scale;
    if is_normal(scale) && is_normal(r) {
        r
    } else {
        0.0
    }
}

// Every scale's reciprocal, once a fit, so that the products divide only where they must.
pub fn reciprocals(s: &mut [f64], sh: Sizes, l: Places)
    requires { Room sh l s.old }
    ensures { Makes sh (recip_store sh) s.old s.new }
{
    map(s, l.recip, l.scale, sh.p, reciprocal);
}

// (raw - centre) / scale, by the reciprocal where there is one.
#[tactic(auto, unfolding(crate::specs::Lazy::normalised))]
pub fn normalise(raw: f64, centre: f64, scale: f64, by: f64) -> f64
    ensures { result ≡ normalised raw centre scale by }
{
    if by == 0.0 {
        (raw - centre) / scale
    } else {
        (raw - centre) * by
    }
}
