// The natural logarithm, step for step that of fdlibm's e_log.c; a subnormal is normalised by its leading zeros instead of the product with 2^54.
#![tactic(auto)]

ghost use Rattle.std.specs.Prelude.{◌≡◌, ◌+◌, ◌*◌, ◌<◌, ◌≤◌, pos};
ghost use Rattle.std.specs.Float.{binary64};
ghost use Rattle.std.specs.Float.Ieee.{of_int, minus};
ghost use Rattle.logarithm.specs.Log.{close_of, series_of, mid_of, out_of, far_of, normal_ln, ln_of};

use numbers::normal::normalised;

// ln2_hi, ln2_lo, Lg1 .. Lg7
const LG: [f64; 9] = [
    6.93147180369123816490e-01,
    1.90821492927058770002e-10,
    6.666666666666735130e-01,
    3.999999999940941908e-01,
    2.857142874366239149e-01,
    2.222219843214978396e-01,
    1.818357216161805012e-01,
    1.531383769920937332e-01,
    1.479819860511658591e-01,
];

// -infinity for both zeros, +infinity for +infinity, and a NaN for a NaN and for everything below 0.
pub fn ln(x: f64) -> f64
    ensures { result ≡ ln_of x }
{
    if x != x {
        return 0.0 / 0.0;
    }
    let bits = f64::to_bits(x);
    if bits % 0x8000_0000_0000_0000 == 0 {
        return -1.0 / 0.0;
    }
    if bits >= 0x8000_0000_0000_0000 {
        return 0.0 / 0.0;
    }
    if bits >= 0x7ff0_0000_0000_0000 {
        return x;
    }
    let n = normalised(bits);
    let power = n.power;
    let digits = n.digits;
    normal_ln(power, digits - 0x10_0000_0000_0000)
}

// The logarithm of (1 + low / 2^52) * 2^(power - 1075).
fn normal_ln(power: u64, low: u64) -> f64
    requires le_power { 1 ≤ power }
    requires power_bound { power ≤ 2098 }
    requires low_bound { low < 0x10_0000_0000_0000 }
    ensures { result ≡ normal_ln 54 ((power + 2) * 0x10_0000_0000_0000 + low) }
{
    let hx = low / 0x1_0000_0000;
    let i = (hx + 0x95f64) / 0x10_0000;
    let x = f64::from_bits((0x3ff - i) * 0x10_0000_0000_0000 + low);
    let f = x - 1.0;
    let c = power + i;
    if (hx + 2) % 0x10_0000 < 3 {
        return close(f, c);
    }
    far(f, c, hx)
}

// k = c - 1075 as a float, exactly
fn exponent(c: u64) -> f64
    requires { c < 4096 }
    ensures { result ≡ of_int binary64 (minus c 1075) }
{
    if c < 1075 {
        return -small(1075 - c);
    }
    small(c - 1075)
}

// n as a float, exactly
fn small(n: u64) -> f64
    requires { n < 4096 }
    ensures { result ≡ of_int binary64 (pos n) }
{
    n as u32 as f64
}

// |f| < 2^-20
fn close(f: f64, c: u64) -> f64
    requires { c < 4096 }
    ensures { result ≡ close_of f (minus c 1075) }
{
    let dk = exponent(c);
    if f == 0.0 {
        if c == 1075 {
            return 0.0;
        }
        return dk * LG[0] + dk * LG[1];
    }
    let r = f * f * (0.5 - 0.33333333333333333 * f);
    if c == 1075 {
        return f - r;
    }
    dk * LG[0] - ((r - dk * LG[1]) - f)
}

// Every other f: mid where hx is from 0x6147a to 0x6b851, out on either side.
fn far(f: f64, c: u64, hx: u64) -> f64
    requires { c < 4096 }
    ensures { result ≡ far_of f (minus c 1075) hx }
{
    let s = f / (2.0 + f);
    let r = series(s);
    if hx < 0x6147a {
        return out(f, c, s, r);
    }
    if hx > 0x6b851 {
        return out(f, c, s, r);
    }
    mid(f, c, s, r)
}

// R, of s
fn series(s: f64) -> f64
    ensures { result ≡ series_of s }
{
    let z = s * s;
    let w = z * z;
    let t1 = w * (LG[3] + w * (LG[5] + w * LG[7]));
    let t2 = z * (LG[2] + w * (LG[4] + w * (LG[6] + w * LG[8])));
    t2 + t1
}

fn mid(f: f64, c: u64, s: f64, r: f64) -> f64
    requires { c < 4096 }
    ensures { result ≡ mid_of f (minus c 1075) s r }
{
    let hfsq = 0.5 * f * f;
    if c == 1075 {
        return f - (hfsq - s * (hfsq + r));
    }
    let dk = exponent(c);
    dk * LG[0] - ((hfsq - (s * (hfsq + r) + dk * LG[1])) - f)
}

fn out(f: f64, c: u64, s: f64, r: f64) -> f64
    requires { c < 4096 }
    ensures { result ≡ out_of f (minus c 1075) s r }
{
    if c == 1075 {
        return f - s * (f - r);
    }
    let dk = exponent(c);
    dk * LG[0] - ((s * (f - r) - dk * LG[1]) - f)
}
