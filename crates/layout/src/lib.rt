// The sizes of a fit, the words of scratch that it needs, and the places of its vectors there.
#![tactic(auto)]

ghost use Rattle.std.specs.Prelude.{◌≡◌, ◌≤◌};
ghost use Rattle.layout.specs.Slots.{Laid, words};
ghost use Rattle.layout.specs.Need.{sizes_of, Small};

pub mod fit;

use settings::Settings;

// k is n + p. `stored` is the number of the design's rows in the scratch: k, or none of a lazy design; pr and pc are the panels' of a lazy one, and else 0.
#[derive(Clone, Copy)]
pub struct Sizes {
    pub n: usize,
    pub p: usize,
    pub k: usize,
    pub lazy: bool,
    pub stored: usize,
    pub pr: usize,
    pub pc: usize,
}

// Where each vector begins in the scratch.
#[derive(Clone, Copy)]
pub struct Places {
    pub w: usize,
    pub u: usize,
    pub neww: usize,
    pub newu: usize,
    pub f: usize,
    pub newf: usize,
    pub q1: usize,
    pub q2: usize,
    pub d1: usize,
    pub d2: usize,
    pub prb: usize,
    pub prs: usize,
    pub dxu: usize,
    pub grad: usize,
    pub r: usize,
    pub rr: usize,
    pub zs: usize,
    pub zz: usize,
    pub ps: usize,
    pub pp: usize,
    pub xnu: usize,
    pub atax: usize,
    pub centre: usize,
    pub scale: usize,
    pub recip: usize,
    pub spare: usize,
    pub left: usize,
    pub right: usize,
    pub sums: usize,
    pub gram: usize,
    pub y: usize,
    pub z: usize,
    pub nu: usize,
    pub newz: usize,
    pub design: usize,
}

// The sizes of a fit, by mode: a lazy one stores no design and has panels, any other stores one and has none.
pub fn sizes_of(n: usize, p: usize, st: Settings) -> Sizes
    requires n_bound { n ≤ 4096 }
    requires p_bound { p ≤ 64 }
    ensures { result ≡ sizes_of n p st }
{
    let k = n + p;
    if st.lazy {
        return Sizes {
            n: n,
            p: p,
            k: k,
            lazy: true,
            stored: 0,
            pr: st.panel_rows,
            pc: st.panel_cols,
        };
    }
    Sizes {
        n: n,
        p: p,
        k: k,
        lazy: false,
        stored: k,
        pr: 0,
        pc: 0,
    }
}

// The words of scratch that a fit of these sizes needs.
pub fn need(sh: Sizes) -> usize
    requires { Small sh }
    ensures { result ≡ words sh }
{
    let p = sh.p;
    40 * p + 2 * (sh.pr * sh.pc) + sh.pc * sh.pc + p * p + 4 * sh.k + sh.stored * p
}

// The vectors one behind another, without gaps, in the order of `Places`. Panels and stored design have no words in a mode without them.
pub fn place(sh: Sizes) -> Places
    requires { Small sh }
    ensures { Laid sh result }
{
    let p = sh.p;
    let k = sh.k;
    let panel = sh.pr * sh.pc;
    let left = 40 * p;
    let gram = left + 2 * panel + sh.pc * sh.pc;
    let y = gram + p * p;
    Places {
        w: 0,
        u: p,
        neww: 2 * p,
        newu: 3 * p,
        f: 4 * p,
        newf: 6 * p,
        q1: 8 * p,
        q2: 9 * p,
        d1: 10 * p,
        d2: 11 * p,
        prb: 12 * p,
        prs: 13 * p,
        dxu: 14 * p,
        grad: 16 * p,
        r: 18 * p,
        rr: 20 * p,
        zs: 22 * p,
        zz: 24 * p,
        ps: 26 * p,
        pp: 28 * p,
        xnu: 30 * p,
        atax: 31 * p,
        centre: 32 * p,
        scale: 33 * p,
        recip: 34 * p,
        spare: 35 * p,
        left: left,
        right: left + panel,
        sums: left + 2 * panel,
        gram: gram,
        y: y,
        z: y + k,
        nu: y + 2 * k,
        newz: y + 3 * k,
        design: y + 4 * k,
    }
}
