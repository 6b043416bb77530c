// Products with the design, by mode.
#![tactic(auto)]

ghost use Rattle.std.specs.Prelude.{◌≡◌, ◌+◌, ◌≤◌, length};
ghost use Rattle.arrays.specs.Part.{part, put};
ghost use Rattle.layout.specs.Slots.{HasRoom, Suits, vars};
ghost use Rattle.design_products.specs.Mode.{matvec_of, transposed_of};

use layout::fit::Fit;

// The design times the vector at v, from the stored design or, in a lazy fit, from the lent matrix. v lies below the columns' numbers and the output between
// the Gram and the stored design, so that nothing which is read is overwritten.
pub fn matvec(fit: &Fit, s: &mut [f64], v: usize, out: usize)
    requires room { HasRoom fit.now.sizes s.old }
    requires suits { Suits fit.now.sizes fit.now.matrix.now }
    requires p_bound { v + fit.now.sizes.p ≤ fit.now.places.centre }
    requires y_le_out { fit.now.places.y ≤ out }
    requires k_bound { out + fit.now.sizes.k ≤ fit.now.places.design }
    ensures { let f = fit.now in s.new ≡ put s.old out (matvec_of f.sizes f.terms f.matrix.now
        (vars f.sizes s.old) (part s.old v f.sizes.p)) }
{
    let sh = fit.sizes;
    let l = fit.places;
    if sh.lazy {
        lazy_rows::rows(fit.matrix, sh.n, sh.p, fit.terms, s, l, v, out);
        return;
    }
    matrices::products::rows(s, l.design, sh.stored, sh.p, v, out);
}

// The transposed design times the vector at v. Here v lies between the Gram and the stored design, and the output below the columns' numbers.
pub fn transposed(fit: &Fit, s: &mut [f64], v: usize, out: usize)
    requires room { HasRoom fit.now.sizes s.old }
    requires suits { Suits fit.now.sizes fit.now.matrix.now }
    requires p_bound { out + fit.now.sizes.p ≤ fit.now.places.centre }
    requires y_le_v { fit.now.places.y ≤ v }
    requires k_bound { v + fit.now.sizes.k ≤ fit.now.places.design }
    ensures { let f = fit.now in s.new ≡ put s.old out (transposed_of f.sizes f.terms f.matrix.now
        (vars f.sizes s.old) (part s.old v f.sizes.k)) }
{
    let sh = fit.sizes;
    let l = fit.places;
    if sh.lazy {
        lazy_columns::columns(fit.matrix, sh.n, sh.p, fit.terms, s, l, v, out);
        return;
    }
    matrix_columns::columns(s, l.design, sh.stored, sh.p, v, out);
}

// Two such products, in one pass where no reciprocal is missing: of the vector at v, and of the one at w into the first of t.
pub fn transposed_both(fit: &Fit, s: &mut [f64], v: usize, out: usize, w: usize, t: &mut [f64])
    requires room { HasRoom fit.now.sizes s.old }
    requires suits { Suits fit.now.sizes fit.now.matrix.now }
    requires p_bound { out + fit.now.sizes.p ≤ fit.now.places.centre }
    requires y_le_v { fit.now.places.y ≤ v }
    requires k_bound { v + fit.now.sizes.k ≤ fit.now.places.design }
    requires y_le_w { fit.now.places.y ≤ w }
    requires k_bound_2 { w + fit.now.sizes.k ≤ fit.now.places.design }
    requires p_in_bounds { fit.now.sizes.p ≤ length t.old }
    ensures s_after { let f = fit.now in s.new ≡ put s.old out (transposed_of f.sizes f.terms f.matrix.now
        (vars f.sizes s.old) (part s.old v f.sizes.k)) }
    ensures t_after { let f = fit.now in t.new ≡ put t.old 0 (transposed_of f.sizes f.terms f.matrix.now
        (vars f.sizes s.old) (part s.old w f.sizes.k)) }
{
    let sh = fit.sizes;
    let l = fit.places;
    if sh.lazy {
        lazy_columns_both::columns_both(fit.matrix, sh.n, sh.p, fit.terms, s, l, v, out, w, t);
        return;
    }
    matrix_columns::columns_both(s, l.design, sh.stored, sh.p, v, out, w, t);
}
