// Predictions. The words are rows, columns, the intercept's bits and the predictions; the numbers matrix and weights.
use numbers::bits::of_bits;
use prediction::predict;
use stored::Damaged;
use stored::bits::same;
use stored::room::number_room;
use stored::tally::Compared;

pub fn verdict(w: &[u64], x: &[f64], weights: &[f64]) -> Result<Compared, Damaged> {
    let [rows, columns, intercept, wanted @ ..] = w else {
        return Err(Damaged(0));
    };
    if wanted.len() > 4096 {
        return Err(Damaged(0));
    }
    let mut space = number_room();
    let out = &mut space[..wanted.len()];
    let b = of_bits(*intercept);
    let r = predict(*rows as usize, *columns as usize, x, weights, b, out);
    Ok(Compared::one(r.is_ok() && same(out, wanted)))
}
