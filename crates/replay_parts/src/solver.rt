// The lone solver, on a marked scratch that is three words longer than it need be. The words are order, limit, the tolerance's bits, the answer
// (refusal, the error's bits, solution) and the start; the numbers matrix and right side.
use lone_solver::solve;
use numbers::bits::{bits_of, of_bits};
use refusal::{number, place};
use stored::Damaged;
use stored::bits::{load, same};
use stored::memory::Marks;
use stored::room::number_room;
use stored::tally::Compared;

// Compared are answer and solution, and the scratch: after an answer eight words for each row are +0, and those behind them as they were; after a refusal all are.
pub fn verdict(w: &[u64], a: &[f64], b: &[f64]) -> Result<Compared, Damaged> {
    let [order, limit, tolerance, refused, error, vectors @ ..] = w else {
        return Err(Damaged(0));
    };
    let n = vectors.len() / 2;
    if n > 64 {
        return Err(Damaged(0));
    }
    let (solution, start) = vectors.split_at(n);
    let mut xs = number_room();
    let mut space = number_room();
    let x = &mut xs[..n];
    let s = &mut space[..8 * n + 3];
    load(&start[..n], x);
    let marks = Marks::default();
    marks.fill(s);
    let tolerance = of_bits(*tolerance);
    let r = solve(*order as usize, a, b, x, tolerance, *limit as usize, s);
    let (answered, left) = match r {
        Ok(e) => (
            *refused == 0 && bits_of(e) == *error,
            marks.cleared(s, 8 * n),
        ),
        Err(q) => (
            number(q) == *refused && place(q) == 0 && *error == 0,
            marks.kept(s),
        ),
    };
    Ok(Compared([answered && same(x, solution), left, true, true]))
}
