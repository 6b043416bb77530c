// start, resume, fit_in_pieces, fit, predict, solve, count_rows and read_sheet once each, on numbers that can be followed by hand; the README quotes what this prints.
#![tactic(auto)]

ghost use Rattle.std.specs.Prelude.{◌≡◌, length};

use elastic_net::{Answer, resume, start};
use lone_solver::solve;
use numbers::bits::bits_of;
use paused_fit::fit_in_pieces;
use prediction::predict;
use records::{Counts, Paused};
use refusal::{Refusal, Way};
use settings::Settings;
use sheet::{count_rows, read_sheet};
use sheet_front::Version;
use sheet_header::Header;
use sheet_move::{Moved, move_down, move_up};
use sheet_write::write_sheet;
use std::io;
use whole_fit::fit;

// An error where printing fails, here as in each function that prints.
fn main(rt: HostRuntime) -> io::Result<()> {
    in_budgets(&rt)?;
    in_pieces(&rt)?;
    whole(&rt)?;
    predictions(&rt)?;
    solver(&rt)?;
    sheet_bytes(&rt)
}

fn settings() -> Settings {
    Settings {
        alpha: 0.01,
        l1_ratio: 0.5,
        tol: 0.0001,
        max_iter: 100,
        panel_rows: 256,
        panel_cols: 32,
        normalise: true,
        lazy: false,
    }
}

fn in_budgets(rt: &impl Print) -> io::Result<()> {
    let x = [1.0, 0.0, 0.0, 1.0, 1.0, 1.0, 2.0, 1.0];
    let y = [1.0, 2.0, 3.0, 4.0];
    let mut scratch = [0.0; 120];
    match start(4, 2, &x, &y, settings(), &mut scratch) {
        Ok(record) => three_calls(rt, &x, &y, scratch, record),
        Err(r) => refused(rt, r),
    }
}

// Between two calls a fit is its record and its scratch.
fn three_calls(
    rt: &impl Print,
    x: &[f64],
    y: &[f64],
    memory: [f64; 120],
    fresh: Paused,
) -> io::Result<()> {
    let mut scratch = memory;
    let mut weights = [0.0; 2];
    let record = call(rt, x, y, fresh, &mut scratch, &mut weights)?;
    let record = call(rt, x, y, record, &mut scratch, &mut weights)?;
    call(rt, x, y, record, &mut scratch, &mut weights)?;
    Ok(())
}

// 20 steps; the record is that of the next call.
fn call(
    rt: &impl Print,
    x: &[f64],
    y: &[f64],
    record: Paused,
    s: &mut [f64],
    w: &mut [f64],
) -> io::Result<Paused>
    requires { length w.old ≡ 2 }
{
    let r = resume(4, 2, x, y, settings(), record, s, w, 20);
    match r.answer {
        Answer::Pending => println!(rt; "pending")?,
        Answer::Done(intercept, way, c) => done(rt, intercept, way, c, w[0], w[1])?,
        Answer::Refused(r) => refused(rt, r)?,
    }
    Ok(r.paused)
}

// The same fit by code whose contract says that the pauses change nothing.
fn in_pieces(rt: &impl Print) -> io::Result<()> {
    let x = [1.0, 0.0, 0.0, 1.0, 1.0, 1.0, 2.0, 1.0];
    let y = [1.0, 2.0, 3.0, 4.0];
    let mut scratch = [0.0; 120];
    let mut weights = [0.0; 2];
    let r = fit_in_pieces(4, 2, &x, &y, settings(), &mut scratch, &mut weights, 20, 20);
    print!(rt; "in pieces: ")?;
    match r.answer {
        Ok(f) => ended(rt, f.way, f.counts),
        Err(r) => refused(rt, r),
    }
}

fn whole(rt: &impl Print) -> io::Result<()> {
    let x = [1.0, 0.0, 0.0, 1.0, 1.0, 1.0, 2.0, 1.0];
    let y = [1.0, 2.0, 3.0, 4.0];
    let mut scratch = [0.0; 120];
    let mut weights = [0.0; 2];
    let r = fit(4, 2, &x, &y, settings(), &mut scratch, &mut weights);
    match r.answer {
        Ok(f) => done(rt, f.intercept, f.way, f.counts, weights[0], weights[1]),
        Err(r) => refused(rt, r),
    }
}

fn predictions(rt: &impl Print) -> io::Result<()> {
    let x = [3.0, 1.0, 0.0, 2.0];
    let w = [0.5, 0.25];
    let mut out = [0.0; 2];
    match predict(2, 2, &x, &w, 1.0, &mut out) {
        Ok(()) => two(rt, "predicted", out[0], out[1]),
        Err(r) => refused(rt, r),
    }
}

// The second call is refused: a limit of 0.
fn solver(rt: &impl Print) -> io::Result<()> {
    let a = [25.0, 15.0, -5.0, 15.0, 18.0, 0.0, -5.0, 0.0, 11.0];
    let b = [40.0, 51.0, 28.0];
    let mut x = [0.0; 3];
    let mut scratch = [0.0; 24];
    let r = solve(3, &a, &b, &mut x, 0.000001, 10, &mut scratch);
    solved(rt, r, x[0], x[1], x[2])?;
    let r = solve(3, &a, &b, &mut x, 0.000001, 0, &mut scratch);
    solved(rt, r, x[0], x[1], x[2])
}

// The pairs are (1, 1), (2, 0), which is cancelled, with a feature that is no number, and (3, 2). Two rows remain, 0 and 1: a claim number is never a position.
fn sheet_bytes(rt: &impl Print) -> io::Result<()> {
    let sources = [1u16, 2, 3];
    let targets = [1u16, 0, 2];
    let x = [1.0, 0.0 / 0.0, 2.0];
    let y = [1.0, 0.0, 3.0];
    let mut sheet = [0u8; 98];
    written(
        rt,
        write_sheet(
            Version::One,
            3,
            1,
            settings(),
            &sources,
            &targets,
            &x,
            &y,
            &mut sheet,
        ),
    )?;
    let mut family = [0u8; 102];
    moved(rt, move_up(&sheet, 7, &mut family))?;
    rows(rt, &family)?;
    moved(rt, move_down(&family, &mut sheet))
}

fn written(rt: &impl Print, o: Result<usize, Refusal>) -> io::Result<()> {
    match o {
        Ok(k) => println!(rt; "written, {k} bytes"),
        Err(r) => refused(rt, r),
    }
}

fn moved(rt: &impl Print, o: Result<Moved, Refusal>) -> io::Result<()> {
    match o {
        Ok(m) => println!(rt; "moved, {} bytes, family {}", m.bytes, m.family),
        Err(r) => refused(rt, r),
    }
}

fn rows(rt: &impl Print, bytes: &[u8]) -> io::Result<()> {
    rows_left(rt, count_rows(bytes, 32, 8))?;
    let mut x = [0.0; 2];
    let mut y = [0.0; 2];
    match read_sheet(bytes, 32, 8, &mut x, &mut y) {
        Ok(_) => {
            two(rt, "features", x[0], x[1])?;
            two(rt, "scores", y[0], y[1])
        }
        Err(r) => refused(rt, r),
    }
}

fn rows_left(rt: &impl Print, o: Result<Header, Refusal>) -> io::Result<()> {
    match o {
        Ok(h) => println!(rt; "{} rows remain", h.n),
        Err(r) => refused(rt, r),
    }
}

fn done(rt: &impl Print, intercept: f64, way: Way, c: Counts, w0: f64, w1: f64) -> io::Result<()> {
    ended(rt, way, c)?;
    one(rt, "intercept", intercept)?;
    println!(rt; "")?;
    two(rt, "weights", w0, w1)
}

// How a fit ended, and its counts.
fn ended(rt: &impl Print, way: Way, c: Counts) -> io::Result<()> {
    println!(rt;
        "{way}, rounds {} solver {} trials {}",
        c.rounds.0, c.solver.0, c.trials.0
    )
}

fn solved(rt: &impl Print, a: Result<f64, Refusal>, x0: f64, x1: f64, x2: f64) -> io::Result<()> {
    match a {
        Ok(error) => {
            one(rt, "solved", x0)?;
            one(rt, "", x1)?;
            one(rt, "", x2)?;
            one(rt, ", error", error)?;
            println!(rt; "")
        }
        Err(r) => refused(rt, r),
    }
}

fn two(rt: &impl Print, name: &str, a: f64, b: f64) -> io::Result<()> {
    one(rt, name, a)?;
    one(rt, "", b)?;
    println!(rt; "")
}

fn one(rt: &impl Print, name: &str, a: f64) -> io::Result<()> {
    let bits = bits_of(a);
    print!(rt; "{name} {bits:016x}")
}

fn refused(rt: &impl Print, r: Refusal) -> io::Result<()> {
    println!(rt; "{r}")
}
