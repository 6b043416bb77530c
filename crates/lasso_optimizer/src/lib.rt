// What a round of the optimiser leaves to the next, and how its parts answer. The parts are defined in specs/, with the nested loops over them; the code of
// each has a crate of its own.
#![tactic(auto)]

use refusal::Failure;

// The scalars between steps.
#[derive(Clone, Copy)]
pub struct Scalars {
    // the barrier's weight, the search's step, the best dual value so far
    pub t: f64,
    pub s: f64,
    pub dual: f64,
    // the solver's: its tolerance, the norm of its right side, bkden and error of its last round
    pub pcgtol: f64,
    pub bnrm: f64,
    pub bkden: f64,
    pub error: f64,
    // the search's: phi and the gradient's product with the direction
    pub phi: f64,
    pub gdx: f64,
    // a solve has missed its tolerance
    pub missed: bool,
}

// An opening: the solver is ready; the fit has converged; it fails.
#[derive(Clone, Copy)]
pub enum Opened {
    Ready(Scalars),
    Done,
    Failed(Failure),
}

// A solver round: it goes on; it stops.
#[derive(Clone, Copy)]
pub enum Turned {
    More(Scalars),
    Stop(Scalars),
}

// A trial: it is taken; the step is halved.
#[derive(Clone, Copy)]
pub enum Tried {
    Accept(Scalars),
    Halve(Scalars),
}
