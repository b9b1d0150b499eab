// The library's steps, figures and root values against the solver's, and the figure and the build call's answers and rows.
// Safe and ending on any arguments; its contracts say no more.

#![tactic(auto)]

use clamped::{front, front_mut};
use folder::Refusal;
use graph::{MOST_NODES, Summary};
use solver::{Asked, Folders, MOST_VARIABLES, Refused, State, small};
use std::io;
use tally::{Run, answer, number_of};

// The rows beyond a result, and a refused step's, keep this.
const KEPT: i16 = 7;

// What a row of figures holds before the call.
const BEFORE: u32 = 9;

// The slice of the longest line of the build call, and what it holds before the call.
const SLICE: usize = 4096;

const UNWRITTEN: u8 = 9;

// The first n values as the library takes them.
fn row_of(s: &State, n: usize) -> [i16; MOST_VARIABLES] {
    let mut row = [KEPT; MOST_VARIABLES];
    for (x, value) in row.iter_mut().zip(front(s, n)) {
        *x = small(*value);
    }
    row
}

fn due_row(m: &[u8], due: Result<State, Refused>) -> [i16; MOST_VARIABLES] {
    match due {
        Ok(after) => row_of(&after, solver::variables(m)),
        Err(_) => [KEPT; MOST_VARIABLES],
    }
}

fn due_answer(due: Result<State, Refused>) -> Result<(), Refusal> {
    match due {
        Ok(_) => Ok(()),
        Err(f) => answer(f.number, f.place),
    }
}

// A step: the answer, the new state, and the rest of the row.
fn step_case<R: Print>(run: &mut Run<R>, m: &[u8], s: &State, a: Asked) -> io::Result<()> {
    let due = solver::step(m, s, a);
    let state = row_of(s, MOST_VARIABLES);
    let mut row = [KEPT; MOST_VARIABLES];
    let o = laguipy::step(
        m,
        front(&state, a.values),
        a.command,
        a.branch,
        front_mut(&mut row, a.room),
    );
    run.count_step();
    run.judge(o, due_answer(due))?;
    run.hold(row == due_row(m, due), a.command, a.branch)
}

// The same of a state of zeros.
pub fn zero_step<R: Print>(run: &mut Run<R>, m: &[u8], a: Asked) -> io::Result<()> {
    step_case(run, m, &[0; MOST_VARIABLES], a)
}

// A state of the pedal model, at j of a box that goes one past each range.
fn box_state(j: usize) -> State {
    let mut s = [0; MOST_VARIABLES];
    s[0] = (j % 6) as i64 - 1;
    s[1] = (j / 6 % 4) as i64 - 1;
    s
}

// From every state of the box, by commands and branches to one past the last.
pub fn box_steps<R: Print>(run: &mut Run<R>, m: &[u8]) -> io::Result<()> {
    for j in 0..216 {
        let a = Asked {
            values: 2,
            room: MOST_VARIABLES,
            command: j / 24 % 3,
            branch: j / 72,
        };
        step_case(run, m, &box_state(j), a)?;
    }
    Ok(())
}

// Round h of an accepted graph: each figure at least the best chance, and at most h units more.
fn figures_case<R: Print>(run: &mut Run<R>, f: Folders, h: usize) -> io::Result<()> {
    let mut first = [0u32; 8];
    let mut second = [0u32; 8];
    let told = laguipy::figure_refusal(f.model, f.graph, h, &first, &second);
    run.count(told);
    if told.is_err() {
        return Ok(());
    }
    let row = laguipy::figure(f.model, f.graph, h, &mut first, &mut second);
    run.hold_bound(h, f.try_figures(h, row))
}

// Bounds on an accepted graph, within 0 to 4 steps.
pub fn bounds<R: Print>(run: &mut Run<R>, f: Folders) -> io::Result<()> {
    for h in 0..5 {
        figures_case(run, f, h)?;
        run.hold_bound(h, f.try_root(h))?;
    }
    Ok(())
}

// A figure call leaves both rows as they are where it is refused, and only there.
fn kept<R: Print>(
    run: &mut Run<R>,
    due: Result<(), Refusal>,
    first: &[u32],
    second: &[u32],
) -> io::Result<()> {
    let same = first.iter().chain(second).all(|x| *x == BEFORE);
    let number = number_of(due);
    run.hold(same == (number != 0), number, 0)
}

// By the call that writes nothing, and by the one that writes.
fn on_rows<R: Print>(
    run: &mut Run<R>,
    f: Folders,
    h: usize,
    first: &mut [u32],
    second: &mut [u32],
    due: Result<(), Refusal>,
) -> io::Result<()> {
    let told = laguipy::figure_refusal(f.model, f.graph, h, first, second);
    let made = laguipy::figure_rows(f.model, f.graph, h, first, second);
    kept(run, due, first, second)?;
    run.judge(told, due)?;
    run.judge(made, due)
}

// The call that hands its figures back, on rows of n and k units. What it leaves in both rows no contract can state: it
// is what `figure_rows` leaves in rows that held the same.
pub fn rows_case<R: Print>(
    run: &mut Run<R>,
    f: Folders,
    h: usize,
    n: usize,
    k: usize,
) -> io::Result<()> {
    let mut first = [BEFORE; MOST_NODES];
    let mut second = [BEFORE; MOST_NODES];
    let mut handed_first = [BEFORE; MOST_NODES];
    let mut handed_second = [BEFORE; MOST_NODES];
    let _ = laguipy::figure_rows(
        f.model,
        f.graph,
        h,
        front_mut(&mut first, n),
        front_mut(&mut second, k),
    );
    laguipy::figure(
        f.model,
        f.graph,
        h,
        front_mut(&mut handed_first, n),
        front_mut(&mut handed_second, k),
    );
    run.hold(first == handed_first && second == handed_second, h, 0)
}

// The figure call of round h, on rows of n and k units.
pub fn figure_case<R: Print>(
    run: &mut Run<R>,
    f: Folders,
    h: usize,
    n: usize,
    k: usize,
    due: Result<(), Refusal>,
) -> io::Result<()> {
    let mut first = [BEFORE; MOST_NODES];
    let mut second = [BEFORE; MOST_NODES];
    on_rows(
        run,
        f,
        h,
        front_mut(&mut first, n),
        front_mut(&mut second, k),
        due,
    )?;
    rows_case(run, f, h, n, k)
}

// ---- graphs, and the build call

// A graph that is due to be accepted, with this root value and these nodes.
pub fn summary_case<R: Print>(run: &mut Run<R>, f: Folders, due: Summary) -> io::Result<()> {
    match laguipy::graph_check(f.model, f.graph) {
        Ok(s) => run.hold(s == due, s.root, s.expanded),
        Err(e) => run.hold(false, e.number, e.place),
    }
}

fn unwritten(s: &[u8], from: usize) -> bool {
    s.iter().skip(from).all(|b| *b == UNWRITTEN)
}

// The graph that a build call is due to make: its length, its root value and its nodes.
#[derive(Clone, Copy)]
pub struct Built {
    pub length: usize,
    pub summary: Summary,
}

// A graph of n bytes was built: it is accepted, the solver's bounds hold of it, and what is past it is untouched.
fn built_case<R: Print>(
    run: &mut Run<R>,
    m: &[u8],
    s: &[u8],
    n: usize,
    due: Built,
) -> io::Result<()> {
    let f = Folders {
        model: m,
        graph: front(s, n),
    };
    run.hold(n == due.length && unwritten(s, n), n, 0)?;
    summary_case(run, f, due.summary)?;
    bounds(run, f)
}

fn build_in<R: Print>(
    run: &mut Run<R>,
    m: &[u8],
    rounds: usize,
    room: usize,
    s: &mut [u8],
    due: Result<(), Refusal>,
    built: Built,
) -> io::Result<()> {
    let a = laguipy::build(m, rounds, front_mut(s, room));
    run.judge(a.map(|_| ()), due)?;
    match a {
        Ok(n) => built_case(run, m, s, n, built),
        Err(_) => run.hold(unwritten(s, 0), 0, 0),
    }
}

// The build call on a slice of that room: its answer, and of a graph built, whatever answer is due, what it is due to be.
pub fn build_case<R: Print>(
    run: &mut Run<R>,
    m: &[u8],
    rounds: usize,
    room: usize,
    due: Result<(), Refusal>,
    built: Built,
) -> io::Result<()> {
    let mut slice = [UNWRITTEN; SLICE];
    build_in(run, m, rounds, room, &mut slice, due, built)
}
