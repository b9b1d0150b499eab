// The index call's answer and its rows against a search that goes through the nodes. Safe and ending on any arguments;
// its contracts say no more.

#![tactic(auto)]

use clamped::{front, front_mut};
use folder::Refusal;
use graph::{MOST_NODES, SLOTS};
use solver::{Folders, MOST_VARIABLES, State, small};
use std::io;
use tally::{Run, number_of};

// What every row holds before the call.
const BEFORE: u16 = 9;

// Values of a batch at most.
const MOST_VALUES: usize = 31;

fn element(row: &[u16], k: usize) -> u16 {
    row.get(k).copied().unwrap_or(0)
}

// From element n on the row holds what it held.
fn kept_from(row: &[u16], n: usize) -> bool {
    row.iter().skip(n).all(|x| *x == BEFORE)
}

// The node that a slot or an answer names: its greatest number stands for none.
fn named(x: u16) -> Option<u16> {
    (x != u16::MAX).then_some(x)
}

// Node n goes into the next slot from p on that is free, round the end.
fn put(due: &mut [Option<u16>; SLOTS], p: usize, n: usize) {
    for d in 0..SLOTS {
        let q = p.saturating_add(d) % SLOTS;
        if due[q].is_none() {
            due[q] = u16::try_from(n).ok();
            return;
        }
    }
}

// Node n enters if its label is new.
fn enter(due: &mut [Option<u16>; SLOTS], f: Folders, n: usize) {
    let s = f.concrete(n);
    if f.first_like(&s, n, false).is_none() {
        put(due, solver::hash_of(&s, solver::variables(f.model)), n);
    }
}

fn slots_right(f: Folders, row: &[u16]) -> bool {
    let mut due = [None; SLOTS];
    for n in 0..f.nodes() {
        enter(&mut due, f, n);
    }
    SLOTS <= row.len()
        && row.iter().zip(due.iter()).all(|(x, due)| named(*x) == *due)
        && kept_from(row, SLOTS)
}

// The whole number of a number of a line, which 32 bits hold.
fn whole(u: usize) -> i64 {
    u32::try_from(u).map_or(0, |u| i64::from(u.cast_signed()))
}

fn state_of(values: &[usize]) -> State {
    let mut s = [0; MOST_VARIABLES];
    for (x, value) in s.iter_mut().zip(values) {
        *x = whole(*value);
    }
    s
}

// The batch as the library takes it.
fn batch_of(values: &[usize]) -> [i16; MOST_VALUES] {
    let mut row = [0; MOST_VALUES];
    for (x, value) in row.iter_mut().zip(values) {
        *x = small(whole(*value));
    }
    row
}

// The answer to a state is the lowest node with the label, or none.
fn answer_right(f: Folders, values: &[usize], x: u16) -> bool {
    named(x).map(usize::from) == f.first_like(&state_of(values), f.nodes(), false)
}

// State k of a batch, of so many values.
fn values_of(values: &[usize], vars: usize, k: usize) -> &[usize] {
    let rest = values.get(vars.saturating_mul(k)..).unwrap_or(&[]);
    front(rest, vars)
}

// Answers to the states of a batch of n values, and after them what the row held.
fn answers_right(f: Folders, values: &[usize], n: usize, row: &[u16]) -> bool {
    let vars = solver::variables(f.model);
    let states = n.checked_div(vars).unwrap_or(0);
    (0..states).all(|k| answer_right(f, values_of(values, vars, k), element(row, k)))
        && kept_from(row, states)
}

// Node n is uncovered, and a lower uncovered one has its label.
fn is_twin(f: Folders, n: usize) -> bool {
    !f.is_covered(n) && f.first_like(&f.concrete(n), n, true).is_some()
}

// The twins in the row, ascending, and after them what it held; and they are so many.
fn listing_right(f: Folders, count: usize, row: &[u16]) -> bool {
    let twins = (0..f.nodes()).filter(|n| is_twin(f, *n));
    let listed = front(row, count).iter().map(|x| usize::from(*x));
    twins.eq(listed) && count <= row.len() && kept_from(row, count)
}

// The index call on rows of these lengths and a batch of n values, of which 0 stands for those that are not there. Refused,
// all rows stay.
pub fn index_case<R: Print>(
    run: &mut Run<R>,
    f: Folders,
    rooms: [usize; 3],
    values: &[usize],
    n: usize,
    due: Result<(), Refusal>,
) -> io::Result<()> {
    let mut slots = [BEFORE; SLOTS + 1];
    let mut answers = [BEFORE; MOST_VALUES];
    let mut listing = [BEFORE; MOST_NODES + 1];
    let batch = batch_of(values);
    let r = laguipy::index(
        f.model,
        f.graph,
        front_mut(&mut slots, rooms[0]),
        front(&batch, n),
        front_mut(&mut answers, rooms[1]),
        front_mut(&mut listing, rooms[2]),
    );
    run.judge(r.map(|_| ()), due)?;
    let listed = r.unwrap_or(0);
    let right = if number_of(due) == 0 {
        slots_right(f, &slots)
            && answers_right(f, values, n, &answers)
            && listing_right(f, listed, &listing)
    } else {
        kept_from(&slots, 0) && kept_from(&answers, 0) && kept_from(&listing, 0)
    };
    run.hold(right, listed, 0)
}

// The same with rows that fit and no batch, due to answer as the graph check does.
pub fn index_as<R: Print>(
    run: &mut Run<R>,
    f: Folders,
    due: Result<(), Refusal>,
) -> io::Result<()> {
    index_case(run, f, [SLOTS, 0, MOST_NODES], &[], 0, due)
}
