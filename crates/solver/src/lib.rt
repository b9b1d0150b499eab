// A separately written solver, to try the checker against. It shares no code and no definition with it: it reads the
// folders' bytes by itself, works expressions out by plain recursion and finds best chances by going through the
// states. It believes that its model passed the check; on any bytes it is safe and it ends, and that is all its
// contracts say.

#![tactic(auto)]

use clamped::{field, front, long, signed};
use std::array;

pub const MOST_VARIABLES: usize = 16;

// The value of each variable; past the last, 0.
pub type State = [i64; MOST_VARIABLES];

// What the values of a state mean.
type Meanings = [usize; MOST_VARIABLES];

const CERTAIN: usize = 1000000000;

const LEVELS: usize = 12;

// A number x means ZERO + x, and a truth 1 or 0: on a model that the check refuses, a number is not taken for a truth.
const ZERO: usize = 1099511627776;

// The least number that has such a meaning, and the meaning of the greatest number.
const LEAST: i64 = -(ZERO as i64);

const MOST: usize = ZERO + i64::MAX as usize;

const FNV_START: u32 = 2166136261;

const FNV_PRIME: u32 = 16777619;

// A number of the table of refusals, and its place.
#[derive(Clone, Copy)]
pub struct Refused {
    pub number: usize,
    pub place: usize,
}

// What a step is asked with: how many values of its state, a row's room for the new one, a command and a branch of it.
#[derive(Clone, Copy)]
pub struct Asked {
    pub values: usize,
    pub room: usize,
    pub command: usize,
    pub branch: usize,
}

// The bytes of a model, and of a graph of it.
#[derive(Clone, Copy)]
pub struct Folders<'a> {
    pub model: &'a [u8],
    pub graph: &'a [u8],
}

// An entry's operation, in the order of their numbers.
#[derive(Clone, Copy)]
enum Operation {
    Number,
    Variable,
    Sum,
    Difference,
    Product,
    Least,
    Greatest,
    Choice,
    Equal,
    Less,
    AtMost,
    Not,
    And,
    Or,
    Always,
}

impl From<usize> for Operation {
    fn from(number: usize) -> Operation {
        match number {
            0 => Operation::Number,
            1 => Operation::Variable,
            2 => Operation::Sum,
            3 => Operation::Difference,
            4 => Operation::Product,
            5 => Operation::Least,
            6 => Operation::Greatest,
            7 => Operation::Choice,
            8 => Operation::Equal,
            9 => Operation::Less,
            10 => Operation::AtMost,
            11 => Operation::Not,
            12 => Operation::And,
            14 => Operation::Always,
            _ => Operation::Or,
        }
    }
}

// Where record r of body b begins, in records of so many bytes.
fn record(s: &[u8], b: usize, bytes: usize, r: usize) -> usize {
    start(s, b).saturating_add(bytes.saturating_mul(r))
}

fn start(s: &[u8], b: usize) -> usize {
    long(s, b.saturating_mul(8))
}

fn size(s: &[u8], b: usize) -> usize {
    long(s, b.saturating_mul(8).saturating_add(4))
}

pub fn variables(m: &[u8]) -> usize {
    size(m, 1) / 6
}

pub fn commands(m: &[u8]) -> usize {
    size(m, 3) / 4
}

fn node_size(m: &[u8]) -> usize {
    variables(m).saturating_mul(4).saturating_add(12)
}

fn total(m: &[u8]) -> usize {
    field(m, start(m, 0))
}

fn target(m: &[u8]) -> usize {
    field(m, start(m, 0).saturating_add(2))
}

fn guard(m: &[u8], c: usize) -> usize {
    field(m, record(m, 3, 4, c))
}

pub fn branches(m: &[u8], c: usize) -> usize {
    field(m, record(m, 3, 4, c).saturating_add(2))
}

// Where part i of entry e stands: the operation is part 0.
fn part_at(m: &[u8], e: usize, i: usize) -> usize {
    record(m, 2, 8, e).saturating_add(i.saturating_mul(2))
}

fn part(m: &[u8], e: usize, i: usize) -> usize {
    field(m, part_at(m, e, i))
}

// Field i of branch record r: the weight is field 0.
fn branch_part(m: &[u8], r: usize, i: usize) -> usize {
    let bytes = variables(m).saturating_mul(2).saturating_add(2);
    field(
        m,
        record(m, 4, bytes, r).saturating_add(i.saturating_mul(2)),
    )
}

// What a number from `LEAST` on means, and the number that a meaning is, or the greatest.
fn meant(x: i64) -> usize {
    ZERO.wrapping_add(x.cast_unsigned() as usize)
}

fn number(x: usize) -> i64 {
    x.min(MOST).wrapping_sub(ZERO).cast_signed() as i64
}

fn times(x: usize, y: usize) -> usize {
    let n = x.abs_diff(ZERO).saturating_mul(y.abs_diff(ZERO));
    if (x < ZERO) == (y < ZERO) {
        ZERO.saturating_add(n)
    } else {
        ZERO.saturating_sub(n)
    }
}

// Operations of two parts.
fn joined(op: Operation, x: usize, y: usize) -> usize {
    match op {
        Operation::Sum => x.saturating_add(y).saturating_sub(ZERO),
        Operation::Difference => x.saturating_add(ZERO).saturating_sub(y),
        Operation::Product => times(x, y),
        Operation::Least => x.min(y),
        Operation::Greatest => x.max(y),
        Operation::Equal => usize::from(x == y),
        Operation::Less => usize::from(x < y),
        Operation::AtMost => usize::from(x <= y),
        Operation::And => x.saturating_mul(y),
        Operation::Or => usize::from(x.saturating_add(y) > 0),
        _ => 0,
    }
}

// The same of plain numbers, with a truth as 1 or 0.
fn joined_plainly(op: Operation, x: i64, y: i64) -> i64 {
    match op {
        Operation::Sum => x.saturating_add(y),
        Operation::Difference => x.saturating_sub(y),
        Operation::Product => x.saturating_mul(y),
        Operation::Least => x.min(y),
        Operation::Greatest => x.max(y),
        Operation::Equal => i64::from(x == y),
        Operation::Less => i64::from(x < y),
        Operation::AtMost => i64::from(x <= y),
        Operation::And => x.min(y),
        Operation::Or => x.max(y),
        _ => 0,
    }
}

// What an entry means: a usize, as said at ZERO, or plainly a number, for states with a value below `LEAST`.
trait Sense: Copy {
    fn of_number(x: i64) -> Self;

    fn of_truth(b: bool) -> Self;

    fn is_true(self) -> bool;

    fn not(self) -> Self;

    fn join(op: Operation, x: Self, y: Self) -> Self;

    fn value(self) -> i64;
}

// What a variable means, of what a state holds.
trait Read<V>: Sense {
    fn read(x: V) -> Self;
}

impl Sense for usize {
    fn of_number(x: i64) -> usize {
        meant(x)
    }

    fn of_truth(b: bool) -> usize {
        usize::from(b)
    }

    fn is_true(self) -> bool {
        self == 1
    }

    fn not(self) -> usize {
        1usize.saturating_sub(self)
    }

    fn join(op: Operation, x: usize, y: usize) -> usize {
        joined(op, x, y)
    }

    fn value(self) -> i64 {
        number(self)
    }
}

impl Read<i64> for usize {
    fn read(x: i64) -> usize {
        meant(x)
    }
}

impl Read<usize> for usize {
    fn read(x: usize) -> usize {
        x
    }
}

impl Sense for i64 {
    fn of_number(x: i64) -> i64 {
        x
    }

    fn of_truth(b: bool) -> i64 {
        i64::from(b)
    }

    fn is_true(self) -> bool {
        self == 1
    }

    fn not(self) -> i64 {
        1i64.saturating_sub(self)
    }

    fn join(op: Operation, x: i64, y: i64) -> i64 {
        joined_plainly(op, x, y)
    }

    fn value(self) -> i64 {
        self
    }
}

impl Read<i64> for i64 {
    fn read(x: i64) -> i64 {
        x
    }
}

// Entry e in a state; a false truth once the fuel is spent.
fn meaning<V: Copy, T: Read<V>>(m: &[u8], s: &[V; MOST_VARIABLES], e: usize, fuel: usize) -> T {
    if fuel == 0 {
        return T::of_truth(false);
    }
    match Operation::from(part(m, e, 0)) {
        Operation::Number => T::of_number(signed(m, part_at(m, e, 1))),
        Operation::Variable => match s.get(part(m, e, 1)) {
            Some(x) => T::read(*x),
            None => T::of_number(0),
        },
        Operation::Always => T::of_truth(true),
        Operation::Not => meaning::<V, T>(m, s, part(m, e, 1), fuel - 1).not(),
        Operation::Choice => {
            let i = if meaning::<V, T>(m, s, part(m, e, 1), fuel - 1).is_true() {
                2
            } else {
                3
            };
            meaning(m, s, part(m, e, i), fuel - 1)
        }
        op => {
            let x = meaning(m, s, part(m, e, 1), fuel - 1);
            let y = meaning(m, s, part(m, e, 2), fuel - 1);
            T::join(op, x, y)
        }
    }
}

// Whether every value of a state means a usize.
fn has_room(s: &State) -> bool {
    s.iter().fold(true, |all, x| all & (LEAST <= *x))
}

fn holds(m: &[u8], s: &State, e: usize) -> bool {
    if has_room(s) {
        meaning::<i64, usize>(m, s, e, LEVELS).is_true()
    } else {
        meaning::<i64, i64>(m, s, e, LEVELS).is_true()
    }
}

pub fn is_target(m: &[u8], s: &State) -> bool {
    holds(m, s, target(m))
}

pub fn enabled(m: &[u8], s: &State, c: usize) -> bool {
    holds(m, s, guard(m, c))
}

// Branch 0 of command c, as a branch record.
fn first_branch(m: &[u8], c: usize) -> usize {
    (0..c).fold(0usize, |n, i| n.saturating_add(branches(m, i)))
}

// n signed fields, one each `step` bytes.
fn values_at(s: &[u8], at: usize, step: usize, n: usize) -> State {
    array::from_fn(|i| {
        if i < n {
            signed(s, at.saturating_add(i.saturating_mul(step)))
        } else {
            0
        }
    })
}

// Of each variable field i of its record: its least value, its greatest, its first.
fn of_variables(m: &[u8], i: usize) -> State {
    values_at(
        m,
        start(m, 1).saturating_add(i.saturating_mul(2)),
        6,
        variables(m),
    )
}

pub fn initial(m: &[u8]) -> State {
    of_variables(m, 2)
}

// A number as the library takes it.
pub fn small(x: i64) -> i16 {
    x.clamp(i64::from(i16::MIN), i64::from(i16::MAX)) as i16
}

fn hashed(h: u32, x: i64) -> u32 {
    small(x)
        .to_le_bytes()
        .iter()
        .fold(h, |h, b| (h ^ u32::from(*b)).wrapping_mul(FNV_PRIME))
}

// FNV-1a of the first n values' bytes.
pub fn hash_of(s: &State, n: usize) -> usize {
    front(s, n).iter().fold(FNV_START, |h, x| hashed(h, *x)) as usize
}

// The state that branch record r gives; all its entries read the old one.
fn after<T: Read<i64>>(m: &[u8], s: &State, r: usize) -> State {
    let n = variables(m);
    array::from_fn(|i| {
        if i < n {
            meaning::<i64, T>(m, s, branch_part(m, r, i.saturating_add(1)), LEVELS).value()
        } else {
            0
        }
    })
}

pub fn next(m: &[u8], s: &State, c: usize, b: usize) -> State {
    let r = first_branch(m, c).saturating_add(b);
    if has_room(s) {
        after::<usize>(m, s, r)
    } else {
        after::<i64>(m, s, r)
    }
}

// The first variable whose value is outside its range. Of variables that a state has no room for, so is the first.
fn first_outside(m: &[u8], s: &State) -> Option<usize> {
    let low = of_variables(m, 0);
    let high = of_variables(m, 1);
    let i = s
        .iter()
        .zip(low.iter().zip(high.iter()))
        .position(|(x, (low, high))| *x < *low || *high < *x)
        .unwrap_or(MOST_VARIABLES);
    (i < variables(m)).then_some(i)
}

fn due(number: usize, place: usize) -> Result<State, Refused> {
    Err(Refused { number, place })
}

// The state that a step gives.
pub fn step(m: &[u8], s: &State, a: Asked) -> Result<State, Refused> {
    if a.values != variables(m) || a.room < a.values {
        return due(29, 0);
    }
    if let Some(i) = first_outside(m, s) {
        return due(30, i);
    }
    if commands(m) <= a.command {
        return due(31, a.command);
    }
    if !enabled(m, s, a.command) {
        return due(32, a.command);
    }
    if branches(m, a.command) <= a.branch {
        return due(33, a.branch);
    }
    Ok(next(m, s, a.command, a.branch))
}

fn power(d: usize, k: usize) -> usize {
    (0..k).fold(1usize, |p, _| p.saturating_mul(d))
}

// What branch record r gives of meanings, which may be past what a state has room for.
fn meant_after(m: &[u8], s: &Meanings, r: usize) -> Meanings {
    let n = variables(m);
    array::from_fn(|i| {
        if i < n {
            meaning(m, s, branch_part(m, r, i.saturating_add(1)), LEVELS)
        } else {
            ZERO
        }
    })
}

// P(k, s): the greatest over the enabled commands.
#[cycle(chance_sum)]
fn chance(m: &[u8], s: &Meanings, k: usize) -> usize {
    if meaning::<usize, usize>(m, s, target(m), LEVELS).is_true() {
        return power(total(m), k);
    }
    if k == 0 {
        return 0;
    }
    let mut best = 0;
    for c in 0..commands(m) {
        if meaning::<usize, usize>(m, s, guard(m, c), LEVELS).is_true() {
            best = sum(m, s, k - 1, c).max(best);
        }
    }
    best
}

// The sum over the branches of command c, with k steps to go after it.
#[cycle(chance_sum)]
fn sum(m: &[u8], s: &Meanings, k: usize, c: usize) -> usize {
    let first = first_branch(m, c);
    let mut all = 0usize;
    for b in 0..branches(m, c) {
        let r = first.saturating_add(b);
        let after = meant_after(m, s, r);
        let weight = branch_part(m, r, 0);
        all = all.saturating_add(weight.saturating_mul(chance(m, &after, k)));
    }
    all
}

// P(k, s) times S.
fn scaled(m: &[u8], s: &State, k: usize) -> usize {
    chance(m, &s.map(meant), k).saturating_mul(CERTAIN)
}

// D to the power k, where it times S units, and k units more, stays within 64 bits.
fn scale(m: &[u8], k: usize) -> Option<usize> {
    let d = power(total(m), k);
    let fits = d.saturating_mul(CERTAIN.saturating_add(k)) < usize::MAX;
    fits.then_some(d)
}

impl<'a> Folders<'a> {
    pub fn nodes(self) -> usize {
        size(self.graph, 0)
            .checked_div(node_size(self.model))
            .unwrap_or(0)
    }

    fn node_start(self, i: usize) -> usize {
        record(self.graph, 0, node_size(self.model), i)
    }

    pub fn concrete(self, i: usize) -> State {
        values_at(
            self.graph,
            self.node_start(i).saturating_add(12),
            2,
            variables(self.model),
        )
    }

    pub fn is_covered(self, i: usize) -> bool {
        field(self.graph, self.node_start(i)) == 2
    }

    // Node i has the concrete label s; and it is uncovered, where that is asked.
    fn is_like(self, s: &State, i: usize, uncovered: bool) -> bool {
        self.concrete(i) == *s && !(uncovered && self.is_covered(i))
    }

    // The lowest such node below n.
    pub fn first_like(self, s: &State, n: usize, uncovered: bool) -> Option<usize> {
        (0..n).find(|i| self.is_like(s, *i, uncovered))
    }

    fn root_value(self) -> usize {
        long(self.graph, self.node_start(0).saturating_add(4))
    }

    // Within k steps the initial state's best chance is at most the root value. Not tried where the numbers are past 64
    // bits.
    pub fn try_root(self, k: usize) -> Option<bool> {
        let d = scale(self.model, k)?;
        let most = self.root_value().saturating_mul(d);
        Some(scaled(self.model, &initial(self.model), k) <= most)
    }

    // The figure of node i is at least the best chance from its concrete label, and at most h units more, of D to the
    // power h each.
    fn node_holds(self, h: usize, d: usize, i: usize, figure: u32) -> bool {
        let exact = scaled(self.model, &self.concrete(i), h);
        let scaled_figure = (figure as usize).saturating_mul(d);
        exact <= scaled_figure && scaled_figure <= exact.saturating_add(h.saturating_mul(d))
    }

    // The figures of round h, one for each node. Not tried where the numbers are past 64 bits.
    // Kept out of its callers, whose rows then share their room on the stack.
    #[inline(never)]
    pub fn try_figures(self, h: usize, figures: &[u32]) -> Option<bool> {
        let d = scale(self.model, h)?;
        let holds = figures.len() == self.nodes()
            && figures
                .iter()
                .enumerate()
                .all(|(i, figure)| self.node_holds(h, d, i, *figure));
        Some(holds)
    }
}

#[cfg(test)]
mod tests {
    use super::*;

    // Two variables from 0 to 9, and a target: that the first is less than the second. Four commands: one has the target
    // for its guard, and sets the variables to the second and to their sum; the guard of one reads values 14 and 15, past
    // the model's; one is always enabled, and sets them to a number past 2^63 less 5 and to the number; and the guard
    // of the last is the number 1.
    const MODEL: [u16; 109] = [
        40, 0, 4, 0, 44, 0, 12, 0, 56, 0, 128, 0, 184, 0, 16, 0, 200, 0, 18, 0, 1, 2, 0, 9, 0, 0,
        9, 0, 1, 0, 0, 0, 1, 1, 0, 0, 9, 0, 1, 0, 2, 0, 1, 0, 1, 14, 0, 0, 1, 15, 0, 0, 9, 4, 5, 0,
        14, 0, 0, 0, 0, 32768, 0, 0, 4, 8, 8, 0, 4, 9, 9, 0, 0, 9, 0, 0, 4, 10, 11, 0, 0, 5, 0, 0,
        3, 12, 13, 0, 0, 1, 0, 0, 2, 1, 6, 1, 7, 1, 15, 0, 1, 1, 3, 1, 0, 1, 1, 14, 12,
    ];

    // One node, all 0.
    const GRAPH: [u8; 36] = [
        16, 0, 0, 0, 20, 0, 0, 0, 36, 0, 0, 0, 0, 0, 0, 0, 0, 0, 0, 0, 0, 0, 0, 0, 0, 0, 0, 0, 0,
        0, 0, 0, 0, 0, 0, 0,
    ];

    fn model() -> [u8; 218] {
        array::from_fn(|i| MODEL.get(i / 2).map_or(0, |w| w.to_le_bytes()[i % 2]))
    }

    // Values i and i + 1 are these, the others 0.
    fn state(i: usize, x: i64, y: i64) -> State {
        array::from_fn(|k| {
            if k == i {
                x
            } else if k == i.saturating_add(1) {
                y
            } else {
                0
            }
        })
    }

    // Pairs of values, whether the first is less, and their sum.
    const PAIRS: [(i64, i64, bool, i64); 7] = [
        (3, 5, true, 8),
        (5, 3, false, 8),
        (LEAST - 1, LEAST, true, 2 * LEAST - 1),
        (LEAST, LEAST - 1, false, 2 * LEAST - 1),
        (i64::MAX - 1, i64::MAX, true, i64::MAX),
        (i64::MIN, i64::MIN + 1, true, i64::MIN),
        (i64::MIN, i64::MAX, true, -1),
    ];

    #[test]
    fn reads_every_value(rt: HostRuntime) {
        let m = model();
        for (x, y, less, sum) in PAIRS {
            let s = state(0, x, y);
            assert_eq!(rt; enabled(&m, &s, 0), less);
            assert_eq!(rt; is_target(&m, &s), less);
            assert!(rt; next(&m, &s, 0, 0) == state(0, y, sum));
        }
    }

    #[test]
    fn takes_a_number_for_a_truth_by_plain_values(rt: HostRuntime) {
        let m = model();
        for (x, plain) in [
            (0, false),
            (LEAST, false),
            (LEAST - 1, true),
            (i64::MAX, false),
        ] {
            assert_eq!(rt; enabled(&m, &state(0, 0, x), 3), plain);
        }
    }

    #[test]
    fn tries_the_greatest_values(rt: HostRuntime) {
        let m = model();
        let f = Folders {
            model: &m,
            graph: &GRAPH,
        };
        assert!(rt; f.try_root(0) == Some(true));
        assert!(rt; f.try_root(1) == Some(false));
        assert!(rt; f.try_figures(1, &[CERTAIN as u32]) == Some(true));
        assert!(rt; f.try_figures(1, &[0]) == Some(false));
    }

    #[test]
    fn steps_by_every_value(rt: HostRuntime) {
        let m = model();
        let asked = Asked {
            values: 2,
            room: 2,
            command: 1,
            branch: 0,
        };
        for (x, y, less, _) in PAIRS {
            match step(&m, &state(14, x, y), asked) {
                Ok(after) => {
                    assert!(rt; less);
                    assert!(rt; after == state(0, 0, 0));
                }
                Err(f) => {
                    assert!(rt; !less);
                    assert_eq!(rt; f.number, 32);
                }
            }
        }
    }
}
