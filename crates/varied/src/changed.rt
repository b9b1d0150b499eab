// Folders varied from the pedal example by a fixed rule. Each accepted model's steps and each accepted graph's bounds are
// compared with the solver's; of refusals, that a model and its graph agree.
use clamped::long;
use folder::{FIELD_LIMIT, Refusal};
use graph::UNITS;
use lookup::index_as;
use samples::build::{pedal_graph, pedal_model, put16, put32};
use solver::Folders;
use std::io;
use tally::{Run, answer, number_of};
use witness::{bounds, box_steps, rows_case};

// The greatest D: it is a field of 2 bytes.
const MOST_TOTAL: usize = FIELD_LIMIT - 1;

const MODEL_BYTES: usize = 178;

const GRAPH_BYTES: usize = 152;

// Ways in which a byte is varied.
const WAYS: usize = 4;

// A model and a graph of it.
#[derive(Clone, Copy)]
struct Pedal {
    model: [u8; MODEL_BYTES],
    graph: [u8; GRAPH_BYTES],
}

impl Pedal {
    // The pedal example.
    fn new() -> Pedal {
        let mut model = [0; MODEL_BYTES];
        let mut graph = [0; GRAPH_BYTES];
        pedal_model(&mut model);
        pedal_graph(&mut graph);
        Pedal { model, graph }
    }

    // With the chance w / d of another try, and the least values that the value rule allows.
    fn weighed(d: usize, w: usize) -> Pedal {
        let Pedal {
            mut model,
            mut graph,
        } = Pedal::new();
        weigh_model(&mut model, d, w);
        weigh_graph(&mut graph, d, w);
        Pedal { model, graph }
    }

    fn folders(&self) -> Folders<'_> {
        Folders {
            model: &self.model,
            graph: &self.graph,
        }
    }
}

fn graph_check(f: Folders) -> Result<(), Refusal> {
    laguipy::graph_check(f.model, f.graph).map(|_| ())
}

// An accepted model with a graph of this answer: steps where they are asked for, bounds where the graph is accepted.
fn accepted<R: Print>(
    run: &mut Run<R>,
    f: Folders,
    o: Result<(), Refusal>,
    steps: bool,
) -> io::Result<()> {
    let n = number_of(o);
    run.count(o);
    run.hold(n == 0 || n > 11, n, 0)?;
    if steps {
        box_steps(run, f.model)?;
    }
    if o.is_ok() {
        bounds(run, f)?;
    }
    Ok(())
}

// A model and a graph: a refused model refuses the graph. Refused or not, the figure call and the
// index call leave their rows as they should.
fn pair<R: Print>(run: &mut Run<R>, f: Folders, steps: bool) -> io::Result<()> {
    rows_case(run, f, 2, 6, 7)?;
    rows_case(run, f, 3, 7, 6)?;
    let of_model = laguipy::model_check(f.model);
    let o = graph_check(f);
    index_as(run, f, o)?;
    run.count(of_model);
    if of_model.is_ok() {
        accepted(run, f, o, steps)
    } else {
        run.judge(o, of_model)
    }
}

// Byte i / 4 in one of four ways: one more, one less, its highest bit, or all its bits turned round.
fn vary(s: &mut [u8], i: usize) {
    if let Some(b) = s.get_mut(i / WAYS) {
        *b = match i % WAYS {
            0 => b.wrapping_add(1),
            1 => b.wrapping_sub(1),
            2 => *b ^ 128,
            _ => !*b,
        };
    }
}

// Every byte of the model in four ways, folders from 1 on.
fn models<R: Print>(run: &mut Run<R>) -> io::Result<()> {
    for i in 0..MODEL_BYTES * WAYS {
        let mut varied = Pedal::new();
        vary(&mut varied.model, i);
        run.go_to(1 + i);
        pair(run, varied.folders(), true)?;
    }
    Ok(())
}

// Every byte of the graph in four ways, folders from 1001 on.
fn graphs<R: Print>(run: &mut Run<R>) -> io::Result<()> {
    for i in 0..GRAPH_BYTES * WAYS {
        let mut varied = Pedal::new();
        vary(&mut varied.graph, i);
        run.go_to(1001 + i);
        pair(run, varied.folders(), false)?;
    }
    Ok(())
}

fn weigh_model(m: &mut [u8], d: usize, w: usize) {
    put16(m, 40, d);
    put16(m, 160, d.saturating_sub(w));
    put16(m, 166, w);
    put16(m, 172, d);
}

// The share w / d of a value, rounded up.
fn share(value: usize, d: usize, w: usize) -> usize {
    if d == 0 {
        0
    } else {
        value.saturating_mul(w).div_ceil(d)
    }
}

fn weigh_graph(g: &mut [u8], d: usize, w: usize) {
    let after = share(UNITS, d, w);
    let root = share(after, d, w);
    put32(g, 20, root);
    put32(g, 60, after);
    put32(g, 80, root);
}

// The value at an offset less one unit: refused at its node.
fn lowered<R: Print>(run: &mut Run<R>, weighed: Pedal, at: usize, node: usize) -> io::Result<()> {
    let mut lower = weighed;
    let value = long(&lower.graph, at);
    put32(&mut lower.graph, at, value.saturating_sub(1));
    run.judge(graph_check(lower.folders()), answer(25, node))
}

// For w under d: accepted with the least values, and refused one unit below at each node that is not a target or a dead
// end.
fn weighed<R: Print>(run: &mut Run<R>, d: usize, w: usize) -> io::Result<()> {
    if d <= w {
        return Ok(());
    }
    let weighed = Pedal::weighed(d, w);
    run.judge(graph_check(weighed.folders()), Ok(()))?;
    pair(run, weighed.folders(), true)?;
    lowered(run, weighed, 20, 0)?;
    lowered(run, weighed, 60, 2)?;
    lowered(run, weighed, 80, 3)
}

// All weights for D to 13, and some for D near its limit, folders from 2001 on.
fn families<R: Print>(run: &mut Run<R>) -> io::Result<()> {
    for i in 0..144 {
        let d = 2 + i / 12;
        let w = 1 + i % 12;
        run.go_to(2001 + i);
        weighed(run, d, w)?;
        weighed(run, MOST_TOTAL - d, w * 5000)?;
    }
    Ok(())
}

pub fn all<R: Print>(run: &mut Run<R>) -> io::Result<()> {
    models(run)?;
    run.close_group(b"cases of models with a byte changed")?;
    graphs(run)?;
    run.close_group(b"cases of graphs with a byte changed")?;
    families(run)?;
    run.close_group(b"cases of weights, with their least values")
}
