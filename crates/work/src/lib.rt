// What the builder holds besides the records: a few numbers.

#![tactic(auto)]

ghost use Rattle.std.specs.Prelude.{◌≡◌, ◌+◌, ◌<◌, ◌≤◌, min, max, length};
ghost use Rattle.folder.specs.Fields.{field_limit};
ghost use Rattle.model.specs.Limits.{most_variables};
ghost use Rattle.graph.specs.Simulation.{node_size};
ghost use Rattle.held.specs.Held.{state_field};
ghost use Rattle.work.specs.Working.{grown_work};
ghost use Rattle.work.specs.Root.{root_field, Begun};

use nodes::STATE;

// Of a graph while it is built: how many nodes it has and how many bytes; which node was opened last, past all nodes if its
// label is taken into account; from where to where nodes may be marked; below which none waits; and how many wait.
// `fresh` stays a number: what the loop keeps compares nodes with it, and no node is past all nodes.
#[derive(Clone, Copy)]
pub struct Work {
    pub nodes: usize,
    pub len: usize,
    pub fresh: usize,
    pub low: usize,
    pub high: usize,
    pub next: usize,
    pub waiting: usize,
}

// A function, and `larger` too: the laws of what is marked speak of `min` and `max`, and the methods' contracts of an order.
pub fn smaller(a: usize, b: usize) -> usize
    ensures { result ≡ min a b }
{
    a.min(b)
}

pub fn larger(a: usize, b: usize) -> usize
    ensures { result ≡ max a b }
{
    a.max(b)
}

// Node n, which waited, has been covered or opened: it alone is marked. `fresh` is the node opened last, if one was.
pub fn grown_work(nodes: usize, len: usize, fresh: usize, waiting: usize, n: usize) -> Work
    requires { n < nodes }
    ensures { result ≡ grown_work nodes len fresh waiting n }
{
    Work {
        nodes,
        len,
        fresh,
        low: n,
        high: n + 1,
        next: n,
        waiting,
    }
}

fn root_field(vars: usize, y: &[u8], f: usize) -> usize
    requires { (vars ≤ most_variables) × (f ≤ field_limit) }
    ensures { (result ≡ root_field vars y.now f) × (result < field_limit) }
{
    if (STATE <= f) & (f < STATE + vars) {
        return folder::field(6, y, f - STATE, 2);
    }
    0
}

// The root's record: it waits, in the initial state.
pub fn put_root(vars: usize, y: &[u8], nb: &mut [u8])
    requires { (0 < vars) × (vars ≤ most_variables) × (node_size vars ≤ length nb.old) }
    ensures { Begun vars y.now (state_field + vars + 1) nb.old nb.new }
{
    for f in 0..STATE + vars + 1 {
        nodes::put_field(vars, nb, 0, f, root_field(vars, y, f));
    }
}
