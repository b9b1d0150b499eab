// Document 02, 2.5 and 2.6: a move made in the records, with the marks, hints, reaches and counts that go with it.

#![tactic(auto)]

ghost use Rattle.std.specs.Prelude.{◌≡◌, ◌+◌, ◌-◌, ◌<◌, ◌≤◌, max, length, set, Some};
ghost use Rattle.folder.specs.Fields.{field_limit};
ghost use Rattle.model.specs.Limits.{most_variables};
ghost use Rattle.model.specs.Layout.{variable_count};
ghost use Rattle.model.specs.Valid.{Valid};
ghost use Rattle.graph.specs.Limits.{most_nodes};
ghost use Rattle.building.specs.Moves.{expand};
ghost use Rattle.put.specs.Put.{Changed};
ghost use Rattle.held.specs.Held.{state_field, put_in, become_in};
ghost use Rattle.nodes.specs.Told.{told};
ghost use Rattle.wants.specs.Standing.{parent_in, row_in};
ghost use Rattle.work.specs.Working.{Ready, Made, grown_work, dropped_work, labelled_work};
ghost use Rattle.making.specs.Marking.{is_under, mark_if, mark_under, MarkedReach, Present};

use expressions::MOST_EXPRESSIONS;
use graph::{COVERED, LEAST_BYTES, MOST_NODES, TARGET, WAITING};
use nodes::{Move, PARENT, STATE};
use work::Work;

// Node i is covered by node n.
fn is_under(vars: usize, nb: &[u8], n: usize, i: usize) -> bool
    requires { (vars ≤ most_variables) × (i ≤ field_limit) }
    ensures { result ≡ is_under vars nb.now n i }
{
    let size = graph::node_size(vars);
    let kind = folder::field(size, nb, i, nodes::KIND);
    let cover = folder::field(size, nb, i, nodes::COVER);
    (kind == COVERED) & (cover == n)
}

// A function, since an `if` in a loop that changes a row would leave a joined state.
fn mark_if(hit: bool, mark: u8) -> u8
    ensures { result ≡ mark_if hit mark }
{
    if hit { 1 } else { mark }
}

// Marks the nodes below `end` that node n covers.
fn mark_under(vars: usize, nb: &[u8], n: usize, end: usize, marks: &mut [u8])
    requires { (vars ≤ most_variables) × (end ≤ field_limit) × (end ≤ length marks.old) }
    ensures { Changed 0 end (mark_under vars nb.now n) marks.old marks.new }
{
    for i in 0..end {
        marks[i] = mark_if(is_under(vars, nb, n, i), marks[i]);
    }
}

// Marks what a larger label of node n may break: itself, its parent, and what it covers, which is below `end`.
fn mark_reach(vars: usize, nb: &[u8], n: usize, parent: usize, end: usize, marks: &mut [u8])
    requires { (vars ≤ most_variables) × (end ≤ field_limit) × (end ≤ length marks.old) × (n < length marks.old) × (parent < length marks.old) }
    ensures { MarkedReach vars nb.now n parent end marks.old marks.new }
{
    marks[n] = 1;
    marks[parent] = 1;
    mark_under(vars, nb, n, end, marks);
}

// The label of node n has grown: what that may break is marked.
fn grow_label(m: &[u8], nb: &[u8], marks: &mut [u8], reaches: &[u16], w: Work, n: usize) -> Work
    requires valid { Valid m.now }
    requires n_lt_nodes { (n < w.nodes) × (w.nodes ≤ most_nodes) × (w.high ≤ w.nodes) × (parent_in m.now nb.now n < w.nodes) × (row_in reaches.now n ≤ w.nodes) }
    requires most_nodes_in_bounds { (most_nodes ≤ length marks.old) × (most_nodes ≤ length reaches.now) }
    ensures marked_reach { MarkedReach (variable_count m.now) nb.now n (parent_in m.now nb.now n) (row_in reaches.now n) marks.old marks.new }
    ensures value { result ≡ labelled_work w n (parent_in m.now nb.now n) (row_in reaches.now n) }
{
    let vars = graph::variable_count(m);
    let parent = folder::field(graph::node_size(vars), nb, n, PARENT);
    let end = usize::from(reaches[n]);
    mark_reach(vars, nb, n, parent, end, marks);
    let low = if end == 0 {
        work::smaller(n, parent)
    } else {
        0
    };
    let high = work::larger(work::larger(n, parent) + 1, end);
    Work {
        low,
        high: work::larger(w.high, high),
        ..w
    }
}

// Node n's cover is dropped, and it waits again.
fn make_drop(vars: usize, nb: &mut [u8], marks: &mut [u8], w: Work, n: usize) -> Work
    requires present { Present vars w nb.old marks.old n }
    requires waiting_le_nodes { w.waiting ≤ w.nodes }
    ensures value { result ≡ dropped_work w n }
    ensures nb_after { nb.new ≡ become_in vars nb.old n 0 0 }
    ensures marks_after { marks.new ≡ set marks.old n 0 }
{
    nodes::become_kind(vars, nb, n, WAITING, 0);
    marks[n] = 0;
    Work {
        low: n,
        high: work::larger(w.high, n),
        next: work::smaller(w.next, n),
        waiting: w.waiting + 1,
        ..w
    }
}

// Node n is covered by the node c.
fn make_cover(
    vars: usize,
    nb: &mut [u8],
    marks: &mut [u8],
    reaches: &mut [u16],
    w: Work,
    n: usize,
    c: usize,
) -> Work
    requires present { Present vars w nb.old marks.old n }
    requires vars_nonzero { (0 < vars) × (c < w.nodes) × (most_nodes ≤ length reaches.old) × (1 ≤ w.waiting) }
    ensures value { result ≡ grown_work w.nodes w.len most_nodes (w.waiting - 1) n }
    ensures nb_after { nb.new ≡ put_in vars (become_in vars nb.old n 2 c) n (state_field + vars) c }
    ensures marks_after { marks.new ≡ set marks.old n 1 }
    ensures reaches_after { reaches.new ≡ set reaches.old c (max (row_in reaches.old c) (n + 1)) }
{
    nodes::become_kind(vars, nb, n, COVERED, c);
    nodes::put_field(vars, nb, n, STATE + vars, c);
    marks[n] = 1;
    reaches[c] = work::larger(usize::from(reaches[c]), n + 1) as u16;
    work::grown_work(w.nodes, w.len, MOST_NODES, w.waiting - 1, n)
}

// Node n becomes a target.
fn make_target(vars: usize, nb: &mut [u8], marks: &mut [u8], w: Work, n: usize) -> Work
    requires present { Present vars w nb.old marks.old n }
    requires le_waiting { 1 ≤ w.waiting }
    ensures value { result ≡ grown_work w.nodes w.len n (w.waiting - 1) n }
    ensures nb_after { nb.new ≡ become_in vars nb.old n 3 0 }
    ensures marks_after { marks.new ≡ set marks.old n 1 }
{
    nodes::become_kind(vars, nb, n, TARGET, 0);
    marks[n] = 1;
    work::grown_work(w.nodes, w.len, n, w.waiting - 1, n)
}

// Node n is expanded.
fn make_expanded(
    m: &[u8],
    nb: &mut [u8],
    marks: &mut [u8],
    reaches: &[u16],
    begins: &mut [u32],
    longest: usize,
    w: Work,
    n: usize,
) -> Work
    requires { Ready m.now longest w nb.old marks.old reaches.now begins.old (Some (expand n)) }
    ensures { Made m.now longest w nb.old (Some (expand n)) result nb.new marks.new reaches.now begins.new }
{
    let vars = graph::variable_count(m);
    let mut state = [0i64; MOST_EXPRESSIONS];
    wants::state_of(m, nb, n, &mut state);
    let cs = folder::body(m, 3);
    let commands = folder::count_of(4, cs);
    let cost = nodes::cost_of(cs, &state, commands);
    nodes::put_children(
        vars,
        cs,
        folder::body(m, 4),
        &state,
        commands,
        n,
        w.nodes,
        nb,
    );
    nodes::become_parent(vars, nb, n, w.nodes);
    marks[n] = 1;
    let size = graph::node_size(vars);
    let nodes = w.nodes + cost.births;
    let len = w.len + (size * cost.births + cost.bytes);
    let end = len - (LEAST_BYTES + size * nodes);
    begins::expand(begins, n, w.nodes, cost.births, cost.bytes, end);
    work::grown_work(nodes, len, n, w.waiting - 1 + cost.births, n)
}

// The move is made.
pub fn make(
    m: &[u8],
    nb: &mut [u8],
    marks: &mut [u8],
    reaches: &mut [u16],
    begins: &mut [u32],
    longest: usize,
    w: Work,
    mv: Move,
) -> Work
    requires { Ready m.now longest w nb.old marks.old reaches.old begins.old (Some (told mv)) }
    ensures { Made m.now longest w nb.old (Some (told mv)) result nb.new marks.new reaches.new begins.new }
{
    let vars = graph::variable_count(m);
    match mv {
        Move::Track(n, v) => {
            nodes::track(vars, nb, n, v);
            grow_label(m, nb, marks, reaches, w, n)
        }
        Move::Adopt(n) => {
            nodes::adopt(vars, nb, n);
            grow_label(m, nb, marks, reaches, w, n)
        }
        Move::Drop(n) => make_drop(vars, nb, marks, w, n),
        Move::Cover(n, c) => make_cover(vars, nb, marks, reaches, w, n, c),
        Move::Reach(n) => make_target(vars, nb, marks, w, n),
        Move::Expand(n) => make_expanded(m, nb, marks, reaches, begins, longest, w, n),
    }
}
