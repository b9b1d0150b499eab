// Document 02, 2.5: a graph that is built, made whole: its edges are written after its nodes, and each node's record gets its
// final fields, with the value S.

#![tactic(auto)]

ghost use Rattle.std.specs.Prelude.{◌≡◌, [], ◌∷◌, ◌+◌, ◌*◌, ◌<◌, ◌≤◌, length};
ghost use Rattle.mdp.specs.Kinds.{Kind};
ghost use Rattle.folder.specs.Fields.{field_limit};
ghost use Rattle.folder.specs.Pick.{pick};
ghost use Rattle.folder.specs.Tab.{tab};
ghost use Rattle.model.specs.Limits.{most_variables, most_commands};
ghost use Rattle.model.specs.Layout.{variable_count};
ghost use Rattle.model.specs.Model.{model_of};
ghost use Rattle.graph.specs.Figures.{over};
ghost use Rattle.graph.specs.Simulation.{node_size, edge_bytes, kind_of};
ghost use Rattle.building.specs.Building.{kind_number, if_covered};
ghost use Rattle.building.specs.Length.{edges_before};
ghost use Rattle.building.specs.Counts.{Walked};
ghost use Rattle.held.specs.Held.{field_count, held_in, Whole};
ghost use Rattle.nodes.specs.Born.{children_in, edges_in};
ghost use Rattle.wants.specs.Standing.{row_in, Held};
ghost use Rattle.finish.specs.Finish.{bodies_of};
ghost use Rattle.finish.specs.Laid.{Laid, final_value, final_field, final_record, EdgesLaid, kind_in, Fits, OwnLaid, Ended};

use expressions::MOST_EXPRESSIONS;
use graph::{COVERED, EXPANDED, TARGET, WAITING};
use nodes::{CHILD, COVER, KIND, SET, STATE};

// ---- a node's final record

// Fields of a final record that were scratch.
const VALUE_LOW: usize = 2;

const VALUE_HIGH: usize = 3;

const EDGES: usize = 4;

fn kind_of(k: usize) -> usize
    ensures { (result ≡ kind_number (kind_of k)) × (result < field_limit) }
{
    if k <= TARGET { k } else { WAITING }
}

fn cover_of(kind: usize, cover: usize) -> usize
    ensures { (result ≡ if_covered (kind_of kind) cover) × (result ≤ cover) }
{
    if kind == COVERED { cover } else { 0 }
}

// Value v of node n: the concrete ones, then the label's, which are 0 where they are not tracked.
fn final_value(vars: usize, nb: &[u8], n: usize, v: usize) -> usize
    requires { (vars ≤ most_variables) × (n ≤ field_limit) × (v < 2 * vars) }
    ensures { (result ≡ final_value vars nb.now n v) × (result < field_limit) }
{
    let size = graph::node_size(vars);
    if v < vars {
        return folder::field(size, nb, n, STATE + v);
    }
    let set = folder::field(size, nb, n, SET);
    let u = folder::field(size, nb, n, STATE + (v - vars));
    nodes::if_on(expressions::has_bit(set, v - vars), u)
}

// Field f of node n's final record, by the record that it has.
fn final_field(vars: usize, nb: &[u8], n: usize, edges: usize, f: usize) -> usize
    requires { (vars ≤ most_variables) × (n ≤ field_limit) × (edges < field_limit) × (f < field_count vars) }
    ensures { (result ≡ final_field vars nb.now n edges f) × (result < field_limit) }
{
    let size = graph::node_size(vars);
    match f {
        KIND => kind_of(folder::field(size, nb, n, KIND)),
        COVER => cover_of(
            folder::field(size, nb, n, KIND),
            folder::field(size, nb, n, COVER),
        ),
        VALUE_LOW => graph::UNITS % folder::FIELD_LIMIT,
        VALUE_HIGH => graph::UNITS / folder::FIELD_LIMIT,
        EDGES => edges,
        SET => folder::field(size, nb, n, SET),
        _ => final_value(vars, nb, n, f - STATE),
    }
}

// From the record itself: what a field is made of has not been put yet, or says the same once it is put.
fn put_record(vars: usize, nb: &mut [u8], n: usize, edges: usize)
    requires vars_le_most_variables { (vars ≤ most_variables) × (n ≤ field_limit) × (edges < field_limit) }
    requires whole { Whole vars nb.old n }
    ensures { Laid (node_size vars * n) (final_record vars nb.old n edges) nb.old nb.new }
{
    for f in 0..STATE + 2 * vars {
        let u = final_field(vars, nb, n, edges, f);
        nodes::put_field(vars, nb, n, f, u);
    }
}

// ---- edges

// Nodes x, x + 1, ..
fn put_successors(nb: &mut [u8], at: usize, x: usize, count: usize)
    requires { (at + 2 * count ≤ length nb.old) × (x + count ≤ field_limit) }
    ensures { Laid at (tab count (λ b. x + b)) nb.old nb.new }
{
    for b in 0..count {
        put::put_short(nb, at + 2 * b, x + b);
    }
}

// The edge by command c, if it is enabled.
fn put_edge(on: bool, nb: &mut [u8], at: usize, c: usize, x: usize, count: usize)
    requires { (at + pick on (edge_bytes count) 0 ≤ length nb.old) × (c < field_limit) × (x + pick on count 0 ≤ field_limit) }
    ensures { Laid at (pick on (c ∷ tab count (λ b. x + b)) []) nb.old nb.new }
{
    if on {
        put::put_short(nb, at, c);
        put_successors(nb, at + 2, x, count);
    }
}

// The edges of a node whose children start at `child`, by the row of what entries are in its state: how many they are.
fn put_edges(
    cs: &[u8],
    row: &[i64],
    commands: usize,
    child: usize,
    at: usize,
    nb: &mut [u8],
) -> usize
    requires commands_le_most_commands { (commands ≤ most_commands) × (child + children_in cs.now row.now commands ≤ field_limit) }
    requires commands_in_bounds { at + edges_in cs.now row.now commands ≤ length nb.old }
    ensures { EdgesLaid cs.now row.now child at commands result nb.old nb.new }
{
    let mut births = 0;
    let mut bytes = 0;
    let mut count = 0;
    for c in 0..commands {
        let on = nodes::is_on(cs, row, c);
        let branches = folder::field(4, cs, c, 1);
        put_edge(on, nb, at + bytes, c, child + births, branches);
        births += nodes::if_on(on, branches);
        bytes += nodes::if_on(on, 2 + 2 * branches);
        count += nodes::if_on(on, 1);
    }
    count
}

// ---- nodes

fn expanded_edges(m: &[u8], nb: &mut [u8], n: usize, at: usize) -> usize
    requires fits { Fits m.now nb.old n at }
    requires n_value { kind_in m.now nb.old n ≡ Kind.expanded }
    ensures { OwnLaid m.now nb.old n at result nb.new }
{
    let size = graph::node_size(graph::variable_count(m));
    let mut row = [0i64; MOST_EXPRESSIONS];
    wants::state_of(m, nb, n, &mut row);
    let child = folder::field(size, nb, n, CHILD);
    let cs = folder::body(m, 3);
    let commands = folder::count_of(4, cs);
    put_edges(cs, &row, commands, child, at, nb)
}

fn node_edges(m: &[u8], nb: &mut [u8], n: usize, at: usize) -> usize
    requires { Fits m.now nb.old n at }
    ensures { OwnLaid m.now nb.old n at result nb.new }
{
    let size = graph::node_size(graph::variable_count(m));
    if folder::field(size, nb, n, KIND) == EXPANDED {
        expanded_edges(m, nb, n, at)
    } else {
        0
    }
}

// Its edges hang on what its record has now, so they come first.
fn finish_node(m: &[u8], nb: &mut [u8], n: usize, at: usize)
    requires { Fits m.now nb.old n at }
    ensures { Ended m.now nb.old n at nb.new }
{
    let vars = graph::variable_count(m);
    let count = node_edges(m, nb, n, at);
    put_record(vars, nb, n, count);
}

// The records hold a graph, whose edges begin where the row says; afterwards the slice has its two bodies.
pub fn finish(m: &[u8], nodes: usize, begins: &[u32], nb: &mut [u8])
    requires held { Held m.now nodes nb.old }
    requires nodes_in_bounds { node_size (variable_count m.now) * nodes + edges_before (model_of m.now) (held_in m.now nodes nb.old) nodes ≤ length nb.old }
    requires nodes_in_bounds_2 { nodes ≤ length begins.now }
    requires walked { Walked (model_of m.now) (held_in m.now nodes nb.old) (row_in begins.now) }
    ensures { nb.new ≡ over (bodies_of (model_of m.now) (held_in m.now nodes nb.old)) nb.old }
{
    let first = graph::node_size(graph::variable_count(m)) * nodes;
    for n in 0..nodes {
        finish_node(m, nb, n, first + begins::begin_of(begins, n));
    }
}
