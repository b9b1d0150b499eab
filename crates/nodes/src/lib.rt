// A graph while it is built, in the node records of the slice that it is built in: fields read and written, moves made.

#![tactic(auto)]

ghost use Rattle.std.specs.Prelude.{◌≡◌, ◌+◌, ◌*◌, ◌<◌, ◌≤◌, ◌^◌, length};
ghost use Rattle.folder.specs.Pick.{pick};
ghost use Rattle.folder.specs.Fields.{field_limit};
ghost use Rattle.folder.specs.Contents.{field};
ghost use Rattle.expressions.specs.Mentions.{union};
ghost use Rattle.model.specs.Limits.{most_variables, most_commands};
ghost use Rattle.graph.specs.Simulation.{node_size};
ghost use Rattle.held.specs.Held.{kind_field, cover_field, child_field, tracked_field, field_count, put_in, become_in, Whole};
ghost use Rattle.nodes.specs.Born.{on_in, records_in, children_in, edges_in, new_field, new_fields, ResultsFit, Node, Family, AllFit, Brood, BroodFits};

// What the builder may do next. Track: node and variable. Cover: node and cover.
#[derive(Clone, Copy)]
pub enum Move {
    Track(usize, usize),
    Adopt(usize),
    Drop(usize),
    Cover(usize, usize),
    Reach(usize),
    Expand(usize),
}

// Fields of a node record while it is built.
pub const KIND: usize = 0;

pub const COVER: usize = 1;

pub const CHILD: usize = 2;

pub const PARENT: usize = 3;

pub const READ: usize = 4;

pub const SET: usize = 5;

pub const STATE: usize = 6;

// Field f of node n becomes u.
pub fn put_field(vars: usize, nb: &mut [u8], n: usize, f: usize, u: usize)
    requires vars_le_most_variables { (vars ≤ most_variables) × (n ≤ field_limit) × (f < field_count vars) × (u < field_limit) }
    requires whole { Whole vars nb.old n }
    ensures { nb.new ≡ put_in vars nb.old n f u }
{
    let size = graph::node_size(vars);
    put::put_short(nb, size * n + 2 * f, u);
}

// Node n tracks the variables of the set t too.
fn track_all(vars: usize, nb: &mut [u8], n: usize, t: usize)
    requires vars_le_most_variables { (vars ≤ most_variables) × (n ≤ field_limit) × (t < field_limit) }
    requires whole { Whole vars nb.old n }
    ensures { nb.new ≡ put_in vars nb.old n tracked_field (union (field (node_size vars) nb.old n tracked_field) t) }
{
    let size = graph::node_size(vars);
    let s = folder::field(size, nb, n, SET);
    put_field(vars, nb, n, SET, s | t);
}

// Node n tracks variable v too.
pub fn track(vars: usize, nb: &mut [u8], n: usize, v: usize)
    requires vars_le_most_variables { (vars ≤ most_variables) × (n ≤ field_limit) × (v < vars) }
    requires whole { Whole vars nb.old n }
    ensures { nb.new ≡ put_in vars nb.old n tracked_field (union (field (node_size vars) nb.old n tracked_field) (2 ^ v)) }
{
    track_all(vars, nb, n, 1 << v);
}

// Node n tracks what its cover tracks too.
pub fn adopt(vars: usize, nb: &mut [u8], n: usize)
    requires vars_le_most_variables { (vars ≤ most_variables) × (n ≤ field_limit) }
    requires whole { Whole vars nb.old n }
    ensures { nb.new ≡ put_in vars nb.old n tracked_field (union (field (node_size vars) nb.old n tracked_field) (field (node_size vars) nb.old (field (node_size vars) nb.old n cover_field) tracked_field)) }
{
    let size = graph::node_size(vars);
    let c = folder::field(size, nb, n, COVER);
    let t = folder::field(size, nb, c, SET);
    track_all(vars, nb, n, t);
}

// Node n is of this kind, with this cover.
pub fn become_kind(vars: usize, nb: &mut [u8], n: usize, kind: usize, cover: usize)
    requires vars_le_most_variables { (vars ≤ most_variables) × (n ≤ field_limit) × (kind < field_limit) × (cover < field_limit) }
    requires whole { Whole vars nb.old n }
    ensures { nb.new ≡ become_in vars nb.old n kind cover }
{
    put_field(vars, nb, n, KIND, kind);
    put_field(vars, nb, n, COVER, cover);
}

// Node n is expanded, and its children start at k.
pub fn become_parent(vars: usize, nb: &mut [u8], n: usize, k: usize)
    requires vars_le_most_variables { (vars ≤ most_variables) × (n ≤ field_limit) × (k < field_limit) }
    requires whole { Whole vars nb.old n }
    ensures { nb.new ≡ put_in vars (put_in vars nb.old n kind_field 1) n child_field k }
{
    put_field(vars, nb, n, KIND, graph::EXPANDED);
    put_field(vars, nb, n, CHILD, k);
}

// Command c is enabled, by the row of what entries are.
pub fn is_on(cs: &[u8], row: &[i64], c: usize) -> bool
    requires { c ≤ field_limit }
    ensures { result ≡ on_in cs.now row.now c }
{
    whole::equal(evaluate::value_at(row, folder::field(4, cs, c, 0)), 1)
}

// A function, since an `if` in a loop that changes a row would leave a joined state.
pub fn if_on(on: bool, n: usize) -> usize
    ensures { (result ≡ pick on n 0) × (result ≤ n) }
{
    if on { n } else { 0 }
}

// What an expansion adds: nodes, and bytes of edges.
#[derive(Clone, Copy)]
pub struct Cost {
    pub births: usize,
    pub bytes: usize,
}

pub fn cost_of(cs: &[u8], row: &[i64], commands: usize) -> Cost
    requires { commands ≤ most_commands }
    ensures { (result.births ≡ children_in cs.now row.now commands) × (result.bytes ≡ edges_in cs.now row.now commands) × (result.births ≤ field_limit * most_commands) × (result.bytes ≤ 4 * field_limit * most_commands) }
{
    let mut births = 0;
    let mut bytes = 0;
    for c in 0..commands {
        let on = is_on(cs, row, c);
        let count = folder::field(4, cs, c, 1);
        births += if_on(on, count);
        bytes += if_on(on, 2 + 2 * count);
    }
    Cost { births, bytes }
}

// Field f of a new node by branch record r.
fn new_field(vars: usize, bs: &[u8], row: &[i64], r: usize, parent: usize, f: usize) -> usize
    requires vars_le_most_variables { (vars ≤ most_variables) × (r ≤ field_limit) × (parent < field_limit) × (f ≤ field_limit) }
    requires results_fit { ResultsFit vars bs.now row.now r }
    ensures { (result ≡ new_field vars bs.now row.now r parent f) × (result < field_limit) }
{
    if f == PARENT {
        return parent;
    }
    if (STATE <= f) & (f < STATE + vars) {
        let e = folder::field(2 + 2 * vars, bs, r, 1 + (f - STATE));
        return put::unsigned_of(evaluate::value_at(row, e));
    }
    0
}

// The branch records and the nodes that they give, from the first on, and whose children these are.
#[derive(Clone, Copy)]
pub struct Births {
    pub record: usize,
    pub node: usize,
    pub count: usize,
    pub parent: usize,
}

// Node k is written, by branch record r.
fn put_node(vars: usize, bs: &[u8], row: &[i64], r: usize, parent: usize, k: usize, nb: &mut [u8])
    requires vars_nonzero { (0 < vars) × (vars ≤ most_variables) × (r ≤ field_limit) × (parent < field_limit) × (k ≤ field_limit) }
    requires whole { Whole vars nb.old k }
    requires results_fit { ResultsFit vars bs.now row.now r }
    ensures { Node vars bs.now row.now r parent k (new_fields vars bs.now row.now) nb.old nb.new }
{
    for f in 0..STATE + vars + 1 {
        put_field(vars, nb, k, f, new_field(vars, bs, row, r, parent, f));
    }
}

// The nodes of one command.
fn put_family(vars: usize, bs: &[u8], row: &[i64], births: Births, nb: &mut [u8])
    requires vars_nonzero { (0 < vars) × (vars ≤ most_variables) × (births.record + births.count ≤ field_limit) × (births.node + births.count ≤ field_limit) × (births.parent < field_limit) }
    requires count_in_bounds { node_size vars * (births.node + births.count) ≤ length nb.old }
    requires all_fit { AllFit vars bs.now row.now births.record births.count }
    ensures { Family vars bs.now row.now births.record births.parent births.node births.count nb.old nb.new }
{
    for b in 0..births.count {
        put_node(
            vars,
            bs,
            row,
            births.record + b,
            births.parent,
            births.node + b,
            nb,
        );
    }
}

// The children of an expanded node, from node k on.
pub fn put_children(
    vars: usize,
    cs: &[u8],
    bs: &[u8],
    row: &[i64],
    commands: usize,
    parent: usize,
    k: usize,
    nb: &mut [u8],
)
    requires vars_nonzero { (0 < vars) × (vars ≤ most_variables) × (commands ≤ most_commands) × (records_in cs.now commands ≤ field_limit) × (parent < field_limit) }
    requires commands_bound { k + children_in cs.now row.now commands ≤ field_limit }
    requires commands_in_bounds { node_size vars * (k + children_in cs.now row.now commands) ≤ length nb.old }
    requires brood_fits { BroodFits vars cs.now bs.now row.now commands }
    ensures { Brood vars cs.now bs.now row.now parent k commands nb.old nb.new }
{
    let mut record = 0;
    let mut node = k;
    for c in 0..commands {
        let branches = folder::field(4, cs, c, 1);
        let count = if_on(is_on(cs, row, c), branches);
        let births = Births {
            record,
            node,
            count,
            parent,
        };
        put_family(vars, bs, row, births, nb);
        record += branches;
        node += count;
    }
}
