// The rules of one node of a graph that need no reading: A1, C3, C1, C2 and the value rule.

#![tactic(auto)]

ghost use Rattle.std.specs.Prelude.{◌≡◌, ◌+◌, ◌*◌, ◌<◌, ◌≤◌, get_or, length};
ghost use Rattle.folder.specs.Contents.{body, count_of, field, field4};
ghost use Rattle.folder.specs.Fields.{field_limit, field4_limit, signed16};
ghost use Rattle.folder.specs.Scan.{all};
ghost use Rattle.whole.specs.Order.{eq_z};
ghost use Rattle.model.specs.Limits.{most_variables};
ghost use Rattle.model.specs.Layout.{variable_count};
ghost use Rattle.model.specs.Model.{model_of};
ghost use Rattle.graph.specs.Limits.{most_nodes};
ghost use Rattle.graph.specs.Simulation.{node_size, node_count, simulation_of};
ghost use Rattle.graph.specs.Rules.{A1, C3, C1, C2, value_rule};
ghost use Rattle.folder.specs.Tab.{fill};
ghost use Rattle.labels.specs.Agree.{agrees_at};
ghost use Rattle.labels.specs.Values.{ValueReady};

use graph::{COVERED, EXPANDED, TARGET, UNITS, WAITING};

// The nodes of a graph, and how many variables each has values of.
#[derive(Clone, Copy)]
struct Nodes<'a> {
    vars: usize,
    body: &'a [u8],
    ghost few: { vars ≤ most_variables },
}

fn nodes_of<'a>(m: &[u8], g: &'a [u8]) -> Nodes<'a>
    requires { variable_count m.now ≤ most_variables }
    ensures { (result.vars ≡ variable_count m.now) × (result.body.now ≡ body g.now 0) }
{
    Nodes {
        vars: model::variable_count(m),
        body: folder::body(g, 0),
    }
}

impl<'a> Nodes<'a> {
    // The 2-byte field f of node n.
    fn field(self, n: usize, f: usize) -> usize
        requires { (n ≤ field_limit) × (f ≤ field_limit) }
        ensures { (result ≡ field (node_size self.entry.vars) self.entry.body.now n f) × (result < field_limit) }
    {
        folder::field(graph::node_size(self.vars), self.body, n, f)
    }

    // Two signed fields are equal where their bits are.
    fn same_field(self, n: usize, f: usize, k: usize, j: usize) -> bool
        requires { (n ≤ field_limit) × (f ≤ field_limit) × (k ≤ field_limit) × (j ≤ field_limit) }
        ensures { result ≡ eq_z (signed16 (field (node_size self.entry.vars) self.entry.body.now n f)) (signed16 (field (node_size self.entry.vars) self.entry.body.now k j)) }
    {
        self.field(n, f) == self.field(k, j)
    }

    // Variable v, if the set t has it, is in the set u, and its value in node n, from field f on, is the one in the label
    // of node k.
    fn agrees_at(self, t: usize, u: usize, n: usize, f: usize, k: usize, v: usize) -> bool
        requires { (n ≤ field_limit) × (f ≤ 6 + most_variables) × (k ≤ field_limit) × (v < self.vars) }
        ensures { result ≡ agrees_at self.entry.vars self.entry.body.now t u n f k v }
    {
        !expressions::has_bit(t, v)
            | (expressions::has_bit(u, v) & self.same_field(n, f + v, k, 6 + self.vars + v))
    }

    // The same of all variables, where t is what node k tracks.
    fn agree(self, u: usize, n: usize, f: usize, k: usize) -> bool
        requires { (n ≤ field_limit) × (f ≤ 6 + most_variables) × (k ≤ field_limit) }
        ensures { result ≡ all (agrees_at self.entry.vars self.entry.body.now (field (node_size self.entry.vars) self.entry.body.now k 5) u n f k) self.entry.vars }
    {
        let t = self.field(k, 5);
        folder::all(self.vars, |v| self.agrees_at(t, u, n, f, k, v))
    }
}

// Row 18: the concrete label of node n lies in its label.
pub fn a1(m: &[u8], g: &[u8], n: usize) -> bool
    requires { (variable_count m.now ≤ most_variables) × (n ≤ field_limit) }
    ensures { result ≡ A1 (model_of m.now) (simulation_of (model_of m.now) g.now) n }
{
    let nodes = nodes_of(m, g);
    nodes.agree(nodes.field(n, 5), n, 6, n)
}

// Row 22: the cover of a covered node is there and is not covered.
pub fn c3(m: &[u8], g: &[u8], n: usize) -> bool
    requires { (variable_count m.now ≤ most_variables) × (n ≤ field_limit) }
    ensures { result ≡ C3 (model_of m.now) (simulation_of (model_of m.now) g.now) n }
{
    let nodes = nodes_of(m, g);
    let k = nodes.field(n, 1);
    let count = folder::count_of(graph::node_size(nodes.vars), nodes.body);
    (nodes.field(n, 0) != COVERED) | ((k < count) & (nodes.field(k, 0) != COVERED))
}

// Row 23: the concrete label of a covered node lies in the cover's label.
pub fn c1(m: &[u8], g: &[u8], n: usize) -> bool
    requires { (variable_count m.now ≤ most_variables) × (n ≤ field_limit) }
    ensures { result ≡ C1 (model_of m.now) (simulation_of (model_of m.now) g.now) n }
{
    let nodes = nodes_of(m, g);
    if nodes.field(n, 0) != COVERED {
        return true;
    }
    let k = nodes.field(n, 1);
    nodes.agree(nodes.field(k, 5), n, 6, k)
}

// Row 24: a covered node tracks what its cover tracks, with the same values.
pub fn c2(m: &[u8], g: &[u8], n: usize) -> bool
    requires { (variable_count m.now ≤ most_variables) × (n ≤ field_limit) }
    ensures { result ≡ C2 (model_of m.now) (simulation_of (model_of m.now) g.now) n }
{
    let nodes = nodes_of(m, g);
    if nodes.field(n, 0) != COVERED {
        return true;
    }
    let k = nodes.field(n, 1);
    nodes.agree(nodes.field(n, 5), n, 6 + nodes.vars, k)
}

// D times a value.
fn limit_of(m: &[u8], value: usize) -> usize
    requires { value < field4_limit }
    ensures { result ≡ (model_of m.now).total * value }
{
    folder::field(4, folder::body(m, 0), 0, 0) * value
}

// Row 25, of any value for each node, in `values`. The edges of node n start at `at`; a node that is not expanded has none
// (row 15), so that nothing is walked for it.
pub fn value_rule(
    m: &[u8],
    g: &[u8],
    values: &[u32],
    weights: &[usize],
    firsts: &[usize],
    n: usize,
    at: usize,
) -> bool
    requires { ValueReady m.now g.now values.now weights.now firsts.now n at }
    ensures { result ≡ value_rule (model_of m.now) (simulation_of (model_of m.now) g.now) (λ k. get_or values.now k 0) n }
{
    let nodes = nodes_of(m, g);
    let value = folder::get_or(values, n, 0) as usize;
    match nodes.field(n, 0) {
        WAITING | TARGET => value == UNITS,
        EXPANDED => {
            let cs = folder::body(m, 3);
            let eb = folder::body(g, 1);
            let count = nodes.field(n, 4);
            let best = sums::best_of(cs, eb, weights, firsts, values, at, count);
            best.greatest <= limit_of(m, value)
        }
        COVERED => folder::get_or(values, nodes.field(n, 1), 0) as usize <= value,
        _ => true,
    }
}

// The row's first elements become the 4-byte field 2 of each record; the later ones stay.
fn fill_fields(size: usize, b: &[u8], row: &mut [u32])
    requires { (0 < size) × (size ≤ field_limit) × (count_of size b.now ≤ most_nodes) × (count_of size b.now ≤ length row.old) }
    ensures { row.new ≡ fill (count_of size b.now) (λ i. field4 size b.now i 2) row.old }
{
    folder::fill(
        row,
        folder::count_of(size, b),
        |i| folder::field4(size, b, i, 2) as u32,
    );
}

// The values of the graph folder, one per node.
pub fn fill_values(m: &[u8], g: &[u8], values: &mut [u32])
    requires m_bound { variable_count m.now ≤ most_variables }
    requires g_bound { (node_count (model_of m.now) g.now ≤ most_nodes) × (node_count (model_of m.now) g.now ≤ length values.old) }
    ensures { values.new ≡ fill (node_count (model_of m.now) g.now) (simulation_of (model_of m.now) g.now).value values.old }
{
    fill_fields(
        graph::node_size(model::variable_count(m)),
        folder::body(g, 0),
        values,
    );
}
