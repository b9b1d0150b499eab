// The first rows of the graph check, 12 to 17, over a model folder that the model check accepts. A body is a slice of
// its own: vs and cs are the model's variables and commands, ns and es the graph's nodes and edges. A contract over
// bodies holds of whichever folders have them.

#![tactic(auto)]

ghost use Rattle.std.specs.Prelude.{◌≡◌, List, ℕ, ◌+◌, ◌<◌, ◌≤◌, ◌^◌, length, drop, IfSome, IfOk};
ghost use Rattle.folder.specs.Fields.{field_limit};
ghost use Rattle.folder.specs.Scan.{first_bad};
ghost use Rattle.folder.specs.Table.{outcome};
ghost use Rattle.folder.specs.Contents.{body};
ghost use Rattle.whole.specs.Order.{eq_z};
ghost use Rattle.model.specs.Limits.{most_variables};
ghost use Rattle.model.specs.Layout.{variable_count};
ghost use Rattle.model.specs.Model.{model_of};
ghost use Rattle.model.specs.Valid.{Valid};
ghost use Rattle.graph.specs.Limits.{most_bytes, most_nodes};
ghost use Rattle.graph.specs.Simulation.{node_size, node_count, edge_size, simulation_of};
ghost use Rattle.graph.specs.Rules.{bytes_fit, nodes_fit, values_fit, node_fits, edges_fit, root_fits};
ghost use Rattle.graph.specs.Table.{first_rows, kind_count};
ghost use Rattle.graph.specs.Walks.{NodeBodies, edge_end, edges_end};

use folder::Refusal;

// Certainty, in units.
pub const UNITS: usize = 1000000000;

pub const LEAST_BYTES: usize = 16;

pub const MOST_BYTES: usize = 1048576;

pub const MOST_NODES: usize = 4096;
// Slots of the index.
pub const SLOTS: usize = 8192;

// Kinds of a node.
pub const WAITING: usize = 0;

pub const EXPANDED: usize = 1;

pub const COVERED: usize = 2;

pub const TARGET: usize = 3;

// Of an accepted graph: the root's value, and how many nodes there are of each kind.
#[derive(Clone, Copy, Debug, PartialEq, Eq)]
pub struct Summary {
    pub root: usize,
    pub waiting: usize,
    pub expanded: usize,
    pub covered: usize,
    pub target: usize,
}

fn bytes_fit(g: &[u8]) -> bool
    ensures { result ≡ bytes_fit g.now }
{
    (LEAST_BYTES <= g.len()) & (g.len() <= MOST_BYTES)
}

pub fn node_size(variables: usize) -> usize
    requires { variables ≤ most_variables }
    ensures { (result ≡ node_size variables) × (0 < result) × (result ≤ node_size most_variables) }
{
    12 + 4 * variables
}

pub fn variable_count(m: &[u8]) -> usize
    requires { Valid m.now }
    ensures { (result ≡ variable_count m.now) × (result ≤ most_variables) }
{
    model::variable_count(m)
}

pub fn node_count(m: &[u8], g: &[u8]) -> usize
    requires { Valid m.now }
    ensures { result ≡ node_count (model_of m.now) g.now }
{
    folder::count_of(node_size(variable_count(m)), folder::body(g, 0))
}

// Row 14.
fn nodes_fit(variables: usize, ns: &[u8]) -> bool
    requires { variables ≤ most_variables }
    ensures { (m g : List ℕ) → variables ≡ variable_count m → ns.now ≡ body g 0 → result ≡ nodes_fit (model_of m) g }
{
    let size = node_size(variables);
    let n = folder::count_of(size, ns);
    ((ns.len() % size == 0) & (1 <= n)) & (n <= MOST_NODES)
}

// Row 15: node n's values of variable v.
fn value_fits(variables: usize, vs: &[u8], ns: &[u8], n: usize, v: usize) -> bool
    requires { (variables ≤ most_variables) × (n < field_limit) × (v < most_variables) }
    ensures { (m g : List ℕ) → NodeBodies m g variables vs.now ns.now → result ≡ values_fit (model_of m) (simulation_of (model_of m) g) n v }
{
    let size = node_size(variables);
    let low = folder::signed_field(6, vs, v, 0);
    let high = folder::signed_field(6, vs, v, 1);
    let tracked = expressions::has_bit(folder::field(size, ns, n, 5), v);
    let concrete = folder::signed_field(size, ns, n, 6 + v);
    let label = folder::signed_field(size, ns, n, 6 + variables + v);
    ((low <= concrete) & (concrete <= high)) & (tracked | whole::equal(label, 0))
}

// Row 15.
fn node_fits(variables: usize, vs: &[u8], ns: &[u8], n: usize) -> bool
    requires { (variables ≤ most_variables) × (n < field_limit) }
    ensures { (m g : List ℕ) → NodeBodies m g variables vs.now ns.now → result ≡ node_fits (model_of m) (simulation_of (model_of m) g) n }
{
    let size = node_size(variables);
    let kind = folder::field(size, ns, n, 0);
    let cover = folder::field(size, ns, n, 1);
    let value = folder::field4(size, ns, n, 2);
    let edges = folder::field(size, ns, n, 4);
    let set = folder::field(size, ns, n, 5);
    let head = (kind <= TARGET) & (value <= UNITS);
    let parts = ((kind == COVERED) | (cover == 0)) & ((kind == EXPANDED) | (edges == 0));
    let values = folder::all(variables, |v| value_fits(variables, vs, ns, n, v));
    (head & parts) & ((set >> variables == 0) & values)
}

// Bytes of the edge at k.
pub fn edge_size(cs: &[u8], es: &[u8], k: usize) -> usize
    requires { k < 2 ^ 40 }
    ensures { ((m : List ℕ) → cs.now ≡ body m 3 → result ≡ edge_size (model_of m) es.now k) × (result < 2 ^ 18) }
{
    let command = folder::u16_at(es, k);
    2 + 2 * folder::field(4, cs, command, 1)
}

// Where the edge at k ends, if it fits.
fn edge_end(cs: &[u8], es: &[u8], nodes: usize, k: usize) -> Option<usize>
    requires { k < 2 ^ 40 }
    ensures at { (m : List ℕ) → cs.now ≡ body m 3 → result ≡ edge_end (model_of m) nodes es.now k }
    ensures within { IfSome result (λ end. end ≤ length es.now) }
{
    let command = folder::u16_at(es, k);
    let branches = folder::field(4, cs, command, 1);
    let end = k + edge_size(cs, es, k);
    let lead = folder::all(branches, |b| folder::u16_at(es, k + 2 + 2 * b) < nodes);
    (((command < folder::count_of(4, cs)) & (end <= es.len())) & lead).then_some(end)
}

// Where the `count` edges from `from` on end, if all fit; or the number of the lowest that does not.
fn walk_edges(cs: &[u8], es: &[u8], nodes: usize, from: usize, count: usize) -> Result<usize, usize>
    requires { (from ≤ length es.now) × (length es.now ≤ most_bytes) }
    ensures at { (m : List ℕ) → cs.now ≡ body m 3 → result ≡ edges_end (model_of m) nodes es.now from count }
    ensures within { IfOk result (λ end. end ≤ length es.now) }
{
    let mut k = from;
    for e in 0..count {
        let Some(end) = edge_end(cs, es, nodes, k) else {
            return Err(e);
        };
        k = end;
    }
    Ok(k)
}

// Row 16: the lowest node with an edge that does not fit; where all fit and bytes are over, the node count.
fn first_bad_edges(m: &[u8], g: &[u8]) -> usize
    requires valid { Valid m.now }
    requires g_bound { (node_count (model_of m.now) g.now ≤ most_nodes) × (length g.now ≤ most_bytes) }
    ensures { result ≡ first_bad (edges_fit (model_of m.now) (simulation_of (model_of m.now) g.now)) (node_count (model_of m.now) g.now + 1) }
{
    let size = node_size(variable_count(m));
    let n = node_count(m, g);
    let cs = folder::body(m, 3);
    let ns = folder::body(g, 0);
    let es = folder::body(g, 1);
    let mut at = 0;
    for i in 0..n {
        let Ok(end) = walk_edges(cs, es, n, at, folder::field(size, ns, i, 4)) else {
            return i;
        };
        at = end;
    }
    if at == es.len() { n + 1 } else { n }
}

// Row 17 at variable v.
fn root_fits_at(variables: usize, vs: &[u8], ns: &[u8], v: usize) -> bool
    requires { (variables ≤ most_variables) × (v < most_variables) }
    ensures { (m g : List ℕ) → NodeBodies m g variables vs.now ns.now → result ≡ eq_z ((simulation_of (model_of m) g).concrete 0 v) ((model_of m).initial v) }
{
    let size = node_size(variables);
    let concrete = folder::signed_field(size, ns, 0, 6 + v);
    let initial = folder::signed_field(6, vs, v, 2);
    whole::equal(concrete, initial)
}

fn root_fits(variables: usize, vs: &[u8], ns: &[u8]) -> bool
    requires { variables ≤ most_variables }
    ensures { (m g : List ℕ) → NodeBodies m g variables vs.now ns.now → result ≡ root_fits (model_of m) (simulation_of (model_of m) g) }
{
    folder::all(variables, |v| root_fits_at(variables, vs, ns, v))
}

// How many nodes are of kind k.
pub fn kind_count(m: &[u8], g: &[u8], k: usize) -> usize
    requires valid { Valid m.now }
    requires g_bound { node_count (model_of m.now) g.now ≤ most_nodes }
    ensures { result ≡ kind_count (simulation_of (model_of m.now) g.now) k }
{
    let size = node_size(variable_count(m));
    let n = node_count(m, g);
    let ns = folder::body(g, 0);
    let mut total = 0;
    for i in 0..n {
        if folder::field(size, ns, i, 0) == k {
            total += 1;
        }
    }
    total
}

// Rows 15 to 17.
#[tactic(auto, unfolding(folder::specs::Table::outcome))]
fn check_contents(m: &[u8], g: &[u8]) -> Result<(), Refusal>
    requires valid { Valid m.now }
    requires g_bound { (node_count (model_of m.now) g.now ≤ most_nodes) × (length g.now ≤ most_bytes) }
    ensures { result ≡ outcome (drop 3 (first_rows (model_of m.now) g.now)) }
{
    let variables = variable_count(m);
    let n = node_count(m, g);
    let vs = folder::body(m, 1);
    let ns = folder::body(g, 0);
    folder::check_each(15, n, |i| node_fits(variables, vs, ns, i))?;
    folder::check_scan(16, n + 1, first_bad_edges(m, g))?;
    folder::check(17, 0, root_fits(variables, vs, ns))
}

// Rows 12 to 17.
#[tactic(auto, unfolding(folder::specs::Table::outcome))]
pub fn check_rows(m: &[u8], g: &[u8]) -> Result<(), Refusal>
    requires { Valid m.now }
    ensures { result ≡ outcome (first_rows (model_of m.now) g.now) }
{
    folder::check(12, 0, bytes_fit(g))?;
    folder::check_scan(13, 2, folder::first_bad_entry(g, 2))?;
    folder::check(14, 0, nodes_fit(variable_count(m), folder::body(g, 0)))?;
    check_contents(m, g)
}
