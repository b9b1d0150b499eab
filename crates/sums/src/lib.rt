// Sums over edges: of one edge, the greatest of a node's, and the figure that it gives; and the tables they read.

#![tactic(auto)]

ghost use Rattle.std.specs.Prelude.{◌≡◌, ◌+◌, ◌*◌, ◌<◌, ◌≤◌, ◌^◌, eqb, length};
ghost use Rattle.folder.specs.Fields.{field_limit};
ghost use Rattle.folder.specs.Contents.{body, field, count_of};
ghost use Rattle.folder.specs.Pick.{pick};
ghost use Rattle.folder.specs.Tab.{fill};
ghost use Rattle.model.specs.Layout.{variable_count};
ghost use Rattle.model.specs.Limits.{most_records, most_commands};
ghost use Rattle.model.specs.Model.{model_of};
ghost use Rattle.model.specs.Valid.{Valid};
ghost use Rattle.graph.specs.Limits.{units, most_nodes};
ghost use Rattle.graph.specs.Simulation.{node_size, node_count};
ghost use Rattle.graph.specs.Valid.{Valid as GraphValid};
ghost use Rattle.sums.specs.Edges.{most_product, sum_at, EdgeFits, after, EdgesReady, best_of};
ghost use Rattle.sums.specs.Tables.{Tables, weight_in, first_in, Light, figure_by};
ghost use Rattle.sums.specs.Weighted.{Weighted, Ready};

use graph::{COVERED, EXPANDED};
use std::marker::Model;

// Certainty, as rows have it.
pub const UNITS: u32 = graph::UNITS as u32;

// D.
pub fn total_of(m: &[u8]) -> usize
    ensures { (result ≡ (model_of m.now).total) × (result < field_limit) }
{
    folder::field(4, folder::body(m, 0), 0, 0)
}

// Whose figure or value a node takes, unless it is expanded: its cover's, if it has one.
pub fn source_of(kind: usize, cover: usize, n: usize) -> usize
    ensures { result ≡ pick (eqb kind 2) cover n }
{
    if kind == COVERED { cover } else { n }
}

// A weight times an element of a row.
fn times(weight: usize, x: u32) -> usize
    requires { weight < field_limit }
    ensures { (result ≡ weight * x) × (result ≤ most_product) }
{
    weight * x as usize
}

// The sum over the branches of the edge at `at`: of each weight × the row's element at the branch's successor.
pub fn edge_sum(
    weights: &[usize],
    row: &[u32],
    eb: &[u8],
    first: usize,
    count: usize,
    at: usize,
) -> usize
    requires { EdgeFits weights.now (length row.now) eb.now first count at }
    ensures { (result ≡ sum_at weights.now row.now eb.now first count at) × (result < 2 ^ 52) }
{
    let mut acc = 0;
    for b in 0..count {
        let to = folder::u16_in(eb, at + 2 + 2 * b);
        acc += times(weights[first + b], row[to]);
    }
    acc
}

// The branches of command c, which the body of commands has whole.
fn branches_of(cs: &[u8], c: usize) -> usize
    requires { 4 * c + 4 ≤ length cs.now }
    ensures { (result ≡ field 4 cs.now c 1) × (result < field_limit) }
{
    folder::u16_in(cs, 4 * c + 2)
}

// Of a node's edges: the greatest sum, or 0, and where the next node's edges start.
#[derive(Clone, Copy)]
pub struct Best {
    pub greatest: usize,
    pub next: usize,
}

// Over `count` edges from `at` on.
pub fn best_of(
    cs: &[u8],
    eb: &[u8],
    weights: &[usize],
    firsts: &[usize],
    row: &[u32],
    at: usize,
    count: usize,
) -> Best
    requires { EdgesReady cs.now eb.now weights.now firsts.now (length row.now) at count }
    ensures { (result.greatest ≡ best_of cs.now eb.now weights.now firsts.now row.now at count) × (result.next ≡ after cs.now eb.now at count) × (result.greatest < 2 ^ 52) }
{
    let mut best = 0;
    let mut k = at;
    for _ in 0..count {
        let c = folder::u16_in(eb, k);
        let branches = branches_of(cs, c);
        let sum = edge_sum(weights, row, eb, firsts[c], branches, k);
        best = best.max(sum);
        k += 2 + 2 * branches;
    }
    Best {
        greatest: best,
        next: k,
    }
}

// The figure of a node that is not covered, from the greatest sum over its edges; a covered one is 0 for now.
pub fn figure_by(kind: usize, best: usize, d: usize) -> u32
    requires { (0 < d) × (d < field_limit) × (best ≤ d * units) }
    ensures { result ≡ figure_by kind best d }
{
    if kind == EXPANDED {
        return best.div_ceil(d) as u32;
    }
    if kind == COVERED {
        return 0;
    }
    UNITS
}

// The table of weights.
fn fill_weights(size: usize, bs: &[u8], weights: &mut [usize])
    requires { (0 < size) × (size ≤ field_limit) × (count_of size bs.now ≤ field_limit) × (count_of size bs.now ≤ length weights.old) }
    ensures weights_after { weights.new ≡ fill (count_of size bs.now) (weight_in size bs.now) weights.old }
    ensures light { Light (count_of size bs.now) (weight_in size bs.now) }
{
    folder::fill(
        weights,
        folder::count_of(size, bs),
        |r| folder::field(size, bs, r, 0),
    );
}

// The table of each command's first branch record.
fn fill_firsts(cs: &[u8], firsts: &mut [usize])
    requires { (count_of 4 cs.now ≤ field_limit) × (count_of 4 cs.now ≤ length firsts.old) }
    ensures { firsts.new ≡ fill (count_of 4 cs.now) (first_in cs.now) firsts.old }
{
    let commands = folder::count_of(4, cs);
    let mut next = 0;
    for c in 0..commands {
        firsts[c] = next;
        next += folder::field(4, cs, c, 1);
    }
}

// Both tables of an accepted model.
pub fn fill_tables(m: &[u8], weights: &mut [usize], firsts: &mut [usize])
    requires valid { Valid m.now }
    requires most_records_in_bounds { (most_records ≤ length weights.old) × (most_commands ≤ length firsts.old) }
    ensures { Tables (model_of m.now) weights.new firsts.new }
{
    fill_weights(
        2 + 2 * model::variable_count(m),
        folder::body(m, 4),
        weights,
    );
    fill_firsts(folder::body(m, 3), firsts);
}

// An accepted graph with the tables of its model, as rounds over its edges read them. Two bodies are found once, since
// every node's edges read them.
#[derive(Drop)]
pub struct WeightedGraph<'a> {
    model: &'a [u8],
    graph: &'a [u8],
    weights: &'a [usize],
    firsts: &'a [usize],
    commands: &'a [u8],
    edges: &'a [u8],
}

impl<'a> Model for WeightedGraph<'a> {
    ghost Value = { Weighted };

    ghost view = { λ s. record { model = s.model.now; graph = s.graph.now; weights = s.weights.now; firsts = s.firsts.now } };

    ghost invariant = { λ s. GraphValid s.model.now s.graph.now × Tables (model_of s.model.now) s.weights.now s.firsts.now × (s.commands.now ≡ body s.model.now 3) × (s.edges.now ≡ body s.graph.now 1) };
}

impl<'a> WeightedGraph<'a> {
    pub fn of(m: &'a [u8], g: &'a [u8], weights: &'a [usize], firsts: &'a [usize]) -> Self
        requires valid { GraphValid m.now g.now }
        requires tables { Tables (model_of m.now) weights.now firsts.now }
        ensures { result ≡ record { model = m.now; graph = g.now; weights = weights.now; firsts = firsts.now } }
    {
        WeightedGraph {
            model: m,
            graph: g,
            weights,
            firsts,
            commands: folder::body(m, 3),
            edges: folder::body(g, 1),
        }
    }

    // D.
    pub fn total(&self) -> usize
        ensures { (result ≡ (model_of self.now.model).total) × (0 < result) × (result < field_limit) }
    {
        total_of(self.model)
    }

    // The bytes of a node.
    pub fn node_size(&self) -> usize
        ensures { (result ≡ node_size (variable_count self.now.model)) × (0 < result) × (result ≤ field_limit) }
    {
        graph::node_size(graph::variable_count(self.model))
    }

    pub fn node_count(&self) -> usize
        ensures value { result ≡ node_count (model_of self.now.model) self.now.graph }
        ensures few { result ≤ most_nodes }
        ensures ready { Ready self.now }
    {
        graph::node_count(self.model, self.graph)
    }

    // The body of nodes.
    pub fn nodes(&self) -> &'a [u8]
        ensures { result.now ≡ body self.now.graph 0 }
    {
        folder::body(self.graph, 0)
    }

    // The best of the `count` edges from `at` on.
    pub fn best(&self, row: &[u32], at: usize, count: usize) -> Best
        requires { EdgesReady (body self.now.model 3) (body self.now.graph 1) self.now.weights self.now.firsts (length row.now) at count }
        ensures { (result.greatest ≡ best_of (body self.now.model 3) (body self.now.graph 1) self.now.weights self.now.firsts row.now at count) × (result.next ≡ after (body self.now.model 3) (body self.now.graph 1) at count) × (result.greatest < 2 ^ 52) }
    {
        best_of(
            self.commands,
            self.edges,
            self.weights,
            self.firsts,
            row,
            at,
            count,
        )
    }
}
