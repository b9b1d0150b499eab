// Document 02, 2.5: the values of a graph: S everywhere, then rounds over the nodes, upward and in place.

#![tactic(auto)]

ghost use Rattle.std.specs.Prelude.{◌≡◌, ◌*◌, ◌<◌, ◌≤◌, eqb, length};
ghost use Rattle.mdp.specs.Sums.{rounded_up};
ghost use Rattle.folder.specs.Fields.{field_limit};
ghost use Rattle.folder.specs.Pick.{pick};
ghost use Rattle.folder.specs.Tab.{fill};
ghost use Rattle.model.specs.Model.{model_of};
ghost use Rattle.graph.specs.Limits.{units};
ghost use Rattle.graph.specs.Simulation.{node_count, simulation_of};
ghost use Rattle.graph.specs.Valid.{Valid};
ghost use Rattle.sums.specs.Tables.{Round};
ghost use Rattle.building.specs.Values.{rounds_of};
ghost use Rattle.lowering.specs.Sweeps.{nodes_of, swept_row, still_row, Starts};

use graph::EXPANDED;
use model::{MOST_COMMANDS, MOST_RECORDS};
use sums::WeightedGraph;

// What a node is set to, from the greatest sum over its edges and the value of its source.
fn value_by(kind: usize, best: usize, d: usize, taken: u32) -> u32
    requires { (0 < d) × (d < field_limit) × (best ≤ d * units) }
    ensures { result ≡ pick (eqb kind 1) (rounded_up best d) taken }
{
    if kind == EXPANDED {
        sums::figure_by(kind, best, d)
    } else {
        taken
    }
}

// One round. The answer: no value has changed.
fn sweep(s: &WeightedGraph, begins: &[u32], row: &mut [u32]) -> bool
    requires starts { Starts s.now.model s.now.graph begins.now }
    requires round { Round (nodes_of s.now.model s.now.graph) row.old }
    ensures value { result ≡ still_row s.now.model s.now.graph row.old }
    ensures row_after { row.new ≡ swept_row s.now.model s.now.graph row.old }
{
    let size = s.node_size();
    let nodes = s.node_count();
    let d = s.total();
    let nb = s.nodes();
    let mut same = true;
    for n in 0..nodes {
        let kind = folder::field(size, nb, n, 0);
        let cover = folder::field(size, nb, n, 1);
        let count = folder::field(size, nb, n, 4);
        let at = begins::begin_of(begins, n);
        let best = s.best(row, at, count);
        let from = sums::source_of(kind, cover, n);
        let value = value_by(kind, best.greatest, d, row[from]);
        same &= row[n] == value;
        row[n] = value;
    }
    same
}

// S everywhere, then a round for each of `rounds`, or until one changes nothing. Then every later one is the same.
fn sweeps(s: &WeightedGraph, begins: &[u32], rounds: usize, row: &mut [u32])
    requires starts { Starts s.now.model s.now.graph begins.now }
    requires g_in_bounds { nodes_of s.now.model s.now.graph ≤ length row.old }
    ensures { row.new ≡ fill (nodes_of s.now.model s.now.graph) (rounds_of (model_of s.now.model) (simulation_of (model_of s.now.model) s.now.graph) rounds) row.old }
{
    let nodes = s.node_count();
    folder::fill(row, nodes, |_| sums::UNITS);
    for _ in 0..rounds {
        if sweep(s, begins, row) {
            return;
        }
    }
}

// The front of the row gets each node's value after that many rounds. A round that changes nothing is the last that is made.
// Each node's edges start where `begins` says.
pub fn lower(m: &[u8], g: &[u8], begins: &[u32], rounds: usize, row: &mut [u32])
    requires valid { Valid m.now g.now }
    requires starts { Starts m.now g.now begins.now }
    requires g_in_bounds { node_count (model_of m.now) g.now ≤ length row.old }
    ensures { row.new ≡ fill (node_count (model_of m.now) g.now) (rounds_of (model_of m.now) (simulation_of (model_of m.now) g.now) rounds) row.old }
{
    let mut weights = [0usize; MOST_RECORDS];
    let mut firsts = [0usize; MOST_COMMANDS];
    sums::fill_tables(m, &mut weights, &mut firsts);
    let s = WeightedGraph::of(m, g, &weights, &firsts);
    sweeps(&s, begins, rounds, row);
}
