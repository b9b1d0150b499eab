// Figures: the rounds, over two rows that the caller lends.

#![tactic(auto)]

ghost use Rattle.std.specs.Prelude.{◌≡◌, ◌≤◌, length, Ok};
ghost use Rattle.model.specs.Model.{model_of};
ghost use Rattle.graph.specs.Simulation.{simulation_of};
ghost use Rattle.graph.specs.Figures.{first_of, second_of};
ghost use Rattle.graph.specs.Valid.{Valid};
ghost use Rattle.sums.specs.Tables.{Round};
ghost use Rattle.rounds.specs.Rounds.{nodes_of, own_start_row, own_next_row, cover_row, start_row, next_row, first_at, second_at, turn_first, turn_second, held_in, same_first};

use model::{MOST_COMMANDS, MOST_RECORDS};
use sums::WeightedGraph;

// A round's figures of the nodes that are not covered, from the row `src` of the last round.
fn fill_next(s: &WeightedGraph, src: &[u32], dst: &mut [u32])
    requires round { Round (nodes_of s.now.model s.now.graph) src.now }
    requires g_in_bounds { nodes_of s.now.model s.now.graph ≤ length dst.old }
    ensures { dst.new ≡ own_next_row s.now.model s.now.graph src.now dst.old }
{
    let size = s.node_size();
    let nodes = s.node_count();
    let d = s.total();
    let nb = s.nodes();
    let mut at = 0;
    for n in 0..nodes {
        let kind = folder::field(size, nb, n, 0);
        let count = folder::field(size, nb, n, 4);
        let best = s.best(src, at, count);
        dst[n] = sums::figure_by(kind, best.greatest, d);
        at = best.next;
    }
}

// Round 0's figures of the nodes that are not covered: no sum counts yet.
fn fill_start(s: &WeightedGraph, dst: &mut [u32])
    requires g_in_bounds { nodes_of s.now.model s.now.graph ≤ length dst.old }
    ensures { dst.new ≡ own_start_row s.now.model s.now.graph dst.old }
{
    let size = s.node_size();
    let nodes = s.node_count();
    let nb = s.nodes();
    for n in 0..nodes {
        let kind = folder::field(size, nb, n, 0);
        dst[n] = sums::figure_by(kind, 0, 1);
    }
}

// Each covered node takes its cover's figure of the same round. A cover is not covered, so its figure stands.
fn fill_covers(s: &WeightedGraph, dst: &mut [u32])
    requires g_in_bounds { nodes_of s.now.model s.now.graph ≤ length dst.old }
    ensures row { dst.new ≡ cover_row s.now.model s.now.graph dst.old }
    ensures valid { Valid s.now.model s.now.graph }
{
    let size = s.node_size();
    let nodes = s.node_count();
    let nb = s.nodes();
    for n in 0..nodes {
        let kind = folder::field(size, nb, n, 0);
        let cover = folder::field(size, nb, n, 1);
        let from = sums::source_of(kind, cover, n);
        dst[n] = dst[from];
    }
}

fn start_round(s: &WeightedGraph, dst: &mut [u32])
    requires g_in_bounds { nodes_of s.now.model s.now.graph ≤ length dst.old }
    ensures { dst.new ≡ start_row s.now.model s.now.graph dst.old }
{
    fill_start(s, dst);
    fill_covers(s, dst);
}

// The round after the one in `src`.
fn next_round(s: &WeightedGraph, src: &[u32], dst: &mut [u32])
    requires round { Round (nodes_of s.now.model s.now.graph) src.now }
    requires g_in_bounds { nodes_of s.now.model s.now.graph ≤ length dst.old }
    ensures { dst.new ≡ next_row s.now.model s.now.graph src.now dst.old }
{
    fill_next(s, src, dst);
    fill_covers(s, dst);
}

// One turn: round k + 1 into the row of its parity, from round k in the other.
fn turn(s: &WeightedGraph, k: usize, first: &mut [u32], second: &mut [u32])
    requires round { Round (nodes_of s.now.model s.now.graph) (held_in k first.old second.old) }
    requires g_in_bounds { (nodes_of s.now.model s.now.graph ≤ length first.old) × (nodes_of s.now.model s.now.graph ≤ length second.old) }
    ensures first_after { first.new ≡ turn_first s.now.model s.now.graph k first.old second.old }
    ensures second_after { second.new ≡ turn_second s.now.model s.now.graph k first.old second.old }
{
    if k % 2 == 0 {
        next_round(s, first, second);
    } else {
        next_round(s, second, first);
    }
}

// Whether the rows have the same first n elements.
fn same_first(n: usize, a: &[u32], b: &[u32]) -> bool
    requires { (n ≤ length a.now) × (n ≤ length b.now) }
    ensures { result ≡ same_first n a.now b.now }
{
    folder::all(n, |i| a[i] == b[i])
}

// Round 0, then a turn for each round until h, or until two are equal. Then every later round is the same.
fn turns(s: &WeightedGraph, h: usize, first: &mut [u32], second: &mut [u32])
    requires g_in_bounds { (nodes_of s.now.model s.now.graph ≤ length first.old) × (nodes_of s.now.model s.now.graph ≤ length second.old) }
    ensures first_after { first.new ≡ first_at s.now.model s.now.graph h first.old }
    ensures second_after { second.new ≡ second_at s.now.model s.now.graph h second.old }
{
    let nodes = s.node_count();
    start_round(s, first);
    for k in 0..h {
        turn(s, k, first, second);
        if same_first(nodes, first, second) {
            return;
        }
    }
}

// Round h in the row of its parity, and round h - 1 in the other.
pub fn run_rounds(m: &[u8], g: &[u8], h: usize, first: &mut [u32], second: &mut [u32])
    requires valid { Valid m.now g.now }
    requires g_in_bounds { (nodes_of m.now g.now ≤ length first.old) × (nodes_of m.now g.now ≤ length second.old) }
    ensures first_after { first.new ≡ first_of (model_of m.now) (simulation_of (model_of m.now) g.now) h (Ok tt) first.old }
    ensures second_after { second.new ≡ second_of (model_of m.now) (simulation_of (model_of m.now) g.now) h (Ok tt) second.old }
{
    let mut weights = [0usize; MOST_RECORDS];
    let mut firsts = [0usize; MOST_COMMANDS];
    sums::fill_tables(m, &mut weights, &mut firsts);
    let s = WeightedGraph::of(m, g, &weights, &firsts);
    turns(&s, h, first, second);
}
