// Document 02, 2.5: the moves made, one after the other, until there is none.

#![tactic(auto)]

ghost use Rattle.std.specs.Prelude.{◌≡◌, ◌+◌, ◌*◌, ◌≤◌, length};
ghost use Rattle.model.specs.Layout.{variable_count};
ghost use Rattle.model.specs.Model.{model_of};
ghost use Rattle.model.specs.Valid.{Valid};
ghost use Rattle.graph.specs.Limits.{least_bytes, most_bytes, most_nodes};
ghost use Rattle.graph.specs.Simulation.{node_size};
ghost use Rattle.building.specs.Built.{built};
ghost use Rattle.put.specs.Put.{Stays};
ghost use Rattle.held.specs.Held.{held_in};
ghost use Rattle.wants.specs.Wants.{MasksOf};
ghost use Rattle.work.specs.Working.{limit_of, Working, Grown};

use expressions::MOST_EXPRESSIONS;
use graph::{LEAST_BYTES, MOST_NODES};
use work::Work;

// How many nodes and bytes a graph comes to.
#[derive(Clone, Copy)]
pub struct Size {
    pub nodes: usize,
    pub len: usize,
}

// From the root alone, which the records hold, until there is no move.
fn grow(
    m: &[u8],
    nb: &mut [u8],
    masks: &[u16],
    marks: &mut [u8],
    reaches: &mut [u16],
    begins: &mut [u32],
    longest: usize,
    start: Work,
) -> Size
    requires masks_of { MasksOf m.now masks.now }
    requires working { Working m.now longest start nb.old marks.old reaches.old begins.old }
    ensures nb_after { held_in m.now result.nodes nb.new ≡ built (model_of m.now) (limit_of longest) }
    ensures grown { Grown m.now longest result.nodes result.len nb.new begins.new }
    ensures stays { Stays 0 (node_size (variable_count m.now) * result.nodes) nb.old nb.new }
{
    let mut w = start;
    while let Some(mv) = growth::next_move(m, nb, masks, marks, longest, w) {
        w = making::make(m, nb, marks, reaches, begins, longest, w, mv);
    }
    Size {
        nodes: w.nodes,
        len: w.len,
    }
}

// The graph is built in the slice `nb`, with at most `longest` bytes, 16 of them before the slice. The row `begins` gets where
// each node's edges begin.
pub fn build(m: &[u8], longest: usize, begins: &mut [u32], nb: &mut [u8]) -> Size
    requires valid { Valid m.now }
    requires most_nodes_in_bounds { most_nodes ≤ length begins.old }
    requires m_bound { (least_bytes + node_size (variable_count m.now) ≤ longest) × (longest ≤ least_bytes + length nb.old) × (longest ≤ most_bytes) }
    ensures nb_after { held_in m.now result.nodes nb.new ≡ built (model_of m.now) (limit_of longest) }
    ensures grown { Grown m.now longest result.nodes result.len nb.new begins.new }
    ensures stays { Stays 0 (node_size (variable_count m.now) * result.nodes) nb.old nb.new }
{
    let vars = graph::variable_count(m);
    let mut masks = [0u16; MOST_EXPRESSIONS];
    let mut marks = [0u8; MOST_NODES];
    let mut reaches = [0u16; MOST_NODES];
    mentions::fill_mentions(folder::body(m, 2), &mut masks);
    begins[0] = 0;
    work::put_root(vars, folder::body(m, 1), nb);
    let start = Work {
        nodes: 1,
        len: LEAST_BYTES + graph::node_size(vars),
        fresh: MOST_NODES,
        low: 0,
        high: 0,
        next: 0,
        waiting: 1,
    };
    grow(
        m,
        nb,
        &masks,
        &mut marks,
        &mut reaches,
        begins,
        longest,
        start,
    )
}
