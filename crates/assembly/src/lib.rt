// Document 02, 2.5: a graph built in a lent slice. Row 35; then the moves, the edges, the contents, and the values.

#![tactic(auto)]

ghost use Rattle.std.specs.Prelude.{◌≡◌, List, ◌++◌, ℕ, ◌+◌, ◌*◌, ◌<◌, ◌≤◌, length, get_or, drop};
ghost use Rattle.folder.specs.Fields.{field4_limit};
ghost use Rattle.folder.specs.Table.{outcome};
ghost use Rattle.model.specs.Limits.{most_variables};
ghost use Rattle.model.specs.Layout.{variable_count};
ghost use Rattle.model.specs.Model.{Model, model_of};
ghost use Rattle.model.specs.Valid.{Valid};
ghost use Rattle.graph.specs.Limits.{least_bytes, most_bytes, most_nodes};
ghost use Rattle.graph.specs.Simulation.{node_size};
ghost use Rattle.graph.specs.Figures.{over};
ghost use Rattle.building.specs.Building.{Building};
ghost use Rattle.building.specs.Counts.{Walked};
ghost use Rattle.building.specs.Built.{built};
ghost use Rattle.wants.specs.Standing.{row_in};
ghost use Rattle.assembly.specs.Stages.{contents_by, bodies_by, Bodied};
ghost use Rattle.assembly.specs.Build.{one_node, limit_for, BuildRight, build_rows, bytes_for, answer_of, slice_of};

use builder::Size;
use folder::Refusal;
use graph::{LEAST_BYTES, MOST_BYTES, MOST_NODES};

const MOST_ROUNDS: usize = 1000;

// Row 35.
pub fn build_check(m: &[u8], rounds: usize, out: &[u8]) -> Result<(), Refusal>
    requires { Valid m.now }
    ensures { result ≡ outcome (build_rows (model_of m.now) rounds out.now) }
{
    let one = LEAST_BYTES + graph::node_size(graph::variable_count(m));
    folder::check(35, 0, one <= out.len())?;
    folder::check(35, 1, rounds <= MOST_ROUNDS)
}

// The contents of a folder whose bodies have a and b bytes.
fn put_contents(out: &mut [u8], a: usize, b: usize)
    requires { (least_bytes ≤ length out.old) × (least_bytes + a < field4_limit) × (b < field4_limit) }
    ensures { out.new ≡ contents_by a b ++ drop least_bytes out.old }
{
    put::put_word(out, 0, LEAST_BYTES);
    put::put_word(out, 4, a);
    put::put_word(out, 8, LEAST_BYTES + a);
    put::put_word(out, 12, b);
}

// Each node's value is put into its record.
fn put_values(vars: usize, nodes: usize, row: &[u32], nb: &mut [u8])
    requires { (vars ≤ most_variables) × (nodes ≤ most_nodes) × (nodes ≤ length row.now) × (node_size vars * nodes ≤ length nb.old) }
    ensures { (M : Model) (B : Building) (value : ℕ → ℕ) (rest : List ℕ) → vars ≡ M.variables → nodes ≡ B.nodes → nb.old ≡ over (bodies_by M B value) rest → nb.new ≡ over (bodies_by M B (λ n. get_or row.now n 0)) rest }
{
    let size = graph::node_size(vars);
    for n in 0..nodes {
        put::put_word(nb, size * n + 4, row[n] as usize);
    }
}

// The two bodies of the graph with all values at S: the moves, then the edges. The row gets where each node's edges begin.
fn build_bodies(m: &[u8], longest: usize, begins: &mut [u32], nb: &mut [u8]) -> Size
    requires valid { Valid m.now }
    requires most_nodes_in_bounds { most_nodes ≤ length begins.old }
    requires m_bound { (least_bytes + node_size (variable_count m.now) ≤ longest) × (longest ≤ least_bytes + length nb.old) × (longest ≤ most_bytes) }
    ensures { Bodied m.now longest result.nodes result.len nb.old nb.new begins.new }
{
    let size = builder::build(m, longest, begins, nb);
    finish::finish(m, size.nodes, begins, nb);
    size
}

// The graph with all values at S: the contents, then the bodies.
fn build_certain(m: &[u8], begins: &mut [u32], out: &mut [u8]) -> Size
    requires valid { Valid m.now }
    requires most_nodes_in_bounds { most_nodes ≤ length begins.old }
    requires m_in_bounds { one_node (model_of m.now) ≤ length out.old }
    ensures nodes_value { result.nodes ≡ (built (model_of m.now) (limit_for out.old)).nodes }
    ensures len_value { result.len ≡ length (bytes_for (model_of m.now) 0 out.old) }
    ensures out_after { out.new ≡ over (bytes_for (model_of m.now) 0 out.old) out.old }
    ensures walked { Walked (model_of m.now) (built (model_of m.now) (limit_for out.old)) (row_in begins.new) }
{
    let longest = out.len().min(MOST_BYTES);
    let size = build_bodies(m, longest, begins, &mut out[LEAST_BYTES..]);
    let nodes = graph::node_size(graph::variable_count(m)) * size.nodes;
    put_contents(out, nodes, size.len - LEAST_BYTES - nodes);
    size
}

// The graph that is built stands first in the slice; its length.
pub fn build_fill(m: &[u8], rounds: usize, out: &mut [u8]) -> usize
    requires valid { Valid m.now }
    requires build_right { BuildRight (model_of m.now) rounds out.old }
    ensures value { result ≡ length (bytes_for (model_of m.now) rounds out.old) }
    ensures out_after { out.new ≡ over (bytes_for (model_of m.now) rounds out.old) out.old }
{
    let mut begins = [0u32; MOST_NODES];
    let size = build_certain(m, &mut begins, out);
    let len = size.len;
    let mut row = [0u32; MOST_NODES];
    lowering::lower(m, &out[..len], &begins, rounds, &mut row);
    put_values(
        graph::variable_count(m),
        size.nodes,
        &row,
        &mut out[LEAST_BYTES..],
    );
    len
}

// Row 35 and the slice. Refused, it stays.
pub fn build_lent(m: &[u8], rounds: usize, out: &mut [u8]) -> Result<usize, Refusal>
    requires { Valid m.now }
    ensures value { result ≡ answer_of (model_of m.now) rounds out.old (outcome (build_rows (model_of m.now) rounds out.old)) }
    ensures out_after { out.new ≡ slice_of (model_of m.now) rounds out.old (outcome (build_rows (model_of m.now) rounds out.old)) }
{
    build_check(m, rounds, out)?;
    Ok(build_fill(m, rounds, out))
}
