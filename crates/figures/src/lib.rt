// The figure call over a model and a graph that the checks accept: rows 26 to 28 of the table, the figures written into
// two rows that the caller lends, and the part of a row that holds them.

#![tactic(auto)]

ghost use Rattle.std.specs.Prelude.{◌≡◌};
ghost use Rattle.folder.specs.Pick.{pick};
ghost use Rattle.folder.specs.Table.{outcome};
ghost use Rattle.model.specs.Model.{model_of};
ghost use Rattle.graph.specs.Simulation.{simulation_of};
ghost use Rattle.graph.specs.Figures.{figure_rows, first_of, second_of, part_of, part_in_first};
ghost use Rattle.graph.specs.Valid.{Valid};

use folder::Refusal;
use graph::WAITING;

const MOST_STEPS: usize = 10000;

// Rows 26 to 28.
#[tactic(auto, unfolding(folder::specs::Table::outcome))]
pub fn figure_check(
    m: &[u8],
    g: &[u8],
    h: usize,
    first: &[u32],
    second: &[u32],
) -> Result<(), Refusal>
    requires { Valid m.now g.now }
    ensures { result ≡ outcome (figure_rows (simulation_of (model_of m.now) g.now) h first.now second.now) }
{
    let size = graph::node_size(graph::variable_count(m));
    let n = graph::node_count(m, g);
    let ns = folder::body(g, 0);
    folder::check_each(26, n, |i| folder::field(size, ns, i, 0) != WAITING)?;
    folder::check(27, 0, h <= MOST_STEPS)?;
    folder::check_each(
        28,
        2,
        |p| n <= if p == 0 { first.len() } else { second.len() },
    )
}

// The figures, where rows 26 to 28 hold: round h in the row of its parity, and round h - 1 in the other. Refused, both
// rows stay.
pub fn figure_fill(
    m: &[u8],
    g: &[u8],
    h: usize,
    first: &mut [u32],
    second: &mut [u32],
) -> Result<(), Refusal>
    requires { Valid m.now g.now }
    ensures value { result ≡ outcome (figure_rows (simulation_of (model_of m.now) g.now) h first.old second.old) }
    ensures first_after { first.new ≡ first_of (model_of m.now) (simulation_of (model_of m.now) g.now) h (outcome (figure_rows (simulation_of (model_of m.now) g.now) h first.old second.old)) first.old }
    ensures second_after { second.new ≡ second_of (model_of m.now) (simulation_of (model_of m.now) g.now) h (outcome (figure_rows (simulation_of (model_of m.now) g.now) h first.old second.old)) second.old }
{
    figure_check(m, g, h, first, second)?;
    rounds::run_rounds(m, g, h, first, second);
    Ok(())
}

// The part of a row that holds the figures, which are written as `figure_fill` does; refused, an empty part.
pub fn figure_part<'a>(
    m: &[u8],
    g: &[u8],
    h: usize,
    first: &'a mut [u32],
    second: &'a mut [u32],
) -> &'a mut [u32]
    requires { Valid m.now g.now }
    ensures result_value { result.now ≡ part_of (model_of m.now) (simulation_of (model_of m.now) g.now) h (outcome (figure_rows (simulation_of (model_of m.now) g.now) h first.old second.old)) }
    ensures ref_ptr_value { result.ref_ptr ≡ pick (part_in_first (model_of m.now) (simulation_of (model_of m.now) g.now) h (outcome (figure_rows (simulation_of (model_of m.now) g.now) h first.old second.old))) first.entry.ref_ptr second.entry.ref_ptr }
{
    let n = graph::node_count(m, g);
    match figure_fill(m, g, h, first, second) {
        Ok(()) if h % 2 == 0 => &mut first[..n],
        Ok(()) => &mut second[..n],
        Err(_) => &mut first[..0],
    }
}
