// Laguipy: machine-checked answers about probabilistic systems. The calls of document 01 on two folders' bytes. None asks
// anything of its arguments; each contract gives the answer and every row's content as equal to a definition, and
// graph/proofs/Demand.antt says what an accepted graph gives.

#![tactic(auto)]

ghost use Rattle.std.specs.Prelude.{◌≡◌, ◌+◌};
ghost use Rattle.folder.specs.Pick.{pick};
ghost use Rattle.model.specs.Table.{model_outcome};
ghost use Rattle.model.specs.View.{view_start, view_part};
ghost use Rattle.model.specs.Step.{step_outcome, step_row};
ghost use Rattle.graph.specs.Table.{graph_outcome, graph_answer};
ghost use Rattle.index.specs.Index.{index_answer, slots_row, answers_row, listing_row};
ghost use Rattle.assembly.specs.Build.{build_answer, built_slice};
ghost use Rattle.graph.specs.Figures.{figure_outcome, first_row, second_row, figure_part, figure_in_first};

use folder::Refusal;
use graph::Summary;

// The model check: rows 1 to 11.
pub fn model_check(model: &[u8]) -> Result<(), Refusal>
    ensures { result ≡ model_outcome model.now }
{
    model_rules::check_model(model)
}

// The view: record i of body e, as a part of the folder. Where the folder breaks rows 1 to 3, or has no such body or
// record, the empty part at its start.
pub fn record_part(model: &[u8], e: usize, i: usize) -> &[u8]
    ensures result_value { result.now ≡ view_part model.now e i }
    ensures ref_ptr_value { result.ref_ptr ≡ (model.entry.ref_ptr.0, view_start model.now e i + model.entry.ref_ptr.1) }
{
    model::record_part(model, e, i)
}

// Rows 1 to 25.
fn graph_outcome(m: &[u8], g: &[u8]) -> Result<(), Refusal>
    ensures { result ≡ graph_outcome m.now g.now }
{
    model_rules::check_model(m)?;
    graph_rules::check_graph(m, g)
}

// The graph check: the model's rows first, then 12 to 25.
pub fn graph_check(model: &[u8], graph: &[u8]) -> Result<Summary, Refusal>
    ensures { result ≡ graph_answer model.now graph.now }
{
    graph_outcome(model, graph)?;
    Ok(graph_rules::summary_of(model, graph))
}

// What the figure call on these arguments answers. Nothing is written.
pub fn figure_refusal(
    model: &[u8],
    graph: &[u8],
    h: usize,
    first: &[u32],
    second: &[u32],
) -> Result<(), Refusal>
    ensures { result ≡ figure_outcome model.now graph.now h first.now second.now }
{
    graph_outcome(model, graph)?;
    figures::figure_check(model, graph, h, first, second)
}

// The figure call, by its answer: round h in the row of its parity, round h - 1 in the other.
pub fn figure_rows(
    model: &[u8],
    graph: &[u8],
    h: usize,
    first: &mut [u32],
    second: &mut [u32],
) -> Result<(), Refusal>
    ensures value { result ≡ figure_outcome model.now graph.now h first.old second.old }
    ensures first_after { first.new ≡ first_row model.now graph.now h first.old second.old }
    ensures second_after { second.new ≡ second_row model.now graph.now h first.old second.old }
{
    graph_outcome(model, graph)?;
    figures::figure_fill(model, graph, h, first, second)
}

// The figure call, by the part of the row that holds the figures; refused, the empty part of the first row.
pub fn figure<'a>(
    model: &[u8],
    graph: &[u8],
    h: usize,
    first: &'a mut [u32],
    second: &'a mut [u32],
) -> &'a mut [u32]
    ensures result_value { result.now ≡ figure_part model.now graph.now h first.old second.old }
    ensures ref_ptr_value { result.ref_ptr ≡ pick (figure_in_first model.now graph.now h first.old second.old) first.entry.ref_ptr second.entry.ref_ptr }
{
    match graph_outcome(model, graph) {
        Err(_) => &mut first[..0],
        Ok(()) => figures::figure_part(model, graph, h, first, second),
    }
}

// The index call: the slots filled afresh, for each state of the batch the lowest node with that concrete label, and every
// uncovered node that is not the lowest uncovered one of its concrete label.
pub fn index(
    model: &[u8],
    graph: &[u8],
    slots: &mut [u16],
    batch: &[i16],
    answers: &mut [u16],
    listing: &mut [u16],
) -> Result<usize, Refusal>
    ensures value { result ≡ index_answer model.now graph.now slots.old batch.now answers.old listing.old }
    ensures slots_after { slots.new ≡ slots_row model.now graph.now slots.old batch.now answers.old listing.old }
    ensures answers_after { answers.new ≡ answers_row model.now graph.now slots.old batch.now answers.old listing.old }
    ensures listing_after { listing.new ≡ listing_row model.now graph.now slots.old batch.now answers.old listing.old }
{
    graph_outcome(model, graph)?;
    index::index_fill(model, graph, slots, batch, answers, listing)
}

// The build call: a graph of the model in the lent slice, with its values after the rounds asked for.
pub fn build(model: &[u8], rounds: usize, out: &mut [u8]) -> Result<usize, Refusal>
    ensures value { result ≡ build_answer model.now rounds out.old }
    ensures out_after { out.new ≡ built_slice model.now rounds out.old }
{
    model_rules::check_model(model)?;
    assembly::build_lent(model, rounds, out)
}

// The step of a state by a branch of a command, into a lent row.
pub fn step(
    model: &[u8],
    state: &[i16],
    command: usize,
    branch: usize,
    res: &mut [i16],
) -> Result<(), Refusal>
    ensures value { result ≡ step_outcome model.now state.now command branch res.old }
    ensures res_after { res.new ≡ step_row model.now state.now command branch res.old }
{
    step::step(model, state, command, branch, res)
}
