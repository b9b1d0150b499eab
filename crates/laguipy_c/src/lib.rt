// The calls of `laguipy` for C and for Rust, in a static library; include/laguipy.h declares them. A slice crosses as
// pointer and length. An enum or a part of a slice does not: each call returns the number of its answer, 0 for
// acceptance, and writes what comes with it into numbers that the caller lends, which are written on every call.

#![tactic(auto)]

ghost use Rattle.std.specs.Prelude.{◌≡◌, ◌<◌, Ok};
ghost use Rattle.folder.specs.Pick.{pick};
ghost use Rattle.folder.specs.Table.{outcome_number, outcome_places, outcome};
ghost use Rattle.model.specs.Table.{folder_rows, model_outcome};
ghost use Rattle.model.specs.View.{view_start};
ghost use Rattle.model.specs.Step.{step_outcome, step_row};
ghost use Rattle.graph.specs.Table.{graph_answer, answer_number, answer_places, answer_values};
ghost use Rattle.graph.specs.Figures.{figure_outcome, in_first, first_row, second_row};
ghost use Rattle.assembly.specs.Build.{build_answer, built_slice, build_number, build_places, build_length};
ghost use Rattle.index.specs.Index.{index_answer, slots_row, answers_row, listing_row, index_number, index_places, index_listed};
ghost use Rattle.laguipy_c.specs.Answers.{number_of, places_of, view_place, figure_place};

use folder::Refusal;
use graph::Summary;

// The number of an answer, whatever it holds where it accepts.
fn number_of<T: Copy>(answer: Result<T, Refusal>) -> usize
    ensures { result ≡ number_of answer }
{
    match answer {
        Ok(_) => 0,
        Err(f) => f.number,
    }
}

fn places_of<T: Copy>(answer: Result<T, Refusal>) -> [usize; 2]
    ensures { result ≡ places_of answer }
{
    match answer {
        Ok(_) => [0, 0],
        Err(f) => [f.place, f.second],
    }
}

fn answer_values(a: Result<Summary, Refusal>) -> [usize; 5]
    ensures { result ≡ answer_values a }
{
    match a {
        Ok(s) => [s.root, s.waiting, s.expanded, s.covered, s.target],
        Err(_) => [0, 0, 0, 0, 0],
    }
}

// The model check.
#[unsafe(no_mangle)]
pub extern "C" fn laguipy_model_check(model: &[u8], place: &mut [usize; 2]) -> usize
    ensures value { result ≡ outcome_number (model_outcome model.now) }
    ensures place_after { place.new ≡ outcome_places (model_outcome model.now) }
{
    let o = laguipy::model_check(model);
    *place = places_of(o);
    number_of(o)
}

// Where the view's part starts, in a folder that keeps rows 1 to 3.
fn record_start(m: &[u8], e: usize, i: usize) -> usize
    requires m_value { outcome (folder_rows m.now) ≡ Ok tt }
    requires e_bound { e < 5 }
    ensures { result ≡ view_start m.now e i }
{
    if i < model::record_count(m, e) {
        folder::start_of(m, e) + model::record_size(m, e) * i
    } else {
        0
    }
}

fn view_start(m: &[u8], e: usize, i: usize) -> usize
    ensures { result ≡ view_start m.now e i }
{
    if e < 5 {
        match model::check_folder(m) {
            Ok(()) => record_start(m, e, i),
            Err(_) => 0,
        }
    } else {
        0
    }
}

// The view: record i of body e, by its start in the folder and its length.
#[unsafe(no_mangle)]
pub extern "C" fn laguipy_record_part(model: &[u8], e: usize, i: usize, part: &mut [usize; 2])
    ensures { part.new ≡ view_place model.now e i }
{
    let start = view_start(model, e, i);
    let view = laguipy::record_part(model, e, i);
    *part = [start, view.len()];
}

// The graph check.
#[unsafe(no_mangle)]
pub extern "C" fn laguipy_graph_check(
    model: &[u8],
    graph: &[u8],
    place: &mut [usize; 2],
    values: &mut [usize; 5],
) -> usize
    ensures value { result ≡ answer_number (graph_answer model.now graph.now) }
    ensures place_after { place.new ≡ answer_places (graph_answer model.now graph.now) }
    ensures values_after { values.new ≡ answer_values (graph_answer model.now graph.now) }
{
    let a = laguipy::graph_check(model, graph);
    *place = places_of(a);
    *values = answer_values(a);
    number_of(a)
}

// What the figure call on these arguments answers; nothing is written to the rows.
#[unsafe(no_mangle)]
pub extern "C" fn laguipy_figure_refusal(
    model: &[u8],
    graph: &[u8],
    h: usize,
    first: &[u32],
    second: &[u32],
    place: &mut [usize; 2],
) -> usize
    ensures value { result ≡ outcome_number (figure_outcome model.now graph.now h first.now second.now) }
    ensures place_after { place.new ≡ outcome_places (figure_outcome model.now graph.now h first.now second.now) }
{
    let o = laguipy::figure_refusal(model, graph, h, first, second);
    *place = places_of(o);
    number_of(o)
}

// The figure call, by its answer.
#[unsafe(no_mangle)]
pub extern "C" fn laguipy_figure_rows(
    model: &[u8],
    graph: &[u8],
    h: usize,
    first: &mut [u32],
    second: &mut [u32],
    place: &mut [usize; 2],
) -> usize
    ensures value { result ≡ outcome_number (figure_outcome model.now graph.now h first.old second.old) }
    ensures first_after { first.new ≡ first_row model.now graph.now h first.old second.old }
    ensures second_after { second.new ≡ second_row model.now graph.now h first.old second.old }
    ensures place_after { place.new ≡ outcome_places (figure_outcome model.now graph.now h first.old second.old) }
{
    let o = laguipy::figure_rows(model, graph, h, first, second);
    *place = places_of(o);
    number_of(o)
}

// The row that holds round h: 0 first, 1 second.
fn row_of(h: usize) -> usize
    ensures { result ≡ pick (in_first h) 0 1 }
{
    if h % 2 == 0 { 0 } else { 1 }
}

// The figure call, by where its figures stand.
#[unsafe(no_mangle)]
pub extern "C" fn laguipy_figure(
    model: &[u8],
    graph: &[u8],
    h: usize,
    first: &mut [u32],
    second: &mut [u32],
    place: &mut [usize; 2],
    part: &mut [usize; 2],
) -> usize
    ensures value { result ≡ outcome_number (figure_outcome model.now graph.now h first.old second.old) }
    ensures first_after { first.new ≡ first_row model.now graph.now h first.old second.old }
    ensures second_after { second.new ≡ second_row model.now graph.now h first.old second.old }
    ensures place_after { place.new ≡ outcome_places (figure_outcome model.now graph.now h first.old second.old) }
    ensures part_after { part.new ≡ figure_place model.now graph.now h first.old second.old }
{
    match laguipy::figure_rows(model, graph, h, first, second) {
        Ok(()) => {
            let count = graph::node_count(model, graph);
            *place = [0, 0];
            *part = [row_of(h), count];
            0
        }
        Err(f) => {
            *place = [f.place, f.second];
            *part = [0, 0];
            f.number
        }
    }
}

// The index call.
#[unsafe(no_mangle)]
pub extern "C" fn laguipy_index(
    model: &[u8],
    graph: &[u8],
    slots: &mut [u16],
    batch: &[i16],
    answers: &mut [u16],
    listing: &mut [u16],
    place: &mut [usize; 2],
    listed: &mut usize,
) -> usize
    ensures value { result ≡ index_number (index_answer model.now graph.now slots.old batch.now answers.old listing.old) }
    ensures slots_after { slots.new ≡ slots_row model.now graph.now slots.old batch.now answers.old listing.old }
    ensures answers_after { answers.new ≡ answers_row model.now graph.now slots.old batch.now answers.old listing.old }
    ensures listing_after { listing.new ≡ listing_row model.now graph.now slots.old batch.now answers.old listing.old }
    ensures place_after { place.new ≡ index_places (index_answer model.now graph.now slots.old batch.now answers.old listing.old) }
    ensures listed_after { listed.new ≡ index_listed (index_answer model.now graph.now slots.old batch.now answers.old listing.old) }
{
    let a = laguipy::index(model, graph, slots, batch, answers, listing);
    *place = places_of(a);
    *listed = a.unwrap_or(0);
    number_of(a)
}

// The build call.
#[unsafe(no_mangle)]
pub extern "C" fn laguipy_build(
    model: &[u8],
    rounds: usize,
    out: &mut [u8],
    place: &mut [usize; 2],
    length: &mut usize,
) -> usize
    ensures value { result ≡ build_number (build_answer model.now rounds out.old) }
    ensures out_after { out.new ≡ built_slice model.now rounds out.old }
    ensures place_after { place.new ≡ build_places (build_answer model.now rounds out.old) }
    ensures length_after { length.new ≡ build_length (build_answer model.now rounds out.old) }
{
    let a = laguipy::build(model, rounds, out);
    *place = places_of(a);
    *length = a.unwrap_or(0);
    number_of(a)
}

// The step of a state by a branch of a command, into a lent row.
#[unsafe(no_mangle)]
pub extern "C" fn laguipy_step(
    model: &[u8],
    state: &[i16],
    command: usize,
    branch: usize,
    res: &mut [i16],
    place: &mut [usize; 2],
) -> usize
    ensures value { result ≡ outcome_number (step_outcome model.now state.now command branch res.old) }
    ensures res_after { res.new ≡ step_row model.now state.now command branch res.old }
    ensures place_after { place.new ≡ outcome_places (step_outcome model.now state.now command branch res.old) }
{
    let o = laguipy::step(model, state, command, branch, res);
    *place = places_of(o);
    number_of(o)
}
