// What the label of a node wants while a graph is built: which variable it must track, if any, for its guards, its target and
// its children's labels to read known. Entries are settled once for a visit, and read by all states where they must be.

#![tactic(auto)]

ghost use Rattle.std.specs.Prelude.{◌≡◌, false, not, ◌&&◌, ℕ, ◌+◌, ◌<◌, ◌≤◌, length, None, IfOk};
ghost use Rattle.std.specs.Result.{result_err};
ghost use Rattle.folder.specs.Fields.{field_limit};
ghost use Rattle.expressions.specs.Limits.{most_expressions, most_variables};
ghost use Rattle.expressions.specs.Reading.{has_bit};
ghost use Rattle.expressions.specs.Right.{IsNumber, IsTruth};
ghost use Rattle.expressions.specs.States.{lacked_by};
ghost use Rattle.states.specs.Needed.{is_up};
ghost use Rattle.states.specs.Read.{reads_known, Widened};
ghost use Rattle.model.specs.Model.{model_of};
ghost use Rattle.building.specs.First.{◌orelse◌, given, first};
ghost use Rattle.held.specs.Held.{child_field, node_in, label_in, NodeHere};
ghost use Rattle.wants.specs.Wants.{MasksOf, IsRead, truth_wants_in, number_wants_in, guards_in, own_in, result_in, results_in, children_end, ReadBy, AllRead, LabelFlagged, StateSettled, NodeRead};

use expressions::{MOST_EXPRESSIONS, MOST_VARIABLES};
use nodes::{CHILD, READ, SET, STATE};
use std::ops::Range;

// ---- one node's rows, read in records while they are built; `expand` reads the nodes of a folder, and its contracts speak of those

// What every entry is in the concrete state of node n.
pub fn state_of(m: &[u8], nb: &[u8], n: usize, state: &mut [i64])
    requires node_here { NodeHere m.now nb.now n }
    requires most_expressions_in_bounds { most_expressions ≤ length state.old }
    ensures { StateSettled m.now nb.now n state.new }
{
    let vars = graph::variable_count(m);
    let known = [0u8; MOST_EXPRESSIONS];
    let mut row = [0i64; MOST_VARIABLES];
    expand::load_row(nb, vars, n, STATE, &mut row);
    states::fill_state(folder::body(m, 2), &row[..vars], &known, state);
}

// And what of it reads known in its label, three ways.
pub fn settle(m: &[u8], nb: &[u8], n: usize, known: &mut [u8], state: &mut [i64])
    requires node_here { NodeHere m.now nb.now n }
    requires most_expressions_in_bounds { (most_expressions ≤ length known.old) × (most_expressions ≤ length state.old) }
    ensures label_flagged { LabelFlagged m.now nb.now n known.new }
    ensures state_settled { StateSettled m.now nb.now n state.new }
{
    let vars = graph::variable_count(m);
    let set = folder::field(graph::node_size(vars), nb, n, SET);
    let x = folder::body(m, 2);
    let mut row = [0i64; MOST_VARIABLES];
    expand::load_row(nb, vars, n, STATE, &mut row);
    evaluate::settle(x, set, &row[..vars], known, state);
    states::fill_state(x, &row[..vars], known, state);
}

// Reads entry e, which is not flagged, by all states of the label.
fn widen(m: &[u8], nb: &[u8], n: usize, masks: &[u16], state: &[i64], e: usize, known: &mut [u8])
    requires node_read { NodeRead m.now nb.now n masks.now known.old state.now }
    requires e_bound { (e < (model_of m.now).entries.count) × (is_up known.old e ≡ false) }
    ensures { Widened (model_of m.now).entries (label_in m.now nb.now n) e known.old known.new }
{
    let vars = graph::variable_count(m);
    let set = folder::field(graph::node_size(vars), nb, n, SET);
    let mut row = [0i64; MOST_VARIABLES];
    expand::load_row(nb, vars, n, STATE, &mut row);
    let x = folder::body(m, 2);
    let y = folder::body(m, 1);
    states::widen(x, y, set, &row[..vars], masks, state, e, known);
}

// Whether entry e reads known in the label of node n.
fn ask(
    m: &[u8],
    nb: &[u8],
    n: usize,
    masks: &[u16],
    state: &[i64],
    e: usize,
    known: &mut [u8],
) -> bool
    requires node_read { NodeRead m.now nb.now n masks.now known.old state.now }
    requires e_bound { e < (model_of m.now).entries.count }
    ensures value { result ≡ reads_known (model_of m.now).entries (label_in m.now nb.now n) e }
    ensures label_flagged { LabelFlagged m.now nb.now n known.new }
{
    if folder::byte_at(known, e) == 1 {
        return true;
    }
    widen(m, nb, n, masks, state, e, known);
    folder::byte_at(known, e) == 1
}

// The variable that entry e, which reads unknown, lacks in the label of node n.
fn lacks(m: &[u8], nb: &[u8], n: usize, masks: &[u16], e: usize) -> usize
    requires node_here { NodeHere m.now nb.now n }
    requires masks_of { MasksOf m.now masks.now }
    requires e_bound { e < (model_of m.now).entries.count }
    ensures { result ≡ lacked_by (model_of m.now).entries (label_in m.now nb.now n) e }
{
    let vars = graph::variable_count(m);
    let set = folder::field(graph::node_size(vars), nb, n, SET);
    mentions::missing_of(vars, mentions::mask_at(masks, e), set)
}

// What entry e wants, a truth or a number.
fn entry_wants(
    m: &[u8],
    nb: &[u8],
    n: usize,
    masks: &[u16],
    state: &[i64],
    e: usize,
    known: &mut [u8],
) -> Option<usize>
    requires node_read { NodeRead m.now nb.now n masks.now known.old state.now }
    requires e_bound { e < (model_of m.now).entries.count }
    ensures truth_value { IsTruth (model_of m.now).entries e → result ≡ truth_wants_in m.now nb.now n e }
    ensures number_value { IsNumber (model_of m.now).entries e → result ≡ number_wants_in m.now nb.now n e }
    ensures label_flagged { LabelFlagged m.now nb.now n known.new }
{
    if ask(m, nb, n, masks, state, e, known) {
        return None;
    }
    Some(lacks(m, nb, n, masks, e))
}

// ---- 19

fn guards_want(
    m: &[u8],
    nb: &[u8],
    n: usize,
    masks: &[u16],
    state: &[i64],
    known: &mut [u8],
) -> Option<usize>
    requires { NodeRead m.now nb.now n masks.now known.old state.now }
    ensures result_value { result ≡ guards_in m.now nb.now n }
    ensures label_flagged { LabelFlagged m.now nb.now n known.new }
{
    let cs = folder::body(m, 3);
    for c in 0..folder::count_of(4, cs) {
        let e = folder::field(4, cs, c, 0);
        if let Some(v) = entry_wants(m, nb, n, masks, state, e, known) {
            return Some(v);
        }
    }
    None
}

// What guards and target want, if they are asked for.
fn own_wants(
    m: &[u8],
    nb: &[u8],
    n: usize,
    masks: &[u16],
    state: &[i64],
    asked: bool,
    known: &mut [u8],
) -> Option<usize>
    requires { NodeRead m.now nb.now n masks.now known.old state.now }
    ensures result_value { result ≡ given asked (own_in m.now nb.now n) }
    ensures label_flagged { LabelFlagged m.now nb.now n known.new }
{
    if !asked {
        return None;
    }
    if let Some(v) = guards_want(m, nb, n, masks, state, known) {
        return Some(v);
    }
    let target = folder::field(4, folder::body(m, 0), 0, 1);
    entry_wants(m, nb, n, masks, state, target, known)
}

// ---- 21

// A branch record and the child that it gives.
#[derive(Clone, Copy)]
struct Lead {
    record: usize,
    node: usize,
}

// Variable v is in the set s, and not in t.
fn is_new(s: usize, t: usize, v: usize) -> bool
    ensures { result ≡ (has_bit s v && not (has_bit t v)) }
{
    expressions::has_bit(s, v) & !expressions::has_bit(t, v)
}

// What one child's label wants: only variables that are not marked as read are asked for.
fn result_wants(
    m: &[u8],
    nb: &[u8],
    n: usize,
    masks: &[u16],
    state: &[i64],
    lead: Lead,
    known: &mut [u8],
) -> Option<usize>
    requires node_read { NodeRead m.now nb.now n masks.now known.old state.now }
    requires record_bound { (lead.record < (model_of m.now).records) × (lead.node ≤ field_limit) }
    requires read_by { ReadBy m.now nb.now n lead.node lead.record }
    ensures result_value { result ≡ result_in m.now nb.now n lead.node lead.record }
    ensures label_flagged { LabelFlagged m.now nb.now n known.new }
{
    let vars = graph::variable_count(m);
    let size = graph::node_size(vars);
    let bs = folder::body(m, 4);
    let set = folder::field(size, nb, lead.node, SET);
    let read = folder::field(size, nb, lead.node, READ);
    for v in 0..vars {
        if !is_new(set, read, v) {
            continue;
        }
        let e = folder::field(2 + 2 * vars, bs, lead.record, 1 + v);
        if let Some(w) = entry_wants(m, nb, n, masks, state, e, known) {
            return Some(w);
        }
    }
    None
}

// Of the nodes from `start`, by number from there: the first, from `from` on, that tracks what is not marked as read; `end`
// if there is none below it.
pub fn next_unread(vars: usize, nb: &[u8], start: usize, from: usize, end: usize) -> usize
    requires { (vars ≤ most_variables) × (from ≤ end) × (start + end ≤ field_limit) }
    ensures lower_bound { (from ≤ result) × (result ≤ end) }
    ensures by_index { (b : ℕ) → from ≤ b → b < result → IsRead vars nb.now (start + b) }
{
    let size = graph::node_size(vars);
    for b in from..end {
        let x = start + b;
        if folder::field(size, nb, x, SET) != folder::field(size, nb, x, READ) {
            return b;
        }
    }
    end
}

// What the children of one command want, of which there are `count`. Those that are read want nothing, and are passed.
fn branches_want(
    m: &[u8],
    nb: &[u8],
    n: usize,
    masks: &[u16],
    state: &[i64],
    lead: Lead,
    count: usize,
    known: &mut [u8],
) -> Option<usize>
    requires node_read { NodeRead m.now nb.now n masks.now known.old state.now }
    requires count_bound { (lead.record + count ≤ (model_of m.now).records) × (lead.node + count ≤ field_limit) }
    requires by_index { (b : ℕ) → b < count → ReadBy m.now nb.now n (lead.node + b) (lead.record + b) }
    ensures result_value { result ≡ first count (λ b. result_in m.now nb.now n (lead.node + b) (lead.record + b)) }
    ensures label_flagged { LabelFlagged m.now nb.now n known.new }
{
    let vars = graph::variable_count(m);
    // No `for`: a scan goes from one child that is not read to the next.
    let mut b = next_unread(vars, nb, lead.node, 0, count);
    while b < count {
        let one = Lead {
            record: lead.record + b,
            node: lead.node + b,
        };
        if let Some(v) = result_wants(m, nb, n, masks, state, one, known) {
            return Some(v);
        }
        b = next_unread(vars, nb, lead.node, b + 1, count);
    }
    None
}

// Where the children end, or else what they want.
fn results_want(
    m: &[u8],
    nb: &[u8],
    n: usize,
    masks: &[u16],
    state: &[i64],
    known: &mut [u8],
) -> Result<usize, usize>
    requires node_read { NodeRead m.now nb.now n masks.now known.old state.now }
    requires all_read { AllRead m.now nb.now n }
    requires n_bound { children_end m.now nb.now n ≤ field_limit }
    ensures wanted_value { result_err result ≡ results_in m.now nb.now n }
    ensures end_value { IfOk result (λ end. end ≡ children_end m.now nb.now n) }
    ensures label_flagged { LabelFlagged m.now nb.now n known.new }
{
    let cs = folder::body(m, 3);
    let size = graph::node_size(graph::variable_count(m));
    let mut node = folder::field(size, nb, n, CHILD);
    let mut record = 0;
    for c in 0..folder::count_of(4, cs) {
        let branches = folder::field(4, cs, c, 1);
        let count = nodes::if_on(nodes::is_on(cs, state, c), branches);
        let lead = Lead { record, node };
        if let Some(v) = branches_want(m, nb, n, masks, state, lead, count, known) {
            return Err(v);
        }
        record += branches;
        node += count;
    }
    Ok(node)
}

// ---- a node

// Where the children of an expanded node start and end, or else what its label wants. Its guards and its target are asked for
// only where they are not known to read known.
pub fn expanded_wants(
    m: &[u8],
    nb: &[u8],
    n: usize,
    masks: &[u16],
    asked: bool,
) -> Result<Range<usize>, usize>
    requires node_here { NodeHere m.now nb.now n }
    requires masks_of { MasksOf m.now masks.now }
    requires all_read { AllRead m.now nb.now n }
    requires n_bound { children_end m.now nb.now n ≤ field_limit }
    requires n_value { asked ≡ false → own_in m.now nb.now n ≡ None }
    ensures wanted_value { result_err result ≡ (own_in m.now nb.now n orelse results_in m.now nb.now n) }
    ensures children_value { IfOk result (λ r. (r.start ≡ node_in m.now nb.now n child_field) × (r.end ≡ children_end m.now nb.now n)) }
{
    let mut known = [0u8; MOST_EXPRESSIONS];
    let mut state = [0i64; MOST_EXPRESSIONS];
    settle(m, nb, n, &mut known, &mut state);
    let size = graph::node_size(graph::variable_count(m));
    let start = folder::field(size, nb, n, CHILD);
    if let Some(v) = own_wants(m, nb, n, masks, &state, asked, &mut known) {
        return Err(v);
    }
    let end = results_want(m, nb, n, masks, &state, &mut known)?;
    Ok(start..end)
}

// What a target node's label wants.
pub fn target_wants(m: &[u8], nb: &[u8], n: usize, masks: &[u16]) -> Option<usize>
    requires node_here { NodeHere m.now nb.now n }
    requires masks_of { MasksOf m.now masks.now }
    ensures { result ≡ truth_wants_in m.now nb.now n (model_of m.now).target }
{
    let mut known = [0u8; MOST_EXPRESSIONS];
    let mut state = [0i64; MOST_EXPRESSIONS];
    settle(m, nb, n, &mut known, &mut state);
    let target = folder::field(4, folder::body(m, 0), 0, 1);
    entry_wants(m, nb, n, masks, &state, target, &mut known)
}
