// The repair of the lowest node that has a broken rule. Only nodes that are marked can have one.

#![tactic(auto)]

ghost use Rattle.std.specs.Prelude.{◌≡◌, false, ◌*◌, ◌<◌, ◌≤◌, length, set, None, Some, option_map};
ghost use Rattle.mdp.specs.Kinds.{Kind};
ghost use Rattle.folder.specs.Pick.{pick};
ghost use Rattle.folder.specs.Fields.{field_limit};
ghost use Rattle.model.specs.Limits.{most_variables};
ghost use Rattle.model.specs.Model.{model_of};
ghost use Rattle.graph.specs.Simulation.{node_size};
ghost use Rattle.graph.specs.Limits.{most_nodes};
ghost use Rattle.building.specs.First.{there, first};
ghost use Rattle.building.specs.Moves.{truth_wants, guards_want, repair_as, repair};
ghost use Rattle.building.specs.Working.{ParentRight, Settled, MarkRight};
ghost use Rattle.held.specs.Held.{held_in};
ghost use Rattle.nodes.specs.Told.{told};
ghost use Rattle.wants.specs.Standing.{parent_in, row_in, Standing, Reread, node_of};
ghost use Rattle.repairs.specs.Marked.{AllMarked};

use covers::Fault;
use graph::{COVERED, EXPANDED, TARGET};
use nodes::{KIND, Move, READ, SET};
use work::Work;

// The nodes from `from` to below `end` are marked as read, with all that they track. Those that are read are passed.
fn mark_read(vars: usize, nb: &mut [u8], from: usize, end: usize)
    requires vars_le_most_variables { (vars ≤ most_variables) × (from ≤ end) × (end ≤ field_limit) }
    requires end_in_bounds { node_size vars * end ≤ length nb.old }
    ensures { AllMarked vars from end nb.old nb.new }
{
    let size = graph::node_size(vars);
    // No `for`: a scan goes from one node that is not read to the next.
    let mut x = wants::next_unread(vars, nb, 0, from, end);
    while x < end {
        let set = folder::field(size, nb, x, SET);
        nodes::put_field(vars, nb, x, READ, set);
        x = wants::next_unread(vars, nb, 0, x + 1, end);
    }
}

// 19, then 21, of the expanded node n. If nothing is wanted, all that its children track is marked as read.
fn repair_expanded(
    m: &[u8],
    nb: &mut [u8],
    nodes: usize,
    n: usize,
    masks: &[u16],
    asked: bool,
) -> Option<Move>
    requires standing { Standing m.now masks.now nodes nb.old }
    requires parent_right { ParentRight (model_of m.now) (held_in m.now nodes nb.old) (parent_in m.now nb.old) }
    requires n_lt_nodes { (n < nodes) × ((held_in m.now nodes nb.old).kind n ≡ Kind.expanded) }
    requires n_value { asked ≡ false → (guards_want (model_of m.now) (held_in m.now nodes nb.old) n ≡ None) × (truth_wants (model_of m.now) (held_in m.now nodes nb.old) n (model_of m.now).target ≡ None) }
    ensures result_value { option_map told result ≡ repair_as (model_of m.now) (held_in m.now nodes nb.old) n Kind.expanded }
    ensures reread { Reread m.now nodes nb.old nb.new }
{
    match wants::expanded_wants(m, nb, n, masks, asked) {
        Ok(children) => {
            mark_read(graph::variable_count(m), nb, children.start, children.end);
            None
        }
        Err(v) => Some(Move::Track(n, v)),
    }
}

// 23, then 24, of the covered node n.
fn repair_covered(m: &[u8], nb: &[u8], nodes: usize, n: usize, masks: &[u16]) -> Option<Move>
    requires standing { Standing m.now masks.now nodes nb.now }
    requires n_lt_nodes { (n < nodes) × ((held_in m.now nodes nb.now).kind n ≡ Kind.covered) }
    ensures { option_map told result ≡ repair_as (model_of m.now) (held_in m.now nodes nb.now) n Kind.covered }
{
    match covers::fault_of(graph::variable_count(m), nb, n) {
        Some(Fault::Apart) => Some(Move::Drop(n)),
        Some(Fault::Untracked) => Some(Move::Adopt(n)),
        None => None,
    }
}

// 19 of the target node n.
fn repair_target(m: &[u8], nb: &[u8], nodes: usize, n: usize, masks: &[u16]) -> Option<Move>
    requires standing { Standing m.now masks.now nodes nb.now }
    requires n_lt_nodes { n < nodes }
    ensures { option_map told result ≡ repair_as (model_of m.now) (held_in m.now nodes nb.now) n Kind.target }
{
    let v = wants::target_wants(m, nb, n, masks)?;
    Some(Move::Track(n, v))
}

// The repair of node n's first broken rule, if it has one. Its guards and its target are asked for only if need be.
// The kind is a number, since the record's layout has it so.
fn repair_of(
    m: &[u8],
    nb: &mut [u8],
    nodes: usize,
    n: usize,
    masks: &[u16],
    asked: bool,
) -> Option<Move>
    requires standing { Standing m.now masks.now nodes nb.old }
    requires parent_right { ParentRight (model_of m.now) (held_in m.now nodes nb.old) (parent_in m.now nb.old) }
    requires n_lt_nodes { n < nodes }
    requires n_value { asked ≡ false → (held_in m.now nodes nb.old).kind n ≡ Kind.expanded → (guards_want (model_of m.now) (held_in m.now nodes nb.old) n ≡ None) × (truth_wants (model_of m.now) (held_in m.now nodes nb.old) n (model_of m.now).target ≡ None) }
    ensures result_value { option_map told result ≡ repair (model_of m.now) (held_in m.now nodes nb.old) n }
    ensures reread { Reread m.now nodes nb.old nb.new }
{
    let size = graph::node_size(graph::variable_count(m));
    let kind = folder::field(size, nb, n, KIND);
    if kind == EXPANDED {
        return repair_expanded(m, nb, nodes, n, masks, asked);
    }
    if kind == COVERED {
        return repair_covered(m, nb, nodes, n, masks);
    }
    if kind == TARGET {
        return repair_target(m, nb, nodes, n, masks);
    }
    None
}

// The repair of node n, if it is marked and has one; if it has none, it is marked no longer.
fn visit(
    m: &[u8],
    nb: &mut [u8],
    masks: &[u16],
    marks: &mut [u8],
    w: Work,
    n: usize,
) -> Option<Move>
    requires standing { Standing m.now masks.now w.nodes nb.old }
    requires parent_right { ParentRight (model_of m.now) (held_in m.now w.nodes nb.old) (parent_in m.now nb.old) }
    requires settled { Settled (model_of m.now) (held_in m.now w.nodes nb.old) w.fresh }
    requires n_lt_nodes { (n < w.nodes) × (n < length marks.old) }
    requires n_value { row_in marks.old n ≡ 0 → repair (model_of m.now) (held_in m.now w.nodes nb.old) n ≡ None }
    ensures result_value { option_map told result ≡ repair (model_of m.now) (held_in m.now w.nodes nb.old) n }
    ensures reread { Reread m.now w.nodes nb.old nb.new }
    ensures marks_after { marks.new ≡ pick (there (option_map told result)) marks.old (set marks.old n 0) }
{
    if marks[n] == 0 {
        return None;
    }
    if let Some(mv) = repair_of(m, nb, w.nodes, n, masks, n == w.fresh) {
        return Some(mv);
    }
    marks[n] = 0;
    None
}

// The repair of the lowest node that has a broken rule.
pub fn first_repair(
    m: &[u8],
    nb: &mut [u8],
    masks: &[u16],
    marks: &mut [u8],
    w: Work,
) -> Option<Move>
    requires standing { Standing m.now masks.now w.nodes nb.old }
    requires parent_right { ParentRight (model_of m.now) (held_in m.now w.nodes nb.old) (parent_in m.now nb.old) }
    requires settled { Settled (model_of m.now) (held_in m.now w.nodes nb.old) w.fresh }
    requires mark_right { MarkRight (model_of m.now) (held_in m.now w.nodes nb.old) (row_in marks.old) w.low w.high }
    requires low_le_high { (w.low ≤ w.high) × (w.high ≤ w.nodes) × (most_nodes ≤ length marks.old) }
    ensures result_value { option_map told result ≡ first w.nodes (repair (model_of m.now) (held_in m.now w.nodes nb.old)) }
    ensures reread { Reread m.now w.nodes nb.old nb.new }
    ensures mark_right_2 { MarkRight (model_of m.now) (held_in m.now w.nodes nb.new) (row_in marks.new) (node_of w.high (option_map told result)) w.high }
{
    for n in w.low..w.high {
        if let Some(mv) = visit(m, nb, masks, marks, w, n) {
            return Some(mv);
        }
    }
    None
}
