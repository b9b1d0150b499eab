// Document 02, 2.5: the next move.

#![tactic(auto)]

ghost use Rattle.std.specs.Prelude.{◌≡◌, ◌<◌, ◌≤◌, length, option_map};
ghost use Rattle.model.specs.Model.{model_of};
ghost use Rattle.graph.specs.Limits.{most_nodes};
ghost use Rattle.building.specs.First.{onward};
ghost use Rattle.building.specs.Length.{waiting_count};
ghost use Rattle.building.specs.Moves.{opening, growth, lowest_waiting, next_move};
ghost use Rattle.building.specs.Working.{ParentRight, Settled, HintRight, MarkRight, NextRight};
ghost use Rattle.nodes.specs.Told.{told};
ghost use Rattle.wants.specs.Standing.{parent_in, hint_in, row_in, Held, Standing};
ghost use Rattle.work.specs.Working.{limit_of, graph_in, Lent, Looked, ToMake};
ghost use Rattle.growth.specs.Hints.{HintsSettled};

use expressions::MOST_EXPRESSIONS;
use graph::MOST_NODES;
use nodes::Move;
use work::Work;

// The lowest waiting node n has no cover: it becomes a target, or it is expanded if there is room.
fn opening_of(m: &[u8], nb: &[u8], longest: usize, w: Work, n: usize) -> Option<Move>
    requires held { Held m.now w.nodes nb.now }
    requires lent { Lent m.now longest w nb.now }
    requires n_lt_nodes { n < w.nodes }
    ensures { option_map told result ≡ opening (model_of m.now) (limit_of longest) (graph_in m.now w nb.now) n }
{
    let mut state = [0i64; MOST_EXPRESSIONS];
    wants::state_of(m, nb, n, &mut state);
    let target = folder::field(4, folder::body(m, 0), 0, 1);
    if whole::equal(evaluate::value_at(&state, target), 1) {
        return Some(Move::Reach(n));
    }
    let cs = folder::body(m, 3);
    let cost = nodes::cost_of(cs, &state, folder::count_of(4, cs));
    let size = graph::node_size(graph::variable_count(m));
    let count = w.nodes + cost.births;
    if count > MOST_NODES {
        return None;
    }
    let len = w.len + (size * cost.births + cost.bytes);
    if len > longest {
        return None;
    }
    Some(Move::Expand(n))
}

// What becomes of the lowest node that waits.
fn growth_of(m: &[u8], nb: &[u8], longest: usize, w: Work) -> Option<Move>
    requires held { Held m.now w.nodes nb.now }
    requires lent { Lent m.now longest w nb.now }
    requires hint_right { HintRight (model_of m.now) (graph_in m.now w nb.now) (hint_in m.now nb.now) w.nodes }
    requires next_right { NextRight (model_of m.now) (graph_in m.now w nb.now) w.next }
    requires next_le_nodes { (w.next ≤ w.nodes) × (w.waiting ≡ waiting_count (graph_in m.now w nb.now)) }
    ensures { option_map told result ≡ onward (lowest_waiting (model_of m.now) (graph_in m.now w nb.now)) (growth (model_of m.now) (limit_of longest) (graph_in m.now w nb.now)) }
{
    if w.waiting == 0 {
        return None;
    }
    let vars = graph::variable_count(m);
    let n = covers::lowest_waiting(vars, nb, w.next);
    let c = covers::lowest_cover(vars, nb, w.nodes, n);
    if c < w.nodes {
        return Some(Move::Cover(n, c));
    }
    opening_of(m, nb, longest, w, n)
}

// The node opened last is taken into account in the hints.
fn settle_hints(m: &[u8], nb: &mut [u8], w: Work)
    requires held { Held m.now w.nodes nb.old }
    requires hint_right { HintRight (model_of m.now) (graph_in m.now w nb.old) (hint_in m.now nb.old) w.fresh }
    ensures { HintsSettled m.now w nb.old nb.new }
{
    if w.fresh < w.nodes {
        covers::lower_hints(graph::variable_count(m), nb, w.nodes, w.fresh);
    }
}

// The next move: a repair of the lowest node that has a broken rule; else what becomes of the lowest node that waits.
pub fn next_move(
    m: &[u8],
    nb: &mut [u8],
    masks: &[u16],
    marks: &mut [u8],
    longest: usize,
    w: Work,
) -> Option<Move>
    requires standing { Standing m.now masks.now w.nodes nb.old }
    requires lent { Lent m.now longest w nb.old }
    requires parent_right { ParentRight (model_of m.now) (graph_in m.now w nb.old) (parent_in m.now nb.old) }
    requires settled { Settled (model_of m.now) (graph_in m.now w nb.old) w.fresh }
    requires hint_right { HintRight (model_of m.now) (graph_in m.now w nb.old) (hint_in m.now nb.old) w.fresh }
    requires mark_right { MarkRight (model_of m.now) (graph_in m.now w nb.old) (row_in marks.old) w.low w.high }
    requires next_right { NextRight (model_of m.now) (graph_in m.now w nb.old) w.next }
    requires low_le_high { (w.low ≤ w.high) × (w.high ≤ w.nodes) × (w.next ≤ w.nodes) × (most_nodes ≤ length marks.old) × (w.waiting ≡ waiting_count (graph_in m.now w nb.old)) }
    ensures result_value { option_map told result ≡ next_move (model_of m.now) (limit_of longest) (graph_in m.now w nb.old) }
    ensures looked { Looked m.now w nb.old nb.new }
    ensures to_make { ToMake m.now w nb.new marks.new (option_map told result) }
{
    if let Some(mv) = repairs::first_repair(m, nb, masks, marks, w) {
        return Some(mv);
    }
    settle_hints(m, nb, w);
    growth_of(m, nb, longest, w)
}
