// The graph check of an accepted model: rows 18 to 25 after rows 12 to 17, the rules of each node finished before the
// next one's; and what an accepted graph has.

#![tactic(auto)]

ghost use Rattle.std.specs.Prelude.{Ok, Err, ◌≡◌, true, false, ◌+◌, ◌≤◌, MatchResult};
ghost use Rattle.folder.specs.Table.{cause, outcome};
ghost use Rattle.model.specs.Model.{model_of};
ghost use Rattle.model.specs.Valid.{Valid};
ghost use Rattle.graph.specs.Limits.{most_nodes};
ghost use Rattle.graph.specs.Simulation.{node_count, simulation_of};
ghost use Rattle.graph.specs.Rules.{A1};
ghost use Rattle.graph.specs.Table.{node_rules, rule_rows, graph_rows, summary};
ghost use Rattle.graph.specs.Valid.{RowsRight};
ghost use Rattle.graph.specs.Walks.{starts_at};
ghost use Rattle.expand.specs.Node.{NodeOf, Askable, FirstsOf, MasksOf};
ghost use Rattle.graph_rules.specs.Ready.{RulesReady, Checked, reading_rules};

use expressions::MOST_EXPRESSIONS;
use folder::{Cause, Refusal};
use graph::{COVERED, EXPANDED, MOST_NODES, Summary, TARGET, WAITING};
use model::{MOST_COMMANDS, MOST_RECORDS};

// A rule that gives no second place.
fn rule(number: usize, holds: bool) -> Result<(), Cause>
    ensures { MatchResult result (λ _. holds ≡ true) (λ c. (holds ≡ false) × (c ≡ cause number 0)) }
{
    if holds {
        Ok(())
    } else {
        Err(Cause { number, second: 0 })
    }
}

// A rule that answers with the second place where it is broken.
fn with_second<T>(number: usize, answer: Result<T, usize>) -> Result<T, Cause>
    ensures { MatchResult result (λ x. answer ≡ Ok x) (λ c. (answer ≡ Err c.second) × (c ≡ cause number c.second)) }
{
    answer.map_err(|second| Cause { number, second })
}

// A2, B1 and B2 of a node that keeps A1, from the rows of its readings: where the next node's edges start, or the first
// broken one.
fn asked_rules(
    m: &[u8],
    g: &[u8],
    n: usize,
    at: usize,
    firsts: &[usize],
    masks: &[u16],
    state: &[i64],
    known: &mut [u8],
) -> Result<usize, Cause>
    requires askable { Askable m.now g.now n masks.now known.old state.now }
    requires at_value { at ≡ starts_at (model_of m.now) g.now n }
    requires firsts_of { FirstsOf m.now firsts.now }
    ensures { Checked (reading_rules m.now g.now n) (λ next. next ≡ starts_at (model_of m.now) g.now (n + 1)) result }
{
    with_second(19, expand::a2(m, g, n, masks, state, known))?;
    rule(20, expand::b1(m, g, n, at, state))?;
    with_second(21, expand::b2(m, g, n, at, firsts, masks, state, known))
}

// The same, with the rows: what the entries are in the node's concrete state, and flags for those that read known in its
// label.
fn settled_rules(
    m: &[u8],
    g: &[u8],
    n: usize,
    at: usize,
    firsts: &[usize],
    masks: &[u16],
) -> Result<usize, Cause>
    requires node_of { NodeOf m.now g.now n }
    requires n_value { A1 (model_of m.now) (simulation_of (model_of m.now) g.now) n ≡ true }
    requires at_value { at ≡ starts_at (model_of m.now) g.now n }
    requires firsts_of { FirstsOf m.now firsts.now }
    requires masks_of { MasksOf m.now masks.now }
    ensures { Checked (reading_rules m.now g.now n) (λ next. next ≡ starts_at (model_of m.now) g.now (n + 1)) result }
{
    let mut known = [0u8; MOST_EXPRESSIONS];
    let mut state = [0i64; MOST_EXPRESSIONS];
    expand::settle_label(m, g, n, &mut known, &mut state);
    expand::settle_state(m, g, n, &known, &mut state);
    asked_rules(m, g, n, at, firsts, masks, &state, &mut known)
}

// A2, B1 and B2. They ask something of expanded and target nodes only: other labels are not read, and such nodes have no
// edges.
fn reading_rules(
    m: &[u8],
    g: &[u8],
    n: usize,
    at: usize,
    firsts: &[usize],
    masks: &[u16],
) -> Result<usize, Cause>
    requires node_of { NodeOf m.now g.now n }
    requires n_value { A1 (model_of m.now) (simulation_of (model_of m.now) g.now) n ≡ true }
    requires at_value { at ≡ starts_at (model_of m.now) g.now n }
    requires firsts_of { FirstsOf m.now firsts.now }
    requires masks_of { MasksOf m.now masks.now }
    ensures { Checked (reading_rules m.now g.now n) (λ next. next ≡ starts_at (model_of m.now) g.now (n + 1)) result }
{
    let size = graph::node_size(graph::variable_count(m));
    match folder::field(size, folder::body(g, 0), n, 0) {
        EXPANDED | TARGET => settled_rules(m, g, n, at, firsts, masks),
        _ => Ok(at),
    }
}

// All rules of node n, in the order of their numbers.
fn node_rules(
    m: &[u8],
    g: &[u8],
    n: usize,
    at: usize,
    values: &[u32],
    weights: &[usize],
    firsts: &[usize],
    masks: &[u16],
) -> Result<usize, Cause>
    requires node_of { NodeOf m.now g.now n }
    requires rules_ready { RulesReady m.now g.now values.now weights.now firsts.now }
    requires masks_of { MasksOf m.now masks.now }
    requires at_value { at ≡ starts_at (model_of m.now) g.now n }
    ensures { Checked (node_rules (model_of m.now) (simulation_of (model_of m.now) g.now) n) (λ next. next ≡ starts_at (model_of m.now) g.now (n + 1)) result }
{
    rule(18, labels::a1(m, g, n))?;
    let next = reading_rules(m, g, n, at, firsts, masks)?;
    rule(22, labels::c3(m, g, n))?;
    rule(23, labels::c1(m, g, n))?;
    rule(24, labels::c2(m, g, n))?;
    rule(25, labels::value_rule(m, g, values, weights, firsts, n, at))?;
    Ok(next)
}

// The rules of all nodes, with the tables they look in.
fn all_nodes(
    m: &[u8],
    g: &[u8],
    values: &[u32],
    weights: &[usize],
    firsts: &[usize],
    masks: &[u16],
) -> Result<(), Refusal>
    requires rules_ready { RulesReady m.now g.now values.now weights.now firsts.now }
    requires masks_of { MasksOf m.now masks.now }
    ensures { result ≡ outcome (rule_rows (model_of m.now) (simulation_of (model_of m.now) g.now)) }
{
    let mut at = 0;
    for n in 0..graph::node_count(m, g) {
        match node_rules(m, g, n, at, values, weights, firsts, masks) {
            Ok(next) => at = next,
            Err(cause) => return folder::refuse_by(cause, n),
        }
    }
    Ok(())
}

// Rows 18 to 25 of a graph that keeps rows 12 to 17.
fn check_nodes(m: &[u8], g: &[u8]) -> Result<(), Refusal>
    requires valid { Valid m.now }
    requires rows_right { RowsRight (model_of m.now) g.now }
    ensures { result ≡ outcome (rule_rows (model_of m.now) (simulation_of (model_of m.now) g.now)) }
{
    let mut values = [0u32; MOST_NODES];
    let mut weights = [0usize; MOST_RECORDS];
    let mut firsts = [0usize; MOST_COMMANDS];
    let mut masks = [0u16; MOST_EXPRESSIONS];
    labels::fill_values(m, g, &mut values);
    sums::fill_tables(m, &mut weights, &mut firsts);
    mentions::fill_mentions(folder::body(m, 2), &mut masks);
    all_nodes(m, g, &values, &weights, &firsts, &masks)
}

// Rows 12 to 25 of a graph of an accepted model.
pub fn check_graph(m: &[u8], g: &[u8]) -> Result<(), Refusal>
    requires { Valid m.now }
    ensures { result ≡ outcome (graph_rows (model_of m.now) g.now) }
{
    graph::check_rows(m, g)?;
    check_nodes(m, g)
}

// What an accepted graph has.
pub fn summary_of(m: &[u8], g: &[u8]) -> Summary
    requires valid { Valid m.now }
    requires g_bound { node_count (model_of m.now) g.now ≤ most_nodes }
    ensures { result ≡ summary (simulation_of (model_of m.now) g.now) }
{
    Summary {
        root: root_value(m, g),
        waiting: graph::kind_count(m, g, WAITING),
        expanded: graph::kind_count(m, g, EXPANDED),
        covered: graph::kind_count(m, g, COVERED),
        target: graph::kind_count(m, g, TARGET),
    }
}

fn root_value(m: &[u8], g: &[u8]) -> usize
    requires valid { Valid m.now }
    requires g_bound { node_count (model_of m.now) g.now ≤ most_nodes }
    ensures { result ≡ (simulation_of (model_of m.now) g.now).value 0 }
{
    let size = graph::node_size(graph::variable_count(m));
    folder::field4(size, folder::body(g, 0), 0, 2)
}
