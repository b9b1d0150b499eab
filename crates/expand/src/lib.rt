// The rules of a node that read expressions: A2, B1 and B2, rows 19 to 21 of the table. What entries are in its concrete
// state stands in `state`, and `known` flags those that read known in its label, three ways at first; what a rule asks and
// does not find flagged is read by all states then. A known entry is in every state of the label what it is in this one.

#![tactic(auto)]

ghost use Rattle.std.specs.Prelude.{◌≡◌, true, false, MatchResult, ◌+◌, ◌*◌, ◌<◌, ◌≤◌, ◌^◌, length, get_or, pos};
ghost use Rattle.folder.specs.Fields.{field_limit, u16, signed16};
ghost use Rattle.folder.specs.Contents.{field};
ghost use Rattle.folder.specs.Scan.{all, first_bad};
ghost use Rattle.folder.specs.Tab.{fill};
ghost use Rattle.expressions.specs.Mentions.{lacked};
ghost use Rattle.expressions.specs.Reading.{is_known};
ghost use Rattle.expressions.specs.Right.{IsTruth};
ghost use Rattle.states.specs.Needed.{is_up};
ghost use Rattle.model.specs.Limits.{most_variables, most_expressions, most_commands};
ghost use Rattle.model.specs.Layout.{branch_size};
ghost use Rattle.model.specs.Model.{model_of};
ghost use Rattle.model.specs.Valid.{Valid};
ghost use Rattle.graph.specs.Simulation.{node_size, node_field, command_in, simulation_of};
ghost use Rattle.graph.specs.Labels.{truth_of, reading_of};
ghost use Rattle.graph.specs.Rules.{A1, A2, same_edges, B1, B2};
ghost use Rattle.graph.specs.Seconds.{second19, second21};
ghost use Rattle.graph.specs.Walks.{starts_at};
ghost use Rattle.expand.specs.Node.{NodeOf, LabelFlagged, LabelWidened, FlaggedSettled, StateSettled, Askable, GuardsSettled, FirstsOf, MasksOf, RowsLong};
ghost use Rattle.expand.specs.Tests.{holds_at, reads_at, names_at, Leads, AllLead, result_at, label_at, variable_follows, branch_follows, branch_at, apart_by};
ghost use Rattle.expand.specs.Follow.{RuleAnswer, GuardsKnown, TargetKept, edges_by, flags_of, FollowedTo, StoppedAt, open_entry};

use expressions::{MOST_VARIABLES, NO_VARIABLE};
use graph::{EXPANDED, TARGET};

// Fills the front of a row with the values of node n whose first is field f: 6 for the concrete label, and as many more
// as there are variables for the abstract one.
pub fn load_row(nb: &[u8], vars: usize, n: usize, f: usize, row: &mut [i64])
    requires vars_le_most_variables { (vars ≤ most_variables) × (n ≤ field_limit) × (f ≤ 65000) }
    requires vars_in_bounds { vars ≤ length row.old }
    ensures { row.new ≡ fill vars (λ v. signed16 (field (node_size vars) nb.now n (f + v))) row.old }
{
    let size = graph::node_size(vars);
    folder::fill(row, vars, |v| folder::signed_field(size, nb, n, f + v));
}

fn command_count(m: &[u8]) -> usize
    requires { Valid m.now }
    ensures { (result ≡ (model_of m.now).commands) × (result ≤ most_commands) }
{
    folder::count_of(4, folder::body(m, 3))
}

// Field f of node n.
fn node_field(m: &[u8], g: &[u8], n: usize, f: usize) -> usize
    requires node_of { NodeOf m.now g.now n }
    requires f_le_field_limit { f ≤ field_limit }
    ensures { (result ≡ node_field (model_of m.now) g.now n f) × (result < field_limit) }
{
    folder::field(
        graph::node_size(graph::variable_count(m)),
        folder::body(g, 0),
        n,
        f,
    )
}

// Flags what reads known three ways in the label of node n, where A1 holds: it is in the concrete state what it reads.
pub fn settle_label(m: &[u8], g: &[u8], n: usize, known: &mut [u8], state: &mut [i64])
    requires node_of { NodeOf m.now g.now n }
    requires n_value { A1 (model_of m.now) (simulation_of (model_of m.now) g.now) n ≡ true }
    requires rows_long { RowsLong known.old state.old }
    ensures label_flagged { LabelFlagged m.now g.now n known.new }
    ensures flagged_settled { FlaggedSettled m.now g.now n known.new state.new }
{
    let vars = graph::variable_count(m);
    let set = node_field(m, g, n, 5);
    let x = folder::body(m, 2);
    let nb = folder::body(g, 0);
    let first = 6 + vars;
    let mut row = [0i64; MOST_VARIABLES];
    load_row(nb, vars, n, first, &mut row);
    evaluate::settle(x, set, &row[..vars], known, state);
}

// And what the other entries are there.
pub fn settle_state(m: &[u8], g: &[u8], n: usize, known: &[u8], state: &mut [i64])
    requires node_of { NodeOf m.now g.now n }
    requires flagged_settled { FlaggedSettled m.now g.now n known.now state.old }
    requires most_expressions_in_bounds { most_expressions ≤ length state.old }
    ensures { StateSettled m.now g.now n state.new }
{
    let vars = graph::variable_count(m);
    let x = folder::body(m, 2);
    let nb = folder::body(g, 0);
    let mut row = [0i64; MOST_VARIABLES];
    load_row(nb, vars, n, 6, &mut row);
    states::fill_state(x, &row[..vars], known, state);
}

// Entry e is flagged.
fn known_at(known: &[u8], e: usize) -> bool
    ensures { result ≡ is_up known.now e }
{
    folder::get_or(known, e, 0) == 1
}

// And it holds in the state.
fn holds_at(state: &[i64], e: usize) -> bool
    ensures { result ≡ holds_at state.now e }
{
    whole::equal(folder::get_or(state, e, 0), 1)
}

// Reads entry e, which is not flagged, by all states of the label of node n.
fn widen(m: &[u8], g: &[u8], n: usize, masks: &[u16], state: &[i64], e: usize, known: &mut [u8])
    requires askable { Askable m.now g.now n masks.now known.old state.now }
    requires e_bound { (e < (model_of m.now).entries.count) × (is_up known.old e ≡ false) }
    ensures { LabelWidened m.now g.now n e known.old known.new }
{
    let vars = graph::variable_count(m);
    let set = node_field(m, g, n, 5);
    let nb = folder::body(g, 0);
    let mut row = [0i64; MOST_VARIABLES];
    load_row(nb, vars, n, 6 + vars, &mut row);
    let x = folder::body(m, 2);
    let y = folder::body(m, 1);
    states::widen(x, y, set, &row[..vars], masks, state, e, known);
}

// Whether entry e reads known in the label of node n.
fn ask(
    m: &[u8],
    g: &[u8],
    n: usize,
    masks: &[u16],
    state: &[i64],
    e: usize,
    known: &mut [u8],
) -> bool
    requires askable { Askable m.now g.now n masks.now known.old state.now }
    requires e_bound { e < (model_of m.now).entries.count }
    ensures label_widened { LabelWidened m.now g.now n e known.old known.new }
    ensures value { result ≡ is_up known.new e }
{
    if known_at(known, e) {
        return true;
    }
    widen(m, g, n, masks, state, e, known);
    known_at(known, e)
}

// The first of the commands in their body whose guard is not flagged; their count if each is.
fn unflagged_guard(cs: &[u8], commands: usize, known: &[u8]) -> usize
    requires { commands ≤ field_limit }
    ensures { result ≡ first_bad (λ c. is_up known.now (field 4 cs.now c 0)) commands }
{
    folder::first_bad(commands, |c| known_at(known, folder::field(4, cs, c, 0)))
}

// The variable that entry e, which reads unknown, lacks in the label of node n.
fn lacked_by(m: &[u8], g: &[u8], n: usize, masks: &[u16], e: usize) -> usize
    requires node_of { NodeOf m.now g.now n }
    requires masks_of { MasksOf m.now masks.now }
    requires truth { IsTruth (model_of m.now).entries e }
    requires unknown { false ≡ is_known (truth_of (model_of m.now) (simulation_of (model_of m.now) g.now) n e) }
    ensures { result ≡ lacked (reading_of (model_of m.now) (simulation_of (model_of m.now) g.now) n e) }
{
    let vars = graph::variable_count(m);
    let set = node_field(m, g, n, 5);
    mentions::missing_of(vars, mentions::mask_at(masks, e), set)
}

// All guards read known; else the second place by the first that does not. Where all are flagged, as most often, none is
// asked.
fn guards_known(
    m: &[u8],
    g: &[u8],
    n: usize,
    masks: &[u16],
    state: &[i64],
    known: &mut [u8],
) -> Result<(), usize>
    requires { Askable m.now g.now n masks.now known.old state.now }
    ensures value { GuardsKnown (model_of m.now) (simulation_of (model_of m.now) g.now) n result }
    ensures label_flagged { LabelFlagged m.now g.now n known.new }
{
    let cs = folder::body(m, 3);
    let commands = command_count(m);
    for c in unflagged_guard(cs, commands, known)..commands {
        let guard = folder::field(4, cs, c, 0);
        if !ask(m, g, n, masks, state, guard, known) {
            return Err(lacked_by(m, g, n, masks, guard));
        }
    }
    Ok(())
}

// The target of node n reads as it must, true or not; else the second place. One that reads known lacks no variable.
fn target_kept(
    m: &[u8],
    g: &[u8],
    n: usize,
    masks: &[u16],
    state: &[i64],
    due: bool,
    known: &mut [u8],
) -> Result<(), usize>
    requires { Askable m.now g.now n masks.now known.old state.now }
    ensures value { TargetKept (model_of m.now) (simulation_of (model_of m.now) g.now) n due result }
    ensures label_flagged { LabelFlagged m.now g.now n known.new }
{
    let target = folder::field(4, folder::body(m, 0), 0, 1);
    if !ask(m, g, n, masks, state, target, known) {
        return Err(lacked_by(m, g, n, masks, target));
    }
    if holds_at(state, target) == due {
        Ok(())
    } else {
        Err(NO_VARIABLE)
    }
}

// Row 19: of an expanded node the guards by command, then the target. Else the second place of its refusal.
pub fn a2(
    m: &[u8],
    g: &[u8],
    n: usize,
    masks: &[u16],
    state: &[i64],
    known: &mut [u8],
) -> Result<(), usize>
    requires { Askable m.now g.now n masks.now known.old state.now }
    ensures value { RuleAnswer (A2 (model_of m.now) (simulation_of (model_of m.now) g.now) n) (second19 (model_of m.now) (simulation_of (model_of m.now) g.now) n) result }
    ensures label_flagged { LabelFlagged m.now g.now n known.new }
{
    match node_field(m, g, n, 0) {
        EXPANDED => {
            guards_known(m, g, n, masks, state, known)?;
            target_kept(m, g, n, masks, state, false, known)
        }
        TARGET => target_kept(m, g, n, masks, state, true, known),
        _ => Ok(()),
    }
}

// Edge k of a node that has `edges` of them, which stands at p, is there and names the command c.
fn names_at(eb: &[u8], edges: usize, k: usize, p: usize, c: usize) -> bool
    requires { p < 2 ^ 40 }
    ensures { result ≡ names_at eb.now edges k p c }
{
    (k < edges) & (folder::u16_at(eb, p) == c)
}

// The edges of node n, from `at` on, name the commands whose guards read true, each once, ascending. Where A2 holds, a guard
// reads what it is in the concrete state.
fn edges_enabled(m: &[u8], g: &[u8], n: usize, at: usize, state: &[i64]) -> bool
    requires node_of { NodeOf m.now g.now n }
    requires at_value { at ≡ starts_at (model_of m.now) g.now n }
    requires guards_settled { GuardsSettled m.now g.now n state.now }
    ensures { result ≡ same_edges (model_of m.now) (simulation_of (model_of m.now) g.now) n }
{
    let cs = folder::body(m, 3);
    let eb = folder::body(g, 1);
    let commands = command_count(m);
    let edges = node_field(m, g, n, 4);
    let mut k = 0;
    let mut p = at;
    for c in 0..commands {
        if holds_at(state, folder::field(4, cs, c, 0)) {
            if names_at(eb, edges, k, p, c) {
                p += graph::edge_size(cs, eb, p);
                k += 1;
            } else {
                return false;
            }
        }
    }
    k == edges
}

// Row 20.
pub fn b1(m: &[u8], g: &[u8], n: usize, at: usize, state: &[i64]) -> bool
    requires node_of { NodeOf m.now g.now n }
    requires n_value { A1 (model_of m.now) (simulation_of (model_of m.now) g.now) n ≡ true }
    requires n_value_2 { A2 (model_of m.now) (simulation_of (model_of m.now) g.now) n ≡ true }
    requires at_value { at ≡ starts_at (model_of m.now) g.now n }
    requires state_settled { StateSettled m.now g.now n state.now }
    ensures { result ≡ B1 (model_of m.now) (simulation_of (model_of m.now) g.now) n }
{
    if node_field(m, g, n, 0) == EXPANDED {
        edges_enabled(m, g, n, at, state)
    } else {
        true
    }
}

// What a row has at a place of its own: nothing is tested, for B2 looks at each variable of each branch.
fn value_in(v: &[i64], e: usize) -> i64
    requires { e < length v.now }
    ensures { result ≡ get_or v.now e (pos 0) }
{
    v[e]
}

// Entry e, which has a place in both rows, is flagged and is z.
fn reads_in(known: &[u8], state: &[i64], e: usize, z: i64) -> bool
    requires { (e < length known.now) × (e < length state.now) }
    ensures { result ≡ reads_at known.now state.now e z }
{
    (known[e] == 1) & whole::equal(value_in(state, e), z)
}

// A branch record and the node that is its successor, by where they start in their bodies, and the set of what that node
// tracks, which is read once for all variables.
#[derive(Clone, Copy)]
struct Lead {
    from: usize,
    to: usize,
    set: usize,
}

// The branch record gives variable v what the node has.
fn result_is(vars: usize, nb: &[u8], bs: &[u8], state: &[i64], lead: Lead, v: usize) -> bool
    requires vars_le_most_variables { (vars ≤ most_variables) × (v < vars) }
    requires leads { Leads vars nb.now bs.now lead.from lead.to }
    requires most_expressions_in_bounds { most_expressions ≤ length state.now }
    ensures { result ≡ result_at vars nb.now bs.now state.now lead.from lead.to v }
{
    let e = folder::u16_in(bs, lead.from + 2 + 2 * v);
    let concrete = folder::signed_of(folder::u16_in(nb, lead.to + 12 + 2 * v));
    whole::equal(concrete, value_in(state, e))
}

// And where the node tracks v, it reads so in the label.
fn label_is(
    vars: usize,
    nb: &[u8],
    bs: &[u8],
    known: &[u8],
    state: &[i64],
    lead: Lead,
    v: usize,
) -> bool
    requires vars_le_most_variables { (vars ≤ most_variables) × (v < vars) }
    requires leads { Leads vars nb.now bs.now lead.from lead.to }
    requires rows_long { RowsLong known.now state.now }
    ensures { lead.set ≡ u16 nb.now (lead.to + 10) → result ≡ label_at vars nb.now bs.now known.now state.now lead.from lead.to v }
{
    let e = folder::u16_in(bs, lead.from + 2 + 2 * v);
    let label = folder::signed_of(folder::u16_in(nb, lead.to + 12 + 2 * vars + 2 * v));
    let tracked = expressions::has_bit(lead.set, v);
    !tracked | reads_in(known, state, e, label)
}

fn variable_follows(
    vars: usize,
    nb: &[u8],
    bs: &[u8],
    known: &[u8],
    state: &[i64],
    lead: Lead,
    v: usize,
) -> bool
    requires vars_le_most_variables { (vars ≤ most_variables) × (v < vars) }
    requires leads { Leads vars nb.now bs.now lead.from lead.to }
    requires rows_long { RowsLong known.now state.now }
    ensures { lead.set ≡ u16 nb.now (lead.to + 10) → result ≡ variable_follows vars nb.now bs.now known.now state.now lead.from lead.to v }
{
    let same = result_is(vars, nb, bs, state, lead, v);
    same & label_is(vars, nb, bs, known, state, lead, v)
}

// Branch record r and node s, where both start.
fn lead_of(vars: usize, nb: &[u8], r: usize, s: usize) -> Lead
    requires vars_le_most_variables { (vars ≤ most_variables) × (r ≤ field_limit) × (s ≤ field_limit) }
    requires vars_in_bounds { node_size vars * s + node_size vars ≤ length nb.now }
    ensures { (result.from ≡ branch_size vars * r) × (result.to ≡ node_size vars * s) × (result.set ≡ u16 nb.now (result.to + 10)) }
{
    let from = (2 + 2 * vars) * r;
    let to = (12 + 4 * vars) * s;
    let set = folder::u16_in(nb, to + 10);
    Lead { from, to, set }
}

// All variables of branch record r and node s.
fn branch_follows(
    vars: usize,
    nb: &[u8],
    bs: &[u8],
    known: &[u8],
    state: &[i64],
    r: usize,
    s: usize,
) -> bool
    requires vars_le_most_variables { (vars ≤ most_variables) × (r ≤ field_limit) × (s ≤ field_limit) }
    requires leads { Leads vars nb.now bs.now (branch_size vars * r) (node_size vars * s) }
    requires rows_long { RowsLong known.now state.now }
    ensures { result ≡ branch_follows vars nb.now bs.now known.now state.now r s }
{
    let lead = lead_of(vars, nb, r, s);
    folder::all(
        vars,
        |v| variable_follows(vars, nb, bs, known, state, lead, v),
    )
}

// Which variable breaks B2 where branch record r does not lead to node s; none in particular where it is the concrete label.
fn apart_by(
    vars: usize,
    nb: &[u8],
    bs: &[u8],
    known: &[u8],
    state: &[i64],
    r: usize,
    s: usize,
) -> usize
    requires vars_le_most_variables { (vars ≤ most_variables) × (r ≤ field_limit) × (s ≤ field_limit) }
    requires leads { Leads vars nb.now bs.now (branch_size vars * r) (node_size vars * s) }
    requires rows_long { RowsLong known.now state.now }
    ensures { result ≡ apart_by vars nb.now bs.now known.now state.now r s }
{
    let lead = lead_of(vars, nb, r, s);
    if folder::all(vars, |v| result_is(vars, nb, bs, state, lead, v)) {
        folder::first_bad(vars, |v| label_is(vars, nb, bs, known, state, lead, v))
    } else {
        NO_VARIABLE
    }
}

// An edge: where it stands, and the branch records of its command, from `first` on.
#[derive(Clone, Copy)]
struct Edge {
    at: usize,
    first: usize,
    branches: usize,
}

// The edge that stands at p.
fn edge_at(cs: &[u8], eb: &[u8], firsts: &[usize], p: usize) -> Edge
    requires p_bound { p < 2 ^ 40 }
    requires p_in_bounds { command_in eb.now p < length firsts.now }
    ensures { (result.at ≡ p) × (result.first ≡ get_or firsts.now (command_in eb.now p) 0) × (result.branches ≡ field 4 cs.now (command_in eb.now p) 1) × (result.branches < field_limit) }
{
    let c = folder::u16_at(eb, p);
    let first = firsts[c];
    let branches = folder::field(4, cs, c, 1);
    Edge {
        at: p,
        first,
        branches,
    }
}

// The first branch of an edge that does not follow; their count if each does.
fn first_bad_branch(
    vars: usize,
    nb: &[u8],
    bs: &[u8],
    known: &[u8],
    state: &[i64],
    eb: &[u8],
    edge: Edge,
) -> usize
    requires vars_le_most_variables { (vars ≤ most_variables) × (edge.first + edge.branches ≤ field_limit) × (edge.at < 2 ^ 40) }
    requires all_lead { AllLead vars nb.now bs.now eb.now edge.first edge.branches edge.at }
    requires rows_long { RowsLong known.now state.now }
    ensures { result ≡ first_bad (branch_at vars nb.now bs.now known.now state.now eb.now edge.first edge.at) edge.branches }
{
    let first = edge.first;
    let branches = edge.branches;
    let p = edge.at;
    folder::first_bad(branches, |b| {
        let s = folder::u16_at(eb, p + 2 + 2 * b);
        branch_follows(vars, nb, bs, known, state, first + b, s)
    })
}

// Where the flags stop a walk over the edges of a node: the edge that does not follow and where it stands, and of its branch
// that does not the record, with the second place of the refusal.
#[derive(Clone, Copy)]
struct Stop {
    edge: usize,
    at: usize,
    branch: usize,
    second: usize,
}

// Each edge of node n from number `from` on, which stands at `at`, follows as far as the flags tell; those before do. Where
// the next node's edges start.
fn edges_follow(
    m: &[u8],
    g: &[u8],
    n: usize,
    from: usize,
    at: usize,
    firsts: &[usize],
    known: &[u8],
    state: &[i64],
) -> Result<usize, Stop>
    requires node_of { NodeOf m.now g.now n }
    requires followed_to { FollowedTo m.now g.now n (flags_of m.now g.now known.now state.now) from at }
    requires firsts_of { FirstsOf m.now firsts.now }
    requires state_settled { StateSettled m.now g.now n state.now }
    requires rows_long { RowsLong known.now state.now }
    ensures { MatchResult result (λ next. (edges_by (model_of m.now) (simulation_of (model_of m.now) g.now) n (flags_of m.now g.now known.now state.now) ≡ true) × (next ≡ starts_at (model_of m.now) g.now (n + 1))) (λ stop. StoppedAt m.now g.now n (flags_of m.now g.now known.now state.now) stop.edge stop.at stop.branch stop.second) }
{
    let vars = graph::variable_count(m);
    let cs = folder::body(m, 3);
    let bs = folder::body(m, 4);
    let nb = folder::body(g, 0);
    let eb = folder::body(g, 1);
    let edges = node_field(m, g, n, 4);
    let mut p = at;
    for e in from..edges {
        let edge = edge_at(cs, eb, firsts, p);
        let b = first_bad_branch(vars, nb, bs, known, state, eb, edge);
        if b < edge.branches {
            let s = folder::u16_at(eb, p + 2 + 2 * b);
            let branch = edge.first + b;
            return Err(Stop {
                edge: e,
                at: p,
                branch,
                second: apart_by(vars, nb, bs, known, state, branch, s),
            });
        }
        p += 2 + 2 * edge.branches;
    }
    Ok(p)
}

// The entry that branch record r assigns to variable v, where v is a variable and the entry is not flagged.
fn open_entry(m: &[u8], known: &[u8], r: usize, v: usize) -> Option<usize>
    requires valid { Valid m.now }
    requires r_le_field_limit { r ≤ field_limit }
    ensures { result ≡ open_entry (model_of m.now) known.now r v }
{
    let vars = graph::variable_count(m);
    if v < vars {
        let e = folder::field(2 + 2 * vars, folder::body(m, 4), r, 1 + v);
        if !known_at(known, e) {
            return Some(e);
        }
    }
    None
}

// Row 21. A node that is not expanded has no edges. What the flags leave open is asked, one entry after the other, until all
// edges follow or one does not for good. Where the next node's edges start; else the second place of its refusal.
pub fn b2(
    m: &[u8],
    g: &[u8],
    n: usize,
    at: usize,
    firsts: &[usize],
    masks: &[u16],
    state: &[i64],
    known: &mut [u8],
) -> Result<usize, usize>
    requires askable { Askable m.now g.now n masks.now known.old state.now }
    requires at_value { at ≡ starts_at (model_of m.now) g.now n }
    requires firsts_of { FirstsOf m.now firsts.now }
    ensures { MatchResult result (λ next. (B2 (model_of m.now) (simulation_of (model_of m.now) g.now) n ≡ true) × (next ≡ starts_at (model_of m.now) g.now (n + 1))) (λ v. (B2 (model_of m.now) (simulation_of (model_of m.now) g.now) n ≡ false) × (v ≡ second21 (model_of m.now) (simulation_of (model_of m.now) g.now) n)) }
{
    if node_field(m, g, n, 0) != EXPANDED {
        return Ok(at);
    }
    // No `for`: how often it asks hangs on what each answer flags.
    let mut edge = 0;
    let mut p = at;
    loop {
        let stop = match edges_follow(m, g, n, edge, p, firsts, known, state) {
            Ok(next) => return Ok(next),
            Err(stop) => stop,
        };
        let Some(e) = open_entry(m, known, stop.branch, stop.second) else {
            return Err(stop.second);
        };
        if !ask(m, g, n, masks, state, e, known) {
            return Err(stop.second);
        }
        edge = stop.edge;
        p = stop.at;
    }
}
