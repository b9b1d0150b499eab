// Covers, while a graph is built: which node can cover which, which waits, and hints that spare looking at all of them.

#![tactic(auto)]

ghost use Rattle.std.specs.Prelude.{◌≡◌, false, not, ℕ, ◌+◌, ◌*◌, ◌<◌, ◌≤◌, length};
ghost use Rattle.folder.specs.Scan.{first_bad};
ghost use Rattle.folder.specs.Fields.{field_limit, signed16};
ghost use Rattle.folder.specs.Contents.{field};
ghost use Rattle.whole.specs.Order.{eq_z};
ghost use Rattle.model.specs.Limits.{most_variables};
ghost use Rattle.graph.specs.Simulation.{node_size, kind_of};
ghost use Rattle.building.specs.Building.{is_open};
ghost use Rattle.covers.specs.Covers.{is_waiting, same_at, agrees_in, can_cover_in, waits_in, fault_in, hint_at, lowered_hint, SomeWaits, LowestWaits, Lowered};

use expressions::NO_VARIABLE;
use graph::{COVERED, EXPANDED, TARGET};
use nodes::{COVER, KIND, SET, STATE};

// Operators, here and in `is_open`: the facts of a default arm after alternatives on numbers have no name that proofs can cite.
fn is_waiting(k: usize) -> bool
    ensures { result ≡ is_waiting (kind_of k) }
{
    (k != EXPANDED) & (k != COVERED) & (k != TARGET)
}

fn is_open(k: usize) -> bool
    ensures { result ≡ is_open (kind_of k) }
{
    (k == EXPANDED) | (k == TARGET)
}

// Two nodes have the same value in field f.
fn same_value(vars: usize, nb: &[u8], k: usize, n: usize, f: usize) -> bool
    requires { (vars ≤ most_variables) × (k ≤ field_limit) × (n ≤ field_limit) × (f ≤ field_limit) }
    ensures { result ≡ eq_z (signed16 (field (node_size vars) nb.now k f)) (signed16 (field (node_size vars) nb.now n f)) }
{
    let size = graph::node_size(vars);
    whole::equal(
        folder::signed_field(size, nb, k, f),
        folder::signed_field(size, nb, n, f),
    )
}

// The label of node k, which tracks t, says of variable v what node n's state has.
fn agrees_at(vars: usize, nb: &[u8], t: usize, k: usize, n: usize, v: usize) -> bool
    requires { (vars ≤ most_variables) × (k ≤ field_limit) × (n ≤ field_limit) × (v < vars) }
    ensures { t ≡ field (node_size vars) nb.now k 5 → result ≡ same_at vars nb.now k n v }
{
    !expressions::has_bit(t, v) | same_value(vars, nb, k, n, STATE + v)
}

// The label of node k contains the concrete state of node n.
pub fn agrees(vars: usize, nb: &[u8], k: usize, n: usize) -> bool
    requires { (vars ≤ most_variables) × (k ≤ field_limit) × (n ≤ field_limit) }
    ensures { result ≡ agrees_in vars nb.now k n }
{
    let t = folder::field(graph::node_size(vars), nb, k, SET);
    folder::all(vars, |v| agrees_at(vars, nb, t, k, n, v))
}

// Node c can cover node n.
fn can_cover(vars: usize, nb: &[u8], n: usize, c: usize) -> bool
    requires { (vars ≤ most_variables) × (n ≤ field_limit) × (c ≤ field_limit) }
    ensures { result ≡ can_cover_in vars nb.now n c }
{
    let k = folder::field(graph::node_size(vars), nb, c, KIND);
    is_open(k) && agrees(vars, nb, c, n)
}

// The lowest node that can cover node n; `nodes` if none can. None below its hint can.
// Not an Option: the number is `first_bad`'s, which the contract promises.
pub fn lowest_cover(vars: usize, nb: &[u8], nodes: usize, n: usize) -> usize
    requires vars_le_most_variables { (vars ≤ most_variables) × (nodes ≤ field_limit) × (n ≤ field_limit) × (hint_at vars nb.now n ≤ nodes) }
    requires by_index { (c : ℕ) → c < hint_at vars nb.now n → can_cover_in vars nb.now n c ≡ false }
    ensures { result ≡ first_bad (λ c. not (can_cover_in vars nb.now n c)) nodes }
{
    let hint = folder::field(graph::node_size(vars), nb, n, STATE + vars);
    for c in hint..nodes {
        if can_cover(vars, nb, n, c) {
            return c;
        }
    }
    nodes
}

fn waits(vars: usize, nb: &[u8], n: usize) -> bool
    requires { (vars ≤ most_variables) × (n ≤ field_limit) }
    ensures { result ≡ waits_in vars nb.now n }
{
    is_waiting(folder::field(graph::node_size(vars), nb, n, KIND))
}

// The lowest node that waits: some node does, and none below `next`.
pub fn lowest_waiting(vars: usize, nb: &[u8], next: usize) -> usize
    requires vars_le_most_variables { vars ≤ most_variables }
    requires some_waits { SomeWaits vars nb.now next }
    ensures { LowestWaits vars nb.now result }
{
    // No `for`: some node waits, so no end is tested.
    let mut n = next;
    while !waits(vars, nb, n) {
        n += 1;
    }
    n
}

// What a covered node breaks: its cover does not contain its state (23), or tracks what it does not track (24).
#[derive(Clone, Copy, Debug, PartialEq, Eq)]
pub enum Fault {
    Apart,
    Untracked,
}

// What the covered node n breaks first.
pub fn fault_of(vars: usize, nb: &[u8], n: usize) -> Option<Fault>
    requires { (vars ≤ most_variables) × (n ≤ field_limit) }
    ensures { result ≡ fault_in vars nb.now n }
{
    let size = graph::node_size(vars);
    let c = folder::field(size, nb, n, COVER);
    if !agrees(vars, nb, c, n) {
        return Some(Fault::Apart);
    }
    let t = folder::field(size, nb, c, SET);
    let s = folder::field(size, nb, n, SET);
    if mentions::missing_of(vars, t, s) == NO_VARIABLE {
        return None;
    }
    Some(Fault::Untracked)
}

// Node i's hint once node n can cover.
fn lowered_hint(vars: usize, nb: &[u8], n: usize, i: usize) -> usize
    requires { (vars ≤ most_variables) × (n < field_limit) × (i ≤ field_limit) }
    ensures { (result ≡ lowered_hint vars nb.now n i) × (result < field_limit) }
{
    let hint = folder::field(graph::node_size(vars), nb, i, STATE + vars);
    if n < hint && agrees(vars, nb, n, i) {
        n
    } else {
        hint
    }
}

// All hints are lowered by node n.
pub fn lower_hints(vars: usize, nb: &mut [u8], nodes: usize, n: usize)
    requires vars_nonzero { (0 < vars) × (vars ≤ most_variables) × (nodes ≤ field_limit) × (n < field_limit) }
    requires nodes_in_bounds { node_size vars * nodes ≤ length nb.old }
    ensures { Lowered vars n nodes nb.old nb.new }
{
    for i in 0..nodes {
        let hint = lowered_hint(vars, nb, n, i);
        nodes::put_field(vars, nb, i, STATE + vars, hint);
    }
}
