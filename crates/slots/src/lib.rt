// An index of a graph's nodes by concrete label: slots in a row that the caller lends. nb is the graph's node body, x a
// state.

#![tactic(auto)]

ghost use Rattle.std.specs.Prelude.{◌≡◌, ◌+◌, ◌/◌, ◌<◌, ◌≤◌, get_or, length, ltb, pos};
ghost use Rattle.folder.specs.Pick.{pick};
ghost use Rattle.folder.specs.Fields.{field_limit};
ghost use Rattle.folder.specs.Contents.{signed_field};
ghost use Rattle.folder.specs.Tab.{tab, fill};
ghost use Rattle.whole.specs.Order.{eq_z};
ghost use Rattle.model.specs.Limits.{most_variables};
ghost use Rattle.graph.specs.Simulation.{node_size};
ghost use Rattle.slots.specs.Slots.{no_node, same_state, slots_after};
ghost use Rattle.slots.specs.Nodes.{label_in, high_of, Hashed, other_hash, passes, stop_in, entering};

use expressions::MOST_VARIABLES;
use folder::FIELD_LIMIT;

// What an empty slot holds: a number, since the row crosses to C.
pub const NO_NODE: u16 = (FIELD_LIMIT - 1) as u16;

// The concrete value of variable v in node n.
fn value_in(size: usize, nb: &[u8], n: usize, v: usize) -> i16
    requires { (size ≤ field_limit) × (n < field_limit) × (v ≤ most_variables) }
    ensures { result ≡ signed_field size nb.now n (6 + v) }
{
    folder::signed_of(folder::field(size, nb, n, 6 + v)) as i16
}

// That value is the one in x.
fn value_is(size: usize, nb: &[u8], n: usize, x: &[i16], v: usize) -> bool
    requires { (size ≤ field_limit) × (n < field_limit) × (v ≤ most_variables) × (v < length x.now) }
    ensures { result ≡ eq_z (signed_field size nb.now n (6 + v)) (get_or x.now v (pos 0)) }
{
    folder::field(size, nb, n, 6 + v) == hash::bits_of(x[v])
}

// The concrete label of node n, at the front of the row.
fn load_label(nb: &[u8], vars: usize, n: usize, row: &mut [i16])
    requires { (vars ≤ most_variables) × (n < field_limit) × (vars ≤ length row.old) }
    ensures { row.new ≡ fill vars (λ v. signed_field (node_size vars) nb.now n (6 + v)) row.old }
{
    let size = graph::node_size(vars);
    folder::fill(row, vars, |v| value_in(size, nb, n, v));
}

// The concrete label of node n is x.
fn label_is(nb: &[u8], n: usize, x: &[i16]) -> bool
    requires { (length x.now ≤ most_variables) × (n < field_limit) }
    ensures { result ≡ same_state (label_in (length x.now) nb.now n) x.now }
{
    let size = graph::node_size(x.len());
    folder::all(x.len(), |v| value_is(size, nb, n, x, v))
}

// The half of a hash that a slot's number does not tell.
fn high_half(h: u32) -> u16
    ensures { result ≡ h / field_limit }
{
    (h as usize / FIELD_LIMIT) as u16
}

// The hash of node n's label is known to have another high half than h.
fn other_hash(hashes: &[u16], n: usize, h: u16) -> bool
    ensures { result ≡ other_hash hashes.now n h }
{
    n < hashes.len() && hashes[n] != h
}

// A slot that holds r is passed in a look-up of x, whose hash has the high half h. Labels with other hashes are other
// labels.
fn passes(nb: &[u8], hashes: &[u16], r: u16, h: u16, x: &[i16]) -> bool
    requires { (length x.now ≤ most_variables) × Hashed (length x.now) nb.now hashes.now × (h ≡ high_of x.now) }
    ensures { result ≡ passes (length x.now) nb.now r x.now }
{
    other_hash(hashes, r as usize, h) || (r != NO_NODE && !label_is(nb, r as usize, x))
}

// The slot after p, round the end.
fn next_slot(p: usize, slots: usize) -> usize
    requires { p < slots }
    ensures { (result ≡ pick (ltb (p + 1) slots) (p + 1) 0) × (result < slots) }
{
    if p + 1 < slots { p + 1 } else { 0 }
}

// The slot where the look-up of x stops.
fn probe(nb: &[u8], hashes: &[u16], row: &[u16], x: &[i16]) -> usize
    requires { (length x.now ≤ most_variables) × Hashed (length x.now) nb.now hashes.now × (0 < length row.now) }
    ensures { (result ≡ stop_in (length x.now) nb.now row.now x.now) × (result < length row.now) }
{
    let slots = row.len();
    let whole = hash::hash(x);
    let h = high_half(whole);
    let mut p = whole as usize % slots;
    for d in 0..slots {
        if !passes(nb, hashes, row[p], h, x) {
            return p;
        }
        p = next_slot(p, slots);
    }
    p
}

// The lowest node with the label x, or none.
pub fn find(nb: &[u8], hashes: &[u16], row: &[u16], x: &[i16]) -> u16
    requires { (length x.now ≤ most_variables) × Hashed (length x.now) nb.now hashes.now × (0 < length row.now) }
    ensures { result ≡ get_or row.now (stop_in (length x.now) nb.now row.now x.now) no_node }
{
    row[probe(nb, hashes, row, x)]
}

// The lowest node with the label of node n.
pub fn find_node(nb: &[u8], vars: usize, hashes: &[u16], row: &[u16], n: usize) -> u16
    requires { (vars ≤ most_variables) × (n < field_limit) × Hashed vars nb.now hashes.now × (0 < length row.now) }
    ensures { result ≡ get_or row.now (stop_in vars nb.now row.now (label_in vars nb.now n)) no_node }
{
    let mut key = [0i16; MOST_VARIABLES];
    load_label(nb, vars, n, &mut key);
    find(nb, hashes, row, &key[..vars])
}

// The high half of the hash of node n's concrete label.
fn hash_node(nb: &[u8], vars: usize, n: usize) -> u16
    requires { (vars ≤ most_variables) × (n < field_limit) }
    ensures { result ≡ high_of (label_in vars nb.now n) }
{
    let mut key = [0i16; MOST_VARIABLES];
    load_label(nb, vars, n, &mut key);
    high_half(hash::hash(&key[..vars]))
}

// The high halves of the nodes' hashes, as many as the row has room for.
pub fn hash_all(nb: &[u8], vars: usize, hashes: &mut [u16])
    requires { (vars ≤ most_variables) × (length hashes.old ≤ no_node) }
    ensures { Hashed vars nb.now hashes.new }
{
    let n = hashes.len();
    folder::fill(hashes, n, |i| hash_node(nb, vars, i));
}

// Node n enters if its label is new.
fn enter(nb: &[u8], vars: usize, hashes: &[u16], n: u16, row: &mut [u16])
    requires { (vars ≤ most_variables) × Hashed vars nb.now hashes.now × (0 < length row.old) }
    ensures { row.new ≡ entering vars nb.now n row.old }
{
    let mut key = [0i16; MOST_VARIABLES];
    load_label(nb, vars, n as usize, &mut key);
    let p = probe(nb, hashes, row, &key[..vars]);
    if row[p] == NO_NODE {
        row[p] = n;
    }
}

// Every slot is emptied.
fn clear(row: &mut [u16])
    ensures { row.new ≡ tab (length row.old) (λ p. no_node) }
{
    let slots = row.len();
    folder::fill(row, slots, |_| NO_NODE);
}

// The row is filled afresh: nodes 0 to n - 1 enter, each only if its label is new.
pub fn enter_all(nb: &[u8], vars: usize, n: usize, hashes: &[u16], row: &mut [u16])
    requires { (vars ≤ most_variables) × (n < length row.old) × (n ≤ no_node) × Hashed vars nb.now hashes.now }
    ensures { row.new ≡ slots_after (label_in vars nb.now) (length row.old) n }
{
    clear(row);
    for i in 0..n {
        enter(nb, vars, hashes, i as u16, row);
    }
}
