// The index call over a model and a graph that the checks accept: row 34 of the table, the slots, the answers to a batch
// of states, and the listing of uncovered nodes that share a concrete label.

#![tactic(auto)]

ghost use Rattle.std.specs.Prelude.{◌≡◌, ◌+◌, ◌*◌, ◌/◌, ◌<◌, ◌≤◌, length, set, Ok};
ghost use Rattle.folder.specs.Pick.{pick};
ghost use Rattle.folder.specs.Tab.{fill};
ghost use Rattle.folder.specs.Table.{outcome};
ghost use Rattle.model.specs.Model.{model_of};
ghost use Rattle.graph.specs.Simulation.{simulation_of};
ghost use Rattle.graph.specs.Figures.{over};
ghost use Rattle.graph.specs.Valid.{Valid};
ghost use Rattle.index.specs.Twins.{state_at};
ghost use Rattle.index.specs.Index.{shared, index_slots, index_rows, IndexRight, slots_of, answers_of, listing_of, answer_of};
ghost use Rattle.index.specs.Ready.{nodes_in, lowest_in, listed_in, twins_in, Indexed, Seen};

use folder::Refusal;
use graph::{COVERED, MOST_NODES, SLOTS};

// The lowest node whose concrete label is state k of the batch.
fn answer(nb: &[u8], vars: usize, hashes: &[u16], slots: &[u16], batch: &[i16], k: usize) -> u16
    requires indexed { Indexed vars nb.now hashes.now slots.now }
    requires vars_in_bounds { vars * k + vars ≤ length batch.now }
    ensures { result ≡ lowest_in vars nb.now (state_at vars batch.now k) }
{
    let a = vars * k;
    let e = a + vars;
    slots::find(nb, hashes, slots, &batch[a..e])
}

// The answer to each state of the batch, at the front of the row.
fn answer_batch(
    nb: &[u8],
    vars: usize,
    hashes: &[u16],
    slots: &[u16],
    batch: &[i16],
    answers: &mut [u16],
)
    requires indexed { Indexed vars nb.now hashes.now slots.now }
    requires vars_nonzero { (0 < vars) × (length batch.now / vars ≤ length answers.old) }
    ensures { answers.new ≡ fill (length batch.now / vars) (λ k. lowest_in vars nb.now (state_at vars batch.now k)) answers.old }
{
    let n = batch.len() / vars;
    folder::fill(answers, n, |k| answer(nb, vars, hashes, slots, batch, k));
}

// Node n is listed if it is uncovered and one like it was seen. `count` nodes are listed before it.
fn visit(
    nb: &[u8],
    vars: usize,
    hashes: &[u16],
    slots: &[u16],
    n: usize,
    seen: &mut [u8],
    listing: &mut [u16],
    count: usize,
) -> usize
    requires indexed { Indexed vars nb.now hashes.now slots.now }
    requires n_bound { (n < nodes_in vars nb.now) × (count < length listing.old) }
    requires seen { Seen vars nb.now n seen.old }
    ensures value { result ≡ pick (listed_in vars nb.now n) (count + 1) count }
    ensures listing_after { listing.new ≡ pick (listed_in vars nb.now n) (set listing.old count n) listing.old }
    ensures seen_2 { Seen vars nb.now (n + 1) seen.new }
{
    if folder::field(graph::node_size(vars), nb, n, 0) == COVERED {
        return count;
    }
    let r = slots::find_node(nb, vars, hashes, slots, n) as usize;
    if seen[r] == 0 {
        seen[r] = 1;
        return count;
    }
    listing[count] = n as u16;
    count + 1
}

// The nodes that share a label, at the front of the row; how many they are. No node was seen yet.
fn list_all(
    nb: &[u8],
    vars: usize,
    hashes: &[u16],
    slots: &[u16],
    seen: &mut [u8],
    listing: &mut [u16],
) -> usize
    requires indexed { Indexed vars nb.now hashes.now slots.now }
    requires nb_in_bounds { nodes_in vars nb.now ≤ length listing.old }
    requires seen { Seen vars nb.now 0 seen.old }
    ensures value { result ≡ length (twins_in vars nb.now (nodes_in vars nb.now)) }
    ensures listing_after { listing.new ≡ over (twins_in vars nb.now (nodes_in vars nb.now)) listing.old }
{
    let nodes = folder::count_of(graph::node_size(vars), nb);
    let mut count = 0;
    for n in 0..nodes {
        count = visit(nb, vars, hashes, slots, n, seen, listing, count);
    }
    count
}

fn list_twins(nb: &[u8], vars: usize, hashes: &[u16], slots: &[u16], listing: &mut [u16]) -> usize
    requires indexed { Indexed vars nb.now hashes.now slots.now }
    requires nb_in_bounds { nodes_in vars nb.now ≤ length listing.old }
    ensures value { result ≡ length (twins_in vars nb.now (nodes_in vars nb.now)) }
    ensures listing_after { listing.new ≡ over (twins_in vars nb.now (nodes_in vars nb.now)) listing.old }
{
    let mut seen = [0u8; MOST_NODES];
    list_all(nb, vars, hashes, slots, &mut seen, listing)
}

// Row 34.
#[tactic(auto, unfolding(folder::specs::Table::outcome))]
fn rows_check(
    m: &[u8],
    g: &[u8],
    slots: &[u16],
    batch: &[i16],
    answers: &[u16],
    listing: &[u16],
) -> Result<(), Refusal>
    requires { Valid m.now g.now }
    ensures { result ≡ outcome (index_rows (model_of m.now) (simulation_of (model_of m.now) g.now) slots.now batch.now answers.now listing.now) }
{
    let vars = graph::variable_count(m);
    let nodes = graph::node_count(m, g);
    folder::check_each(34, 4, |p| match p {
        0 => slots.len() == SLOTS,
        1 => batch.len() % vars == 0,
        2 => batch.len() / vars <= answers.len(),
        _ => nodes <= listing.len(),
    })
}

// The rows, where row 34 holds: the slots filled afresh, the answers, and the listing. How many nodes are listed.
fn fill_rows(
    m: &[u8],
    g: &[u8],
    slots: &mut [u16],
    batch: &[i16],
    answers: &mut [u16],
    listing: &mut [u16],
) -> usize
    requires valid { Valid m.now g.now }
    requires index_right { IndexRight (model_of m.now) (simulation_of (model_of m.now) g.now) slots.old batch.now answers.old listing.old }
    ensures value { result ≡ length (shared (model_of m.now) (simulation_of (model_of m.now) g.now)) }
    ensures slots_after { slots.new ≡ index_slots (model_of m.now) (simulation_of (model_of m.now) g.now) }
    ensures answers_after { answers.new ≡ answers_of (model_of m.now) (simulation_of (model_of m.now) g.now) (Ok tt) batch.now answers.old }
    ensures listing_after { listing.new ≡ listing_of (model_of m.now) (simulation_of (model_of m.now) g.now) (Ok tt) listing.old }
{
    let vars = graph::variable_count(m);
    let nodes = graph::node_count(m, g);
    let nb = folder::body(g, 0);
    let mut room = [0u16; MOST_NODES];
    let hashes = &mut room[..nodes];
    slots::hash_all(nb, vars, hashes);
    slots::enter_all(nb, vars, nodes, hashes, slots);
    answer_batch(nb, vars, hashes, slots, batch, answers);
    list_twins(nb, vars, hashes, slots, listing)
}

// Row 34 and the rows. Refused, all rows stay.
pub fn index_fill(
    m: &[u8],
    g: &[u8],
    slots: &mut [u16],
    batch: &[i16],
    answers: &mut [u16],
    listing: &mut [u16],
) -> Result<usize, Refusal>
    requires { Valid m.now g.now }
    ensures value { result ≡ answer_of (model_of m.now) (simulation_of (model_of m.now) g.now) (outcome (index_rows (model_of m.now) (simulation_of (model_of m.now) g.now) slots.old batch.now answers.old listing.old)) }
    ensures slots_after { slots.new ≡ slots_of (model_of m.now) (simulation_of (model_of m.now) g.now) (outcome (index_rows (model_of m.now) (simulation_of (model_of m.now) g.now) slots.old batch.now answers.old listing.old)) slots.old }
    ensures answers_after { answers.new ≡ answers_of (model_of m.now) (simulation_of (model_of m.now) g.now) (outcome (index_rows (model_of m.now) (simulation_of (model_of m.now) g.now) slots.old batch.now answers.old listing.old)) batch.now answers.old }
    ensures listing_after { listing.new ≡ listing_of (model_of m.now) (simulation_of (model_of m.now) g.now) (outcome (index_rows (model_of m.now) (simulation_of (model_of m.now) g.now) slots.old batch.now answers.old listing.old)) listing.old }
{
    rows_check(m, g, slots, batch, answers, listing)?;
    Ok(fill_rows(m, g, slots, batch, answers, listing))
}
