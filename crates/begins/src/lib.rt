// Document 02, 2.6: where each node's edges begin, while a graph is built. A row has it for each node, in bytes from the first
// edge on; a node that has no edges has it where they would begin.

#![tactic(auto)]

ghost use Rattle.std.specs.Prelude.{◌≡◌, ℕ, ◌+◌, ◌<◌, ◌≤◌, length, get_or};
ghost use Rattle.folder.specs.Fields.{field4_limit};
ghost use Rattle.folder.specs.Tab.{tab};
ghost use Rattle.building.specs.Counts.{begin_after};
ghost use Rattle.put.specs.Put.{Changed};

// Where the edges of node n begin.
pub fn begin_of(begins: &[u32], n: usize) -> usize
    requires { n < length begins.now }
    ensures { result ≡ get_or begins.now n 0 }
{
    begins[n] as usize
}

// All of them begin later by so many bytes.
fn move_later(begins: &mut [u32], bytes: usize)
    requires { (i : ℕ) → i < length begins.old → get_or begins.old i 0 + bytes < field4_limit }
    ensures { Changed 0 (length begins.old) (λ _ begin. begin + bytes) begins.old begins.new }
{
    for begin in begins.iter_mut() {
        *begin += bytes as u32;
    }
}

// Node n, one of `nodes`, is expanded: its edges have so many bytes, there are so many new nodes, and all edges end at `end`.
pub fn expand(begins: &mut [u32], n: usize, nodes: usize, births: usize, bytes: usize, end: usize)
    requires n_lt_nodes { (n < nodes) × (nodes + births ≤ length begins.old) × (end < field4_limit) }
    requires by_index { (i : ℕ) → n < i → i < nodes → get_or begins.old i 0 + bytes < field4_limit }
    ensures { begins.new ≡ tab (length begins.old) (begin_after n nodes births bytes end (λ i. get_or begins.old i 0)) }
{
    move_later(&mut begins[n + 1..nodes], bytes);
    begins[nodes..nodes + births].fill(end as u32);
}
