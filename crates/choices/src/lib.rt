// The combinations of the values that untracked variables can take (document 02, 2.4): how many there are, and one after
// the other, in a row with a value for each variable.

#![tactic(auto)]

ghost use Rattle.std.specs.Prelude.{◌≡◌, List, ℕ, suc, ◌<◌, ◌≤◌, length, ℤ, ◌≤ℤ◌};
ghost use Rattle.std.specs.Int.Signed.{mag};
ghost use Rattle.folder.specs.Fields.{field_limit};
ghost use Rattle.folder.specs.Contents.{count_of};
ghost use Rattle.expressions.specs.Limits.{farthest_bound};
ghost use Rattle.expressions.specs.Ranges.{bound_in};
ghost use Rattle.expressions.specs.Combinations.{width_of, choices, combinations, value_in, combination};
ghost use Rattle.choices.specs.Ranged.{Ranged, label_in, capped};
ghost use Rattle.choices.specs.Next.{stops_at, next_value};

use expressions::{MOST_COMBINATIONS, Range};

// The range of variable v.
fn range_at(y: &[u8], v: usize) -> Range
    requires ranged { Ranged y.now }
    requires v_bound { v < count_of 6 y.now }
    ensures { result ≡ bound_in y.now v }
{
    Range {
        low: folder::signed_field(6, y, v, 0),
        high: folder::signed_field(6, y, v, 1),
    }
}

// How many values a range has.
fn width(r: Range) -> usize
    requires ordered { r.low ≤ℤ r.high }
    requires small { (mag r.low ≤ farthest_bound) × (mag r.high ≤ farthest_bound) }
    ensures { (result ≡ width_of r) × (result ≤ field_limit) }
{
    (r.high - r.low) as usize + 1
}

// How many values variable v takes, where m is the set of the mentioned variables and t that of the tracked ones.
fn choices_of(y: &[u8], m: usize, t: usize, v: usize) -> usize
    requires ranged { Ranged y.now }
    requires v_bound { v < count_of 6 y.now }
    ensures { (result ≡ choices (bound_in y.now) t m v) × (result ≤ field_limit) }
{
    if mentions::is_free(m, t, v) {
        width(range_at(y, v))
    } else {
        1
    }
}

// How many combinations there are; one more than the limit stands for all above it, so that no product wraps.
pub fn ways(y: &[u8], m: usize, t: usize) -> usize
    requires { Ranged y.now }
    ensures { result ≡ capped (combinations (count_of 6 y.now) (bound_in y.now) t m) }
{
    let n = folder::count_of(6, y);
    let mut p = 1;
    for v in 0..n {
        p *= choices_of(y, m, t, v);
        if p > MOST_COMBINATIONS {
            return MOST_COMBINATIONS + 1;
        }
    }
    p
}

// What variable v has in the first combination.
fn first_value(y: &[u8], t: usize, vals: &[i64], v: usize) -> i64
    requires ranged { Ranged y.now }
    requires v_bound { v < count_of 6 y.now }
    ensures { (m : ℕ) → result ≡ value_in (label_in y.now t vals.now) m 0 v }
{
    if expressions::has_bit(t, v) {
        folder::get_or(vals, v, 0)
    } else {
        range_at(y, v).low
    }
}

// The first combination of every set of mentioned variables, in a row of one value for each variable.
pub fn load_first(y: &[u8], t: usize, vals: &[i64], row: &mut [i64])
    requires ranged { Ranged y.now }
    requires row_len { length row.old ≡ count_of 6 y.now }
    ensures { (m : ℕ) → row.new ≡ combination (label_in y.now t vals.now) m 0 }
{
    folder::fill(row, folder::count_of(6, y), |v| first_value(y, t, vals, v));
}

// Variable v, whose value is z, goes up by one: it is free and not at its high.
fn stops_at(y: &[u8], m: usize, t: usize, v: usize, z: i64) -> bool
    requires ranged { Ranged y.now }
    requires v_bound { v < count_of 6 y.now }
    ensures { result ≡ stops_at (bound_in y.now) m t v z }
{
    mentions::is_free(m, t, v) & (z < range_at(y, v).high)
}

// Its value in the next combination, where all free variables below it go back to their lows.
fn next_value(y: &[u8], m: usize, t: usize, v: usize, z: i64) -> i64
    requires ranged { Ranged y.now }
    requires v_bound { v < count_of 6 y.now }
    ensures { result ≡ next_value (bound_in y.now) m t v z }
{
    if stops_at(y, m, t, v, z) {
        z + 1
    } else if mentions::is_free(m, t, v) {
        range_at(y, v).low
    } else {
        z
    }
}

// The next combination, in the row of the one before: the lowest free variable that is not at its high goes up by one, and
// those below it go back to their lows.
pub fn advance(y: &[u8], m: usize, t: usize, row: &mut [i64])
    requires ranged { Ranged y.now }
    requires row_len { length row.old ≡ count_of 6 y.now }
    ensures { (vals : List ℤ) (j : ℕ) → row.old ≡ combination (label_in y.now t vals) m j → row.new ≡ combination (label_in y.now t vals) m (suc j) }
{
    for v in 0..row.len() {
        let z = row[v];
        row[v] = next_value(y, m, t, v, z);
        if stops_at(y, m, t, v, z) {
            return;
        }
    }
}
