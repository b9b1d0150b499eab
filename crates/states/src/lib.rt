// Readings by all states (document 02, 2.4): what reads unknown three ways is looked at in each combination of the values of
// the untracked variables that it mentions, together with all that have the same ones.

#![tactic(auto)]

ghost use Rattle.std.specs.Prelude.{◌≡◌, true, false, ◌++◌, ℕ, ◌+◌, ◌<◌, ◌≤◌, length, get_or, set, drop, pos};
ghost use Rattle.folder.specs.Pick.{pick};
ghost use Rattle.folder.specs.Fields.{field_limit};
ghost use Rattle.folder.specs.Contents.{count_of};
ghost use Rattle.folder.specs.Tab.{fill, passing};
ghost use Rattle.whole.specs.Order.{eq_z};
ghost use Rattle.expressions.specs.Limits.{most_expressions, most_combinations};
ghost use Rattle.expressions.specs.Entries.{entries_of, number_form, truth_form};
ghost use Rattle.expressions.specs.Parts.{EachN, EachT, Lower};
ghost use Rattle.expressions.specs.Meaning.{joins, number_in, truth_in};
ghost use Rattle.expressions.specs.Mentions.{mentions};
ghost use Rattle.expressions.specs.Ranges.{bound_in};
ghost use Rattle.expressions.specs.Combinations.{combinations};
ghost use Rattle.evaluate.specs.Formed.{Grounded};
ghost use Rattle.states.specs.Stated.{entry_in, Parted, HasFlagged, HasAll, StateRow};
ghost use Rattle.choices.specs.Ranged.{label_in};
ghost use Rattle.states.specs.Read.{Readable, AllAgree, OneDiffers, Asked, Widened};
ghost use Rattle.states.specs.Needed.{is_up, Up, flag_if, in_group, PartsUp, ClosedFrom, Before, Ordered, Chosen, Raised, kept_if, Compared, either_up};

use expressions::{
    Join, MOST_COMBINATIONS, MOST_EXPRESSIONS, MOST_VARIABLES, NumberForm, TruthForm,
};

// ---- what an entry is in a state, from a row that has what its parts are

// Whether entry e holds, by the row.
fn holds_at(row: &[i64], e: usize) -> bool
    ensures { result ≡ eq_z (get_or row.now e (pos 0)) (pos 1) }
{
    whole::equal(evaluate::value_at(row, e), 1)
}

fn join_of(k: Join, a: bool, b: bool) -> bool
    ensures { result ≡ joins k a b }
{
    match k {
        Join::And => a & b,
        Join::Or => a | b,
    }
}

fn number_of(x: &[u8], s: &[i64], row: &[i64], e: usize) -> i64
    requires grounded { Grounded (entries_of x.now) s.now }
    requires parted { Parted (entries_of x.now) s.now row.now e }
    requires e_le_field_limit { e ≤ field_limit }
    ensures { result ≡ number_in (entries_of x.now) s.now e }
{
    match expressions::number_form(x, e) {
        NumberForm::Constant(z) => z,
        NumberForm::Variable(i) => evaluate::value_at(s, i),
        NumberForm::Binary(k, p, q) => {
            evaluate::arith_of(k, evaluate::value_at(row, p), evaluate::value_at(row, q))
        }
        NumberForm::If(c, p, q) => {
            if holds_at(row, c) {
                evaluate::value_at(row, p)
            } else {
                evaluate::value_at(row, q)
            }
        }
        NumberForm::NoNumber => 0,
    }
}

fn truth_of(x: &[u8], s: &[i64], row: &[i64], e: usize) -> bool
    requires grounded { Grounded (entries_of x.now) s.now }
    requires parted { Parted (entries_of x.now) s.now row.now e }
    requires e_le_field_limit { e ≤ field_limit }
    ensures { result ≡ truth_in (entries_of x.now) s.now e }
{
    match expressions::truth_form(x, e) {
        TruthForm::Compare(k, p, q) => {
            evaluate::relate(k, evaluate::value_at(row, p), evaluate::value_at(row, q))
        }
        TruthForm::Not(p) => !holds_at(row, p),
        TruthForm::Joined(k, p, q) => join_of(k, holds_at(row, p), holds_at(row, q)),
        TruthForm::Always => true,
        TruthForm::NoTruth => false,
    }
}

#[tactic(auto, unfolding(crate::specs::Stated::entry_in))]
fn entry_of(x: &[u8], s: &[i64], row: &[i64], e: usize) -> i64
    requires grounded { Grounded (entries_of x.now) s.now }
    requires parted { Parted (entries_of x.now) s.now row.now e }
    requires e_le_field_limit { e ≤ field_limit }
    ensures { result ≡ entry_in (entries_of x.now) s.now e }
{
    if expressions::is_number(x, e) {
        return number_of(x, s, row, e);
    }
    i64::from(truth_of(x, s, row, e))
}

// What entry e is: where it is flagged it stands in the row, else it is worked out.
fn entry_kept(x: &[u8], s: &[i64], known: &[u8], row: &[i64], e: usize) -> i64
    requires grounded { Grounded (entries_of x.now) s.now }
    requires has_flagged { HasFlagged (entries_of x.now) s.now row.now known.now }
    requires parted { Parted (entries_of x.now) s.now row.now e }
    requires e_bound { (e < count_of 8 x.now) × (count_of 8 x.now ≤ field_limit) }
    ensures { result ≡ entry_in (entries_of x.now) s.now e }
{
    if folder::byte_at(known, e) == 1 {
        return evaluate::value_at(row, e);
    }
    entry_of(x, s, row, e)
}

// Fills a row with what all entries are, upward. What flagged ones are stands there already.
pub fn fill_state(x: &[u8], s: &[i64], known: &[u8], row: &mut [i64])
    requires grounded { Grounded (entries_of x.now) s.now }
    requires has_flagged { HasFlagged (entries_of x.now) s.now row.old known.now }
    requires x_bound { (count_of 8 x.now ≤ field_limit) × (count_of 8 x.now ≤ length row.old) }
    ensures { StateRow (entries_of x.now) s.now row.new }
{
    let n = folder::count_of(8, x);
    for e in 0..n {
        row[e] = entry_kept(x, s, known, row, e);
    }
}

// Those of the list alone.
fn refresh(x: &[u8], s: &[i64], list: &[u16], row: &mut [i64])
    requires grounded { Grounded (entries_of x.now) s.now }
    requires x_bound { count_of 8 x.now ≤ field_limit }
    requires ordered { Ordered (entries_of x.now) list.now }
    requires x_in_bounds { count_of 8 x.now ≤ length row.old }
    ensures { HasAll (entries_of x.now) s.now row.new list.now }
{
    for e in list {
        let e = usize::from(*e);
        row[e] = entry_of(x, s, row, e);
    }
}

// ---- the entries to look at

#[tactic(auto, unfolding(crate::specs::Needed::in_group, expressions::specs::Mentions::union))]
fn in_group(masks: &[u16], known: &[u8], m: usize, t: usize, k: usize) -> bool
    ensures { result ≡ in_group masks.now known.now m t k }
{
    let same = mentions::mask_at(masks, k) | t == m | t;
    (folder::byte_at(known, k) != 1) & same
}

// Flags the first n entries that are in the group.
fn mark_group(n: usize, masks: &[u16], known: &[u8], m: usize, t: usize, flags: &mut [u8])
    requires { n ≤ length flags.old }
    ensures { flags.new ≡ fill n (λ k. flag_if (in_group masks.now known.now m t k)) flags.old }
{
    folder::fill(flags, n, |k| u8::from(in_group(masks, known, m, t, k)));
}

// Raises the flag of entry e, if it has one.
fn raise(flags: &mut [u8], e: usize)
    ensures { flags.new ≡ set flags.old e 1 }
{
    if e < flags.len() {
        flags[e] = 1;
    }
}

// Raises the flags of the parts of entry e, as a number and as a truth.
fn mark_number(x: &[u8], flags: &mut [u8], e: usize)
    requires lower { Lower (entries_of x.now) }
    requires e_in_bounds { (e < length flags.old) × (e ≤ field_limit) }
    ensures raised { Raised e flags.old flags.new }
    ensures each_n { EachN (Up flags.new) (Up flags.new) (number_form (entries_of x.now) e) }
{
    match expressions::number_form(x, e) {
        NumberForm::Constant(_) | NumberForm::Variable(_) | NumberForm::NoNumber => {}
        NumberForm::Binary(_, p, q) => {
            raise(flags, p);
            raise(flags, q);
        }
        NumberForm::If(c, p, q) => {
            raise(flags, c);
            raise(flags, p);
            raise(flags, q);
        }
    }
}

fn mark_truth(x: &[u8], flags: &mut [u8], e: usize)
    requires lower { Lower (entries_of x.now) }
    requires e_in_bounds { (e < length flags.old) × (e ≤ field_limit) }
    ensures raised { Raised e flags.old flags.new }
    ensures each_t { EachT (Up flags.new) (Up flags.new) (truth_form (entries_of x.now) e) }
{
    match expressions::truth_form(x, e) {
        TruthForm::Compare(_, p, q) | TruthForm::Joined(_, p, q) => {
            raise(flags, p);
            raise(flags, q);
        }
        TruthForm::Not(p) => raise(flags, p),
        TruthForm::Always | TruthForm::NoTruth => {}
    }
}

// Where entry e is flagged, its parts are too.
fn mark_parts(x: &[u8], flags: &mut [u8], e: usize)
    requires lower { Lower (entries_of x.now) }
    requires e_in_bounds { (e < length flags.old) × (e ≤ field_limit) }
    ensures raised { Raised e flags.old flags.new }
    ensures parts_up { Up flags.old e → PartsUp (entries_of x.now) flags.new e }
{
    if flags[e] == 1 {
        mark_number(x, flags, e);
        mark_truth(x, flags, e);
    }
}

// Flags all that the flagged ones use, downward.
fn close(x: &[u8], flags: &mut [u8])
    requires lower { Lower (entries_of x.now) }
    requires x_bound { count_of 8 x.now ≤ field_limit }
    requires x_in_bounds { count_of 8 x.now ≤ length flags.old }
    ensures by_index { (k : ℕ) → Up flags.old k → Up flags.new k }
    ensures closed_from { ClosedFrom (entries_of x.now) flags.new 0 }
{
    for e in (0..folder::count_of(8, x)).rev() {
        mark_parts(x, flags, e);
    }
}

// Entry e is listed after `count` others, if it is flagged.
fn list_one(flags: &[u8], list: &mut [u16], count: usize, e: usize) -> usize
    requires { (count < length list.old) × (e < field_limit) }
    ensures value { result ≡ pick (is_up flags.now e) (count + 1) count }
    ensures list_after { list.new ≡ pick (is_up flags.now e) (set list.old count e) list.old }
{
    if folder::byte_at(flags, e) == 1 {
        list[count] = e as u16;
        return count + 1;
    }
    count
}

// Lists the flagged entries of the first n, upward; how many they are.
fn list_flagged(n: usize, flags: &[u8], list: &mut [u16]) -> usize
    requires { (n ≤ length list.old) × (n ≤ field_limit) }
    ensures value { result ≡ length (passing n (is_up flags.now)) }
    ensures list_after { list.new ≡ passing n (is_up flags.now) ++ drop (length (passing n (is_up flags.now))) list.old }
{
    let mut count = 0;
    for e in 0..n {
        count = list_one(flags, list, count, e);
    }
    count
}

// ---- what all combinations agree on

// A function, and so `either_up`: an `if` in a loop that writes a row leaves a joined state.
fn kept_if(same: bool, flag: u8) -> u8
    ensures { result ≡ kept_if same flag }
{
    if same { flag } else { 0 }
}

// Along the list, lowers the flags of entries that the two rows have different numbers for.
fn compare(list: &[u16], values: &[i64], state: &[i64], flags: &mut [u8])
    requires { (i : ℕ) → i < length list.now → get_or list.now i 0 < length flags.old }
    ensures { Compared list.now values.now state.now flags.old flags.new }
{
    for e in list {
        let e = usize::from(*e);
        let same = whole::equal(evaluate::value_at(values, e), evaluate::value_at(state, e));
        flags[e] = kept_if(same, flags[e]);
    }
}

fn either_up(a: u8, b: u8) -> u8
    ensures { result ≡ either_up a b }
{
    if a == 1 { 1 } else { b }
}

// Raises the flags of the first n entries that are up in the other row.
fn raise_all(n: usize, other: &[u8], flags: &mut [u8])
    requires { (n ≤ length other.now) × (n ≤ length flags.old) }
    ensures { flags.new ≡ fill n (λ k. either_up (get_or other.now k 0) (get_or flags.old k 0)) flags.old }
{
    for k in 0..n {
        flags[k] = either_up(other[k], flags[k]);
    }
}

// What is asked: the entry, what varies in it, what the label tracks, and how many combinations there are.
#[derive(Clone, Copy)]
struct Question {
    entry: usize,
    mask: usize,
    tracked: usize,
    ways: usize,
}

// Whether the entry is the same in all combinations as the state's row has it; the first in which it is not ends it. The
// flags of the others that differ in one are lowered on the way. `row` has room for a combination.
fn enumerate(
    x: &[u8],
    y: &[u8],
    vals: &[i64],
    list: &[u16],
    state: &[i64],
    q: Question,
    row: &mut [i64],
    flags: &mut [u8],
) -> bool
    requires readable { Readable (entries_of x.now) y.now q.tracked vals.now }
    requires ordered { Ordered (entries_of x.now) list.now }
    requires x_bound { (count_of 8 x.now ≤ most_expressions) × (count_of 8 x.now ≤ length flags.old) × (q.ways ≤ most_combinations) }
    requires row_len { length row.old ≡ count_of 6 y.now }
    requires up { Up flags.old q.entry }
    requires before { Before (entries_of x.now) list.now (length list.now) q.entry }
    ensures all_agree { result ≡ true → AllAgree (entries_of x.now) (label_in y.now q.tracked vals.now) q.mask q.ways q.entry list.now state.now flags.old flags.new }
    ensures one_differs { result ≡ false → OneDiffers (entries_of x.now) (label_in y.now q.tracked vals.now) q.mask q.ways q.entry list.now state.now }
{
    let mut values = [0i64; MOST_EXPRESSIONS];
    choices::load_first(y, q.tracked, vals, row);
    for _ in 0..q.ways {
        refresh(x, row, list, &mut values);
        compare(list, &values, state, flags);
        if folder::byte_at(flags, q.entry) != 1 {
            return false;
        }
        choices::advance(y, q.mask, q.tracked, row);
    }
    true
}

// Lists the group and all that it uses, each after its parts; how many they are.
fn choose(x: &[u8], masks: &[u16], known: &[u8], m: usize, t: usize, list: &mut [u16]) -> usize
    requires lower { Lower (entries_of x.now) }
    requires x_bound { (count_of 8 x.now ≤ most_expressions) × (count_of 8 x.now ≤ length list.old) }
    ensures { Chosen (entries_of x.now) (in_group masks.now known.now m t) result list.new }
{
    let n = folder::count_of(8, x);
    let mut needed = [0u8; MOST_EXPRESSIONS];
    mark_group(n, masks, known, m, t, &mut needed);
    close(x, &mut needed);
    list_flagged(n, &needed, list)
}

// Looks at the group of an entry that is not known: where it is the same in all combinations, so that it reads known, it is
// flagged, with all of its group that are.
fn widen_group(
    x: &[u8],
    y: &[u8],
    vals: &[i64],
    masks: &[u16],
    state: &[i64],
    q: Question,
    known: &mut [u8],
)
    requires asked { Asked (entries_of x.now) y.now vals.now masks.now state.now known.old q.entry q.tracked }
    requires mask_value { q.mask ≡ mentions (entries_of x.now) q.entry }
    requires ways_value { (q.ways ≡ combinations (count_of 6 y.now) (bound_in y.now) q.tracked q.mask) × (q.ways ≤ most_combinations) }
    ensures { Widened (entries_of x.now) (label_in y.now q.tracked vals.now) q.entry known.old known.new }
{
    let n = folder::count_of(8, x);
    let vars = folder::count_of(6, y);
    let mut list = [0u16; MOST_EXPRESSIONS];
    let count = choose(x, masks, known, q.mask, q.tracked, &mut list);
    let mut group = [0u8; MOST_EXPRESSIONS];
    mark_group(n, masks, known, q.mask, q.tracked, &mut group);
    let mut row = [0i64; MOST_VARIABLES];
    if enumerate(
        x,
        y,
        vals,
        &list[..count],
        state,
        q,
        &mut row[..vars],
        &mut group,
    ) {
        raise_all(n, &group, known);
    }
}

// Reads entry e, which is not flagged, by all states of the label with the set t and the values `vals` over the variable
// body y; `masks` has what each entry mentions, and `state` what it is in one of the states.
pub fn widen(
    x: &[u8],
    y: &[u8],
    t: usize,
    vals: &[i64],
    masks: &[u16],
    state: &[i64],
    e: usize,
    known: &mut [u8],
)
    requires { Asked (entries_of x.now) y.now vals.now masks.now state.now known.old e t }
    ensures { Widened (entries_of x.now) (label_in y.now t vals.now) e known.old known.new }
{
    let mask = mentions::mask_at(masks, e);
    let ways = choices::ways(y, mask, t);
    if ways <= MOST_COMBINATIONS {
        let q = Question {
            entry: e,
            mask,
            tracked: t,
            ways,
        };
        widen_group(x, y, vals, masks, state, q, known);
    }
}
