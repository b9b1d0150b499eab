// Evaluators of numbers and of truths: what an entry reads as in a label, and what it is in a state.

#![tactic(auto)]

ghost use Rattle.std.specs.Prelude.{◌≡◌, ◌≤◌, get_or, length, ok_or, pos};
ghost use Rattle.std.specs.Int.Signed.{mag};
ghost use Rattle.folder.specs.Fields.{field_limit};
ghost use Rattle.folder.specs.Contents.{count_of};
ghost use Rattle.folder.specs.Tab.{fill};
ghost use Rattle.whole.specs.Limits.{farthest};
ghost use Rattle.expressions.specs.Entries.{entries_of};
ghost use Rattle.expressions.specs.Levels.{number_at, truth_at};
ghost use Rattle.expressions.specs.Meaning.{truth_in};
ghost use Rattle.expressions.specs.Mentions.{missing, carry_n, carry_t, truth_reading};
ghost use Rattle.expressions.specs.Operations.{arith_z, relates};
ghost use Rattle.expressions.specs.Reading.{arith_n, choose_n, compare_n, not_t, and_t, or_t, join_t, look_in, reading, read_number, read_truth, is_true};
ghost use Rattle.expressions.specs.Right.{IsTruth};
ghost use Rattle.mentions.specs.Masked.{Masked};
ghost use Rattle.evaluate.specs.Bounded.{Small, Bounded};
ghost use Rattle.evaluate.specs.Formed.{Ready, Grounded};
ghost use Rattle.evaluate.specs.Settled.{as_number, flag_of, content_of, number_from, truth_from, entry_reading, flag_at, content_at, Settled};

use expressions::{
    ALL_TRACKED, Arith, DEEPEST, Join, NO_VARIABLE, NumberForm, Relation, TruthForm,
};

// The value of variable i; past the last, 0.
pub fn value_at(v: &[i64], i: usize) -> i64
    ensures { result ≡ get_or v.now i (pos 0) }
{
    folder::get_or(v, i, 0)
}

// What the label with the set t and the values v says of variable i.
pub fn look_in(t: usize, v: &[i64], i: usize) -> Option<i64>
    ensures { result ≡ look_in t v.now i }
{
    if expressions::has_bit(t, i) {
        Some(value_at(v, i))
    } else {
        None
    }
}

// Operations on numbers, where both are known.
pub fn arith_of(k: Arith, a: i64, b: i64) -> i64
    requires { (mag a ≤ farthest) × (mag b ≤ farthest) }
    ensures { result ≡ arith_z k a b }
{
    match k {
        Arith::Add => whole::add(a, b),
        Arith::Subtract => whole::sub(a, b),
        Arith::Multiply => whole::mul(a, b),
        Arith::Smaller => whole::min(a, b),
        Arith::Larger => whole::max(a, b),
    }
}

pub fn relate(k: Relation, a: i64, b: i64) -> bool
    ensures { result ≡ relates k a b }
{
    match k {
        Relation::Equal => whole::equal(a, b),
        Relation::Less => whole::less(a, b),
        Relation::AtMost => whole::at_most(a, b),
    }
}

// Operations on readings.
pub fn combine(k: Arith, a: Option<i64>, b: Option<i64>) -> Option<i64>
    requires { Small a × Small b }
    ensures { result ≡ arith_n k a b }
{
    Some(arith_of(k, a?, b?))
}

pub fn choose(t: Option<bool>, a: Option<i64>, b: Option<i64>) -> Option<i64>
    ensures { result ≡ choose_n t a b }
{
    let m = a?;
    let n = b?;
    Some(if t? { m } else { n })
}

pub fn compare(k: Relation, a: Option<i64>, b: Option<i64>) -> Option<bool>
    ensures { result ≡ compare_n k a b }
{
    Some(relate(k, a?, b?))
}

pub fn negate(a: Option<bool>) -> Option<bool>
    ensures { result ≡ not_t a }
{
    Some(!a?)
}

pub fn both(a: Option<bool>, b: Option<bool>) -> Option<bool>
    ensures { result ≡ and_t a b }
{
    match (a, b) {
        (Some(false), _) | (_, Some(false)) => Some(false),
        (Some(true), Some(true)) => Some(true),
        _ => None,
    }
}

pub fn either(a: Option<bool>, b: Option<bool>) -> Option<bool>
    ensures { result ≡ or_t a b }
{
    match (a, b) {
        (Some(true), _) | (_, Some(true)) => Some(true),
        (Some(false), Some(false)) => Some(false),
        _ => None,
    }
}

pub fn joined(k: Join, a: Option<bool>, b: Option<bool>) -> Option<bool>
    ensures { result ≡ join_t k a b }
{
    match k {
        Join::And => both(a, b),
        Join::Or => either(a, b),
    }
}

// A reading and, if it is unknown, the variable that entry e lacks of `vars` in the label with the set t: `masks` has what
// it mentions. Only then is that worked out.
fn carry<T: Copy>(r: Option<T>, vars: usize, masks: &[u16], t: usize, e: usize) -> Result<T, usize>
    ensures { result ≡ ok_or r (missing vars (get_or masks.now e 0) t) }
{
    r.ok_or_else(|| mentions::missing_of(vars, mentions::mask_at(masks, e), t))
}

// How entry e of the body x reads in the label with the set t and the values v, with `left` levels to go. The evaluators
// of numbers and of truths call each other; the levels left fall. What an unknown part lacks is not asked: the entry lacks
// the lowest variable that it mentions anywhere, also in a part that is known.
#[cycle(read_number_read_truth)]
pub fn read_number(
    x: &[u8],
    vars: usize,
    masks: &[u16],
    t: usize,
    v: &[i64],
    e: usize,
    left: usize,
) -> Result<i64, usize>
    requires bounded { Bounded (entries_of x.now) (look_in t v.now) }
    requires e_le_field_limit { e ≤ field_limit }
    ensures { result ≡ carry_n (missing vars (get_or masks.now e 0) t) (number_at (reading (look_in t v.now)) (entries_of x.now) left e) }
{
    if left == 0 {
        return carry(None, vars, masks, t, e);
    }
    let n = left - 1;
    let f = expressions::number_form(x, e);
    match f {
        NumberForm::Constant(z) => Ok(z),
        NumberForm::Variable(i) => carry(look_in(t, v, i), vars, masks, t, e),
        NumberForm::Binary(k, p, q) => {
            let a = read_number(x, vars, masks, t, v, p, n).ok();
            let b = read_number(x, vars, masks, t, v, q, n).ok();
            carry(combine(k, a, b), vars, masks, t, e)
        }
        NumberForm::If(c, p, q) => {
            let u = read_truth(x, vars, masks, t, v, c, n).ok();
            let a = read_number(x, vars, masks, t, v, p, n).ok();
            let b = read_number(x, vars, masks, t, v, q, n).ok();
            carry(choose(u, a, b), vars, masks, t, e)
        }
        NumberForm::NoNumber => carry(None, vars, masks, t, e),
    }
}

#[cycle(read_number_read_truth)]
pub fn read_truth(
    x: &[u8],
    vars: usize,
    masks: &[u16],
    t: usize,
    v: &[i64],
    e: usize,
    left: usize,
) -> Result<bool, usize>
    requires bounded { Bounded (entries_of x.now) (look_in t v.now) }
    requires e_le_field_limit { e ≤ field_limit }
    ensures { result ≡ carry_t (missing vars (get_or masks.now e 0) t) (truth_at (reading (look_in t v.now)) (entries_of x.now) left e) }
{
    if left == 0 {
        return carry(None, vars, masks, t, e);
    }
    let n = left - 1;
    let f = expressions::truth_form(x, e);
    match f {
        TruthForm::Compare(k, p, q) => {
            let a = read_number(x, vars, masks, t, v, p, n).ok();
            let b = read_number(x, vars, masks, t, v, q, n).ok();
            carry(compare(k, a, b), vars, masks, t, e)
        }
        TruthForm::Not(p) => {
            let a = read_truth(x, vars, masks, t, v, p, n).ok();
            carry(negate(a), vars, masks, t, e)
        }
        TruthForm::Joined(k, p, q) => {
            let a = read_truth(x, vars, masks, t, v, p, n).ok();
            let b = read_truth(x, vars, masks, t, v, q, n).ok();
            carry(joined(k, a, b), vars, masks, t, e)
        }
        TruthForm::Always => Ok(true),
        TruthForm::NoTruth => carry(None, vars, masks, t, e),
    }
}

// How entry e reads as a truth: no expression is deeper than `DEEPEST`, and an entry past the last mentions nothing.
pub fn truth_at(
    x: &[u8],
    vars: usize,
    masks: &[u16],
    t: usize,
    v: &[i64],
    e: usize,
) -> Result<bool, usize>
    requires ready { Ready (entries_of x.now) t v.now }
    requires masked { Masked (entries_of x.now) (count_of 8 x.now) masks.now }
    requires e_le_field_limit { e ≤ field_limit }
    ensures { result ≡ truth_reading (entries_of x.now) vars t v.now e }
{
    if e < folder::count_of(8, x) {
        read_truth(x, vars, masks, t, v, e, DEEPEST)
    } else {
        Err(NO_VARIABLE)
    }
}

// Whether a truth reads true: an unknown one does not.
fn is_true(t: Option<bool>) -> bool
    ensures { result ≡ is_true t }
{
    match t {
        Some(b) => b,
        None => false,
    }
}

// Whether entry e holds in the state s, which is the label that tracks every variable: none is missing, so that none is
// looked for.
pub fn truth_in(x: &[u8], s: &[i64], e: usize) -> bool
    requires grounded { Grounded (entries_of x.now) s.now }
    requires truth { IsTruth (entries_of x.now) e }
    requires e_le_field_limit { e ≤ field_limit }
    ensures { result ≡ truth_in (entries_of x.now) s.now e }
{
    is_true(read_truth(x, 0, &[], ALL_TRACKED, s, e, DEEPEST).ok())
}

// The readings of all entries in one label, as two rows: `known` has 1 for an entry that reads known, else 0, and `values`
// its number, or 1 for true, else 0. Each entry is read from its parts, which stand below it. Two rows, since one of
// Option<i64> would take 16 bytes for each entry where these take 9, and the stack that the C interface promises is short.

// A truth as a number.
pub fn as_number(a: Option<bool>) -> Option<i64>
    ensures { result ≡ as_number a }
{
    Some(i64::from(a?))
}

fn flag_of(a: Option<i64>) -> u8
    ensures { result ≡ flag_of a }
{
    u8::from(a.is_some())
}

fn content_of(a: Option<i64>) -> i64
    ensures { result ≡ content_of a }
{
    a.unwrap_or(0)
}

// The reading of entry e in the rows, as a number and as a truth.
pub fn settled_number(known: &[u8], values: &[i64], e: usize) -> Option<i64>
    ensures { result ≡ number_from (get_or known.now e 0) (get_or values.now e (pos 0)) }
{
    if folder::get_or(known, e, 0) == 1 {
        Some(folder::get_or(values, e, 0))
    } else {
        None
    }
}

pub fn settled_truth(known: &[u8], values: &[i64], e: usize) -> Option<bool>
    ensures { result ≡ truth_from (get_or known.now e 0) (get_or values.now e (pos 0)) }
{
    Some(whole::equal(settled_number(known, values, e)?, 1))
}

// How entry e reads, from the rows of the entries below it.
fn settle_number(
    x: &[u8],
    t: usize,
    v: &[i64],
    known: &[u8],
    values: &[i64],
    e: usize,
) -> Option<i64>
    requires ready { Ready (entries_of x.now) t v.now }
    requires settled { Settled (entries_of x.now) (look_in t v.now) e known.now values.now }
    requires e_le_field_limit { e ≤ field_limit }
    ensures { result ≡ read_number (entries_of x.now) (look_in t v.now) e }
{
    let f = expressions::number_form(x, e);
    match f {
        NumberForm::Constant(z) => Some(z),
        NumberForm::Variable(i) => look_in(t, v, i),
        NumberForm::Binary(k, p, q) => {
            combine(
                k,
                settled_number(known, values, p),
                settled_number(known, values, q),
            )
        }
        NumberForm::If(c, p, q) => {
            choose(
                settled_truth(known, values, c),
                settled_number(known, values, p),
                settled_number(known, values, q),
            )
        }
        NumberForm::NoNumber => None,
    }
}

fn settle_truth(
    x: &[u8],
    t: usize,
    v: &[i64],
    known: &[u8],
    values: &[i64],
    e: usize,
) -> Option<bool>
    requires ready { Ready (entries_of x.now) t v.now }
    requires settled { Settled (entries_of x.now) (look_in t v.now) e known.now values.now }
    requires e_le_field_limit { e ≤ field_limit }
    ensures { result ≡ read_truth (entries_of x.now) (look_in t v.now) e }
{
    let f = expressions::truth_form(x, e);
    match f {
        TruthForm::Compare(k, p, q) => {
            compare(
                k,
                settled_number(known, values, p),
                settled_number(known, values, q),
            )
        }
        TruthForm::Not(p) => negate(settled_truth(known, values, p)),
        TruthForm::Joined(k, p, q) => {
            joined(
                k,
                settled_truth(known, values, p),
                settled_truth(known, values, q),
            )
        }
        TruthForm::Always => Some(true),
        TruthForm::NoTruth => None,
    }
}

fn settle_entry(
    x: &[u8],
    t: usize,
    v: &[i64],
    known: &[u8],
    values: &[i64],
    e: usize,
) -> Option<i64>
    requires ready { Ready (entries_of x.now) t v.now }
    requires settled { Settled (entries_of x.now) (look_in t v.now) e known.now values.now }
    requires e_le_field_limit { e ≤ field_limit }
    ensures { result ≡ entry_reading (entries_of x.now) (look_in t v.now) e }
{
    if expressions::is_number(x, e) {
        settle_number(x, t, v, known, values, e)
    } else {
        as_number(settle_truth(x, t, v, known, values, e))
    }
}

// Fills the rows, upward.
pub fn settle(x: &[u8], t: usize, v: &[i64], known: &mut [u8], values: &mut [i64])
    requires ready { Ready (entries_of x.now) t v.now }
    requires x_bound { count_of 8 x.now ≤ field_limit }
    requires x_in_bounds { (count_of 8 x.now ≤ length known.old) × (count_of 8 x.now ≤ length values.old) }
    ensures known_after { known.new ≡ fill (count_of 8 x.now) (flag_at (entries_of x.now) (look_in t v.now)) known.old }
    ensures values_after { values.new ≡ fill (count_of 8 x.now) (content_at (entries_of x.now) (look_in t v.now)) values.old }
{
    for e in 0..folder::count_of(8, x) {
        let r = settle_entry(x, t, v, known, values, e);
        known[e] = flag_of(r);
        values[e] = content_of(r);
    }
}
