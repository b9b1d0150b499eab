// The variables that each entry of an expression body mentions, worked out once, and the lowest of such a set that a label
// does not track (document 02, 2.2).

#![tactic(auto)]

ghost use Rattle.std.specs.Prelude.{◌≡◌, ◌≤◌, length, get_or};
ghost use Rattle.folder.specs.Fields.{field_limit};
ghost use Rattle.folder.specs.Contents.{count_of};
ghost use Rattle.folder.specs.Tab.{fill};
ghost use Rattle.expressions.specs.Entries.{entries_of};
ghost use Rattle.expressions.specs.Levels.{number, truth};
ghost use Rattle.expressions.specs.Mentions.{mentioning, mentions, is_free, missing};
ghost use Rattle.mentions.specs.Masked.{Written, Masked};

use expressions::{NO_VARIABLE, NumberForm, TruthForm};

// The set at place e of a row; past its end, none.
pub fn mask_at(masks: &[u16], e: usize) -> usize
    ensures { result ≡ get_or masks.now e 0 }
{
    usize::from(folder::get_or(masks, e, 0))
}

// What entry e mentions, as a number and as a truth, from the row of the entries below it.
fn mention_number(x: &[u8], masks: &[u16], e: usize) -> u16
    requires written { Written (entries_of x.now) }
    requires masked { Masked (entries_of x.now) e masks.now }
    requires e_le_field_limit { e ≤ field_limit }
    ensures { result ≡ number mentioning (entries_of x.now) e }
{
    let f = expressions::number_form(x, e);
    match f {
        NumberForm::Constant(_) => 0,
        NumberForm::Variable(i) => 1 << i,
        NumberForm::Binary(_, p, q) => folder::get_or(masks, p, 0) | folder::get_or(masks, q, 0),
        NumberForm::If(c, p, q) => {
            folder::get_or(masks, c, 0)
                | (folder::get_or(masks, p, 0) | folder::get_or(masks, q, 0))
        }
        NumberForm::NoNumber => 0,
    }
}

fn mention_truth(x: &[u8], masks: &[u16], e: usize) -> u16
    requires written { Written (entries_of x.now) }
    requires masked { Masked (entries_of x.now) e masks.now }
    requires e_le_field_limit { e ≤ field_limit }
    ensures { result ≡ truth mentioning (entries_of x.now) e }
{
    let f = expressions::truth_form(x, e);
    match f {
        TruthForm::Compare(_, p, q) => folder::get_or(masks, p, 0) | folder::get_or(masks, q, 0),
        TruthForm::Not(p) => folder::get_or(masks, p, 0),
        TruthForm::Joined(_, p, q) => folder::get_or(masks, p, 0) | folder::get_or(masks, q, 0),
        TruthForm::Always => 0,
        TruthForm::NoTruth => 0,
    }
}

// Fills the row, upward.
pub fn fill_mentions(x: &[u8], masks: &mut [u16])
    requires written { Written (entries_of x.now) }
    requires x_bound { count_of 8 x.now ≤ field_limit }
    requires x_in_bounds { count_of 8 x.now ≤ length masks.old }
    ensures { masks.new ≡ fill (count_of 8 x.now) (mentions (entries_of x.now)) masks.old }
{
    for e in 0..folder::count_of(8, x) {
        masks[e] = mention_number(x, masks, e) | mention_truth(x, masks, e);
    }
}

// Variable v is in the set m of those mentioned, and not in the set t of those tracked.
pub fn is_free(m: usize, t: usize, v: usize) -> bool
    ensures { result ≡ is_free m t v }
{
    expressions::has_bit(m, v) & !expressions::has_bit(t, v)
}

// The lowest such variable of n; where there is none, the number that the table of refusals returns then.
pub fn missing_of(n: usize, m: usize, t: usize) -> usize
    ensures { result ≡ missing n m t }
{
    let v = folder::first_bad(n, |v| !is_free(m, t, v));
    if v < n { v } else { NO_VARIABLE }
}
