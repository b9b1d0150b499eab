// Row 5 of document 01's table: every entry keeps the rules of its operation, and none is too deep.

#![tactic(auto)]

ghost use Rattle.std.specs.Prelude.{◌≡◌, ◌<◌, ◌≤◌, get_or};
ghost use Rattle.folder.specs.Fields.{field_limit};
ghost use Rattle.folder.specs.Scan.{first_bad};
ghost use Rattle.folder.specs.Contents.{count_of};
ghost use Rattle.expressions.specs.Limits.{most_expressions};
ghost use Rattle.expressions.specs.Entries.{entries_of};
ghost use Rattle.expressions.specs.Levels.{number_step, truth_step};
ghost use Rattle.expressions.specs.Rules.{depth, second-unused, third-unused, number_part, truth_part, number_fits, truth_fits, entry_fits};
ghost use Rattle.expressions.specs.Small.{SmallN, SmallT};
ghost use Rattle.entries.specs.Depth.{form_fits, depth_by};

use expressions::{DEEPEST, MOST_EXPRESSIONS, NumberForm, TruthForm};

fn third_unused(x: &[u8], e: usize) -> bool
    requires { e ≤ field_limit }
    ensures { result ≡ third-unused (entries_of x.now) e }
{
    folder::field(8, x, e, 3) == 0
}

fn second_unused(x: &[u8], e: usize) -> bool
    requires { e ≤ field_limit }
    ensures { result ≡ second-unused (entries_of x.now) e }
{
    (folder::field(8, x, e, 2) == 0) & third_unused(x, e)
}

fn number_part(x: &[u8], e: usize, p: usize) -> bool
    requires { p < field_limit }
    ensures { result ≡ number_part (entries_of x.now) e p }
{
    (p < e) & expressions::is_number(x, p)
}

fn truth_part(x: &[u8], e: usize, p: usize) -> bool
    requires { p < field_limit }
    ensures { result ≡ truth_part (entries_of x.now) e p }
{
    (p < e) & expressions::is_truth(x, p)
}

fn number_fits(x: &[u8], variables: usize, e: usize, f: NumberForm) -> bool
    requires { (e ≤ field_limit) × SmallN f }
    ensures { result ≡ number_fits (entries_of x.now) variables e f }
{
    match f {
        NumberForm::Constant(_) => second_unused(x, e),
        NumberForm::Variable(i) => (i < variables) & second_unused(x, e),
        NumberForm::Binary(_, p, q) => {
            (number_part(x, e, p) & number_part(x, e, q)) & third_unused(x, e)
        }
        NumberForm::If(c, p, q) => {
            truth_part(x, e, c) & (number_part(x, e, p) & number_part(x, e, q))
        }
        NumberForm::NoNumber => false,
    }
}

fn truth_fits(x: &[u8], variables: usize, e: usize, f: TruthForm) -> bool
    requires { (e ≤ field_limit) × SmallT f }
    ensures { result ≡ truth_fits (entries_of x.now) variables e f }
{
    match f {
        TruthForm::Compare(_, p, q) => {
            (number_part(x, e, p) & number_part(x, e, q)) & third_unused(x, e)
        }
        TruthForm::Not(p) => truth_part(x, e, p) & second_unused(x, e),
        TruthForm::Joined(_, p, q) => {
            (truth_part(x, e, p) & truth_part(x, e, q)) & third_unused(x, e)
        }
        TruthForm::Always => (folder::field(8, x, e, 1) == 0) & second_unused(x, e),
        TruthForm::NoTruth => false,
    }
}

// Entry e has one of the two forms, and its fields are right.
fn form_fits(x: &[u8], variables: usize, e: usize) -> bool
    requires { e ≤ field_limit }
    ensures { result ≡ form_fits (entries_of x.now) variables e }
{
    let f = expressions::number_form(x, e);
    let t = expressions::truth_form(x, e);
    number_fits(x, variables, e, f) | truth_fits(x, variables, e, t)
}

// The depth of an entry, `depths` being those of its parts.
fn number_depth(depths: &[u8], f: NumberForm) -> usize
    ensures { (result ≡ number_step depth (λ p. get_or depths.now p 0) (λ p. get_or depths.now p 0) f) × (result ≤ 256) }
{
    match f {
        NumberForm::Constant(_) => 1,
        NumberForm::Variable(_) => 1,
        NumberForm::Binary(_, p, q) => {
            folder::byte_at(depths, p).max(folder::byte_at(depths, q)) + 1
        }
        NumberForm::If(c, p, q) => {
            let arms = folder::byte_at(depths, p).max(folder::byte_at(depths, q));
            folder::byte_at(depths, c).max(arms) + 1
        }
        NumberForm::NoNumber => 0,
    }
}

fn truth_depth(depths: &[u8], f: TruthForm) -> usize
    ensures { (result ≡ truth_step depth (λ p. get_or depths.now p 0) (λ p. get_or depths.now p 0) f) × (result ≤ 256) }
{
    match f {
        TruthForm::Compare(_, p, q) => {
            folder::byte_at(depths, p).max(folder::byte_at(depths, q)) + 1
        }
        TruthForm::Not(p) => folder::byte_at(depths, p) + 1,
        TruthForm::Joined(_, p, q) => {
            folder::byte_at(depths, p).max(folder::byte_at(depths, q)) + 1
        }
        TruthForm::Always => 1,
        TruthForm::NoTruth => 0,
    }
}

fn depth_by(x: &[u8], depths: &[u8], e: usize) -> usize
    requires { e ≤ field_limit }
    ensures { result ≡ depth_by (entries_of x.now) (λ p. get_or depths.now p 0) e }
{
    let f = expressions::number_form(x, e);
    let t = expressions::truth_form(x, e);
    number_depth(depths, f).max(truth_depth(depths, t))
}

// The lowest entry that breaks row 5, or how many there are. Depths are filled upward, each from its parts' depths: a
// recursion over the parts would take twice as long for each entry that names the one below it twice.
pub fn first_bad_entry(x: &[u8], variables: usize) -> usize
    requires { count_of 8 x.now ≤ most_expressions }
    ensures { result ≡ first_bad (entry_fits (entries_of x.now) variables) (count_of 8 x.now) }
{
    let n = folder::count_of(8, x);
    let mut depths = [0u8; MOST_EXPRESSIONS];
    for i in 0..n {
        let d = depth_by(x, &depths, i);
        if !(form_fits(x, variables, i) & (d <= DEEPEST)) {
            return i;
        }
        depths[i] = d as u8;
    }
    n
}
