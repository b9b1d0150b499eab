// What a model folder's records say: rows 4 to 11, and with rows 1 to 3 the model check.

#![tactic(auto)]

ghost use Rattle.std.specs.Prelude.{◌≡◌, ◌+◌, ◌≤◌, drop};
ghost use Rattle.mdp.specs.Sums.{sum};
ghost use Rattle.folder.specs.Fields.{field_limit};
ghost use Rattle.folder.specs.Scan.{first_bad};
ghost use Rattle.folder.specs.Contents.{count_of, field};
ghost use Rattle.folder.specs.Table.{outcome};
ghost use Rattle.expressions.specs.Entries.{entries_of};
ghost use Rattle.expressions.specs.Ranges.{bound_in};
ghost use Rattle.model.specs.Limits.{most_variables};
ghost use Rattle.model.specs.Layout.{branch_size};
ghost use Rattle.model.specs.Model.{model_of, first_record};
ghost use Rattle.model.specs.Rules.{variable_fits, terms_fit, command_fits, records_add_up, stays_in, assigned_fits, branch_fits, weights_total};
ghost use Rattle.model.specs.Table.{content_rows, model_outcome};
ghost use Rattle.model.specs.Valid.{FolderRight};
ghost use Rattle.model_rules.specs.Bodies.{Held, model_held};

mod parts;

use expressions::{MOST_EXPRESSIONS, Range};
use folder::Refusal;
use model::{LEAST_BOUND, MOST_BOUND, MOST_BRANCHES};
use parts::Bodies;

fn bodies_of(m: &[u8]) -> Bodies<'_>
    requires { FolderRight m.now }
    ensures { model_held result ≡ model_of m.now }
{
    Bodies {
        terms: folder::body(m, 0),
        variables: folder::body(m, 1),
        expressions: folder::body(m, 2),
        commands: folder::body(m, 3),
        branches: folder::body(m, 4),
    }
}

// Row 4, variable v.
#[tactic(auto, unfolding(model::specs::Rules::variable_fits))]
fn variable_fits(b: &Bodies<'_>, v: usize) -> bool
    requires { v ≤ field_limit }
    ensures { result ≡ variable_fits (model_held b.now) v }
{
    let low = folder::signed_field(6, b.variables, v, 0);
    let high = folder::signed_field(6, b.variables, v, 1);
    let initial = folder::signed_field(6, b.variables, v, 2);
    (low <= high)
        & (((LEAST_BOUND <= low) & (high <= MOST_BOUND)) & ((low <= initial) & (initial <= high)))
}

// Row 7, place p.
#[tactic(auto, unfolding(model::specs::Rules::terms_fit))]
fn terms_fit(b: &Bodies<'_>, p: usize) -> bool
    ensures { result ≡ terms_fit (model_held b.now) p }
{
    let total = folder::field(4, b.terms, 0, 0);
    let target = folder::field(4, b.terms, 0, 1);
    ((p != 0) | (total != 0)) & ((p != 1) | expressions::is_truth(b.expressions, target))
}

// Row 8, command c.
#[tactic(auto, unfolding(model::specs::Rules::command_fits))]
fn command_fits(b: &Bodies<'_>, c: usize) -> bool
    requires { c ≤ field_limit }
    ensures { result ≡ command_fits (model_held b.now) c }
{
    let guard = folder::field(4, b.commands, c, 0);
    let branches = folder::field(4, b.commands, c, 1);
    expressions::is_truth(b.expressions, guard) & ((1 <= branches) & (branches <= MOST_BRANCHES))
}

// Row 9.
fn records_add_up(b: &Bodies<'_>, records: usize) -> bool
    requires { records ≡ (model_held b.now).records }
    ensures { result ≡ records_add_up (model_held b.now) }
{
    records == model::first_record(b.commands, folder::count_of(4, b.commands))
}

// Entry e is a number, and its range, which the row holds, stays in that of variable v.
fn stays_in(b: &Bodies<'_>, row: &[Range], e: usize, v: usize) -> bool
    requires held { Held b.now.expressions.now b.now.variables.now row.now }
    requires e_le_field_limit { (e ≤ field_limit) × (v ≤ field_limit) }
    ensures { result ≡ stays_in (entries_of b.now.expressions.now) (bound_in b.now.variables.now) e v }
{
    expressions::is_number(b.expressions, e)
        && ranges::is_inside(row[e], ranges::bound_at(b.variables, v))
}

// What branch record r assigns to variable v fits.
#[tactic(auto, unfolding(model::specs::Rules::assigned_fits, model::specs::Model::bound, expressions::specs::Ranges::bound_in))]
fn assigned_fits(b: &Bodies<'_>, row: &[Range], size: usize, r: usize, v: usize) -> bool
    requires held { Held b.now.expressions.now b.now.variables.now row.now }
    requires size_is { size ≡ branch_size (count_of 6 b.now.variables.now) }
    requires few { (r ≤ field_limit) × (v ≤ most_variables) }
    ensures { result ≡ assigned_fits (model_held b.now) r v }
{
    stays_in(b, row, folder::field(size, b.branches, r, 1 + v), v)
}

// Row 10, branch record r.
#[tactic(auto, unfolding(model::specs::Rules::branch_fits))]
fn branch_fits(b: &Bodies<'_>, row: &[Range], r: usize) -> bool
    requires held { Held b.now.expressions.now b.now.variables.now row.now }
    requires few { r ≤ field_limit }
    ensures { result ≡ branch_fits (model_held b.now) r }
{
    let n = folder::count_of(6, b.variables);
    let size = 2 + 2 * n;
    let weight = folder::field(size, b.branches, r, 0);
    (weight != 0) & folder::all(n, |v| assigned_fits(b, row, size, r, v))
}

// The sum of the weights of n branch records from `first` on.
fn weight_sum(size: usize, b: &[u8], first: usize, n: usize) -> usize
    requires { (size ≤ field_limit) × (first + n ≤ field_limit) }
    ensures { result ≡ sum n (λ i _. field size b.now (first + i) 0) }
{
    let mut sum = 0;
    for i in 0..n {
        sum += folder::field(size, b, first + i, 0);
    }
    sum
}

// Row 11: `at` walks the branch records with the n commands.
fn first_bad_total(b: &Bodies<'_>, n: usize) -> usize
    requires n_value { n ≡ (model_held b.now).commands }
    requires few { first_record (model_held b.now) n ≤ field_limit }
    ensures { result ≡ first_bad (weights_total (model_held b.now)) n }
{
    let total = folder::field(4, b.terms, 0, 0);
    let size = 2 + 2 * folder::count_of(6, b.variables);
    let mut at = 0;
    for c in 0..n {
        let branches = folder::field(4, b.commands, c, 1);
        if weight_sum(size, b.branches, at, branches) != total {
            return c;
        }
        at += branches;
    }
    n
}

// Rows 7 to 11. The row `row` holds the ranges of the entries.
#[tactic(auto, unfolding(folder::specs::Table::outcome))]
fn check_commands(b: &Bodies<'_>, row: &[Range]) -> Result<(), Refusal>
    requires held { Held b.now.expressions.now b.now.variables.now row.now }
    ensures { result ≡ outcome (drop 3 (content_rows (model_held b.now))) }
{
    let commands = folder::count_of(4, b.commands);
    let records = folder::count_of(2 + 2 * folder::count_of(6, b.variables), b.branches);
    folder::check_each(7, 2, |p| terms_fit(b, p))?;
    folder::check_each(8, commands, |c| command_fits(b, c))?;
    folder::check(9, 0, records_add_up(b, records))?;
    folder::check_each(10, records, |r| branch_fits(b, row, r))?;
    folder::check_scan(11, commands, first_bad_total(b, commands))
}

// Rows 4 to 6, and those after them. Row 6 works out the range of each entry once, for row 10 too.
#[tactic(auto, unfolding(folder::specs::Table::outcome, model::specs::Model::bound, expressions::specs::Ranges::bound_in))]
fn check_contents(b: &Bodies<'_>) -> Result<(), Refusal>
    ensures { result ≡ outcome (content_rows (model_held b.now)) }
{
    let variables = folder::count_of(6, b.variables);
    let entries = folder::count_of(8, b.expressions);
    folder::check_each(4, variables, |v| variable_fits(b, v))?;
    folder::check_scan(
        5,
        entries,
        entries::first_bad_entry(b.expressions, variables),
    )?;
    let mut row = [Range { low: 0, high: 0 }; MOST_EXPRESSIONS];
    let ranged = ranges::fill_ranges(b.expressions, b.variables, &mut row);
    folder::check_scan(6, entries, ranged)?;
    check_commands(b, &row)
}

// The model check: acceptance, or the first refusal of document 01's table.
pub fn check_model(m: &[u8]) -> Result<(), Refusal>
    ensures { result ≡ model_outcome m.now }
{
    model::check_folder(m)?;
    check_contents(&bodies_of(m))
}
