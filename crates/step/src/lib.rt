// The step of a state by command and branch: rows 29 to 33 of document 01's table, and the result row.

#![tactic(auto)]

ghost use Rattle.std.specs.Prelude.{◌≡◌, ◌++◌, ◌≤◌, length, drop};
ghost use Rattle.std.specs.Int.Signed.{mag};
ghost use Rattle.folder.specs.Fields.{field_limit};
ghost use Rattle.folder.specs.Tab.{fill};
ghost use Rattle.folder.specs.Table.{outcome};
ghost use Rattle.model.specs.Limits.{most_variables, most_bound};
ghost use Rattle.model.specs.Layout.{variable_count};
ghost use Rattle.model.specs.Model.{model_of};
ghost use Rattle.model.specs.Chances.{InRange};
ghost use Rattle.model.specs.Valid.{Valid};
ghost use Rattle.model.specs.Step.{step_rows, step_row_of, step_outcome, step_row};
ghost use Rattle.step.specs.Stepping.{fits_in, assigned_in, value_in, Assigning, Stepping};

use expressions::{ALL_TRACKED, MOST_EXPRESSIONS, MOST_VARIABLES};
use folder::Refusal;

// The value of variable v is in its range, by the variable body y.
fn value_fits(y: &[u8], state: &[i16], v: usize) -> bool
    requires { v ≤ field_limit }
    ensures { result ≡ fits_in y.now state.now v }
{
    let low = folder::signed_field(6, y, v, 0);
    let high = folder::signed_field(6, y, v, 1);
    let x = i64::from(folder::get_or(state, v, 0));
    (low <= x) & (x <= high)
}

// The state's values at the front of the row, as the evaluators take them.
fn load(state: &[i16], row: &mut [i64])
    requires { length state.now ≤ length row.old }
    ensures { row.new ≡ state.now ++ drop (length state.now) row.old }
{
    folder::fill(row, state.len(), |v| i64::from(state[v]));
}

// What record r of the branch body b gives variable v, where the row has what each number is.
fn assigned_in(values: &[i64], b: &[u8], size: usize, r: usize, v: usize) -> i16
    requires size_le_field_limit { (size ≤ field_limit) × (r ≤ field_limit) × (v ≤ most_variables) }
    requires v_bound { mag (value_in values.now b.now size r v) ≤ mag most_bound }
    ensures { result ≡ value_in values.now b.now size r v }
{
    folder::get_or(values, folder::field(size, b, r, 1 + v), 0) as i16
}

// The n values that branch record r gives, at the front of the result row.
fn put_values(values: &[i64], b: &[u8], size: usize, r: usize, n: usize, res: &mut [i16])
    requires assigning { Assigning values.now b.now size r n }
    requires n_in_bounds { n ≤ length res.old }
    ensures { res.new ≡ fill n (value_in values.now b.now size r) res.old }
{
    folder::fill(res, n, |v| assigned_in(values, b, size, r, v));
}

// The state that branch record r gives, at the front of the result row. All its expressions read s; they may share parts, so that
// each entry is read once.
fn put_next(x: &[u8], b: &[u8], size: usize, r: usize, s: &[i64], res: &mut [i16])
    requires stepping { Stepping x.now b.now size r s.now }
    requires s_in_bounds { length s.now ≤ length res.old }
    ensures { res.new ≡ fill (length s.now) (assigned_in x.now b.now size r s.now) res.old }
{
    let mut known = [0u8; MOST_EXPRESSIONS];
    let mut values = [0i64; MOST_EXPRESSIONS];
    evaluate::settle(x, ALL_TRACKED, s, &mut known, &mut values);
    put_values(&values, b, size, r, s.len(), res);
}

// Rows 31 to 33 and the step, from a state in range.
#[tactic(auto, unfolding(folder::specs::Table::outcome))]
fn take_branch(
    m: &[u8],
    s: &[i64],
    command: usize,
    branch: usize,
    res: &mut [i16],
) -> Result<(), Refusal>
    requires valid { Valid m.now }
    requires in_range { InRange (model_of m.now) s.now }
    requires s_in_bounds { length s.now ≤ length res.old }
    ensures value { result ≡ outcome (drop 2 (step_rows (model_of m.now) s.now command branch res.old)) }
    ensures res_after { res.new ≡ step_row_of (model_of m.now) s.now command branch res.old result }
{
    let x = folder::body(m, 2);
    let k = folder::body(m, 3);
    folder::check(31, command, command < folder::count_of(4, k))?;
    let enabled = evaluate::truth_in(x, s, folder::field(4, k, command, 0));
    folder::check(32, command, enabled)?;
    folder::check(33, branch, branch < folder::field(4, k, command, 1))?;
    let size = 2 + 2 * s.len();
    let r = model::first_record(k, command) + branch;
    let b = folder::body(m, 4);
    put_next(x, b, size, r, s, res);
    Ok(())
}

// Rows 29 and 30, and those after them, of a valid model.
#[tactic(auto, unfolding(folder::specs::Table::outcome, model::specs::Step::value_fits))]
fn check_step(
    m: &[u8],
    state: &[i16],
    command: usize,
    branch: usize,
    res: &mut [i16],
) -> Result<(), Refusal>
    requires valid { Valid m.now }
    requires few { variable_count m.now ≤ most_variables }
    ensures value { result ≡ outcome (step_rows (model_of m.now) state.now command branch res.old) }
    ensures res_after { res.new ≡ step_row_of (model_of m.now) state.now command branch res.old result }
{
    let n = model::variable_count(m);
    folder::check(29, 0, (state.len() == n) & (n <= res.len()))?;
    let y = folder::body(m, 1);
    folder::check_each(30, n, |v| value_fits(y, state, v))?;
    let mut row = [0i64; MOST_VARIABLES];
    load(state, &mut row);
    take_branch(m, &row[..n], command, branch, res)
}

// The step by `branch` of `command`, also from a target state. Accepted, the new state stands at the front of the result row, and
// the rest of the row stays; refused, all of it stays.
pub fn step(
    m: &[u8],
    state: &[i16],
    command: usize,
    branch: usize,
    res: &mut [i16],
) -> Result<(), Refusal>
    ensures value { result ≡ step_outcome m.now state.now command branch res.old }
    ensures res_after { res.new ≡ step_row m.now state.now command branch res.old }
{
    model_rules::check_model(m)?;
    check_step(m, state, command, branch, res)
}
