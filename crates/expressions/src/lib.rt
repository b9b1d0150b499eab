// Expressions: what an entry is, and what can be said of it.

#![tactic(auto)]

ghost use Rattle.std.specs.Prelude.{◌≡◌, ◌<◌, ◌≤◌};
ghost use Rattle.folder.specs.Fields.{field_limit};
ghost use Rattle.expressions.specs.Entries.{entries_of, number_form_of, truth_form_of, number_form, truth_form, is_number, is_truth};
ghost use Rattle.expressions.specs.Reading.{has_bit};
ghost use Rattle.expressions.specs.Small.{SmallN, SmallT};

// Document 01's limits: variables and expressions of a model, how deep these are, and how far their ranges reach.
pub const MOST_VARIABLES: usize = 16;

pub const MOST_EXPRESSIONS: usize = 512;

// What stands for a variable where none is concerned.
pub const NO_VARIABLE: usize = 65535;

// How many combinations of values a reading looks at (document 02, 2.4).
pub const MOST_COMBINATIONS: usize = 4096;

pub const DEEPEST: usize = 12;

pub const LOWEST: i64 = -1000000;

pub const HIGHEST: i64 = 1000000;

// The tracked set that has every variable.
pub const ALL_TRACKED: usize = (1 << MOST_VARIABLES) - 1;

#[derive(Clone, Copy, Debug, PartialEq, Eq)]
pub enum Arith {
    Add,
    Subtract,
    Multiply,
    Smaller,
    Larger,
}

#[derive(Clone, Copy, Debug, PartialEq, Eq)]
pub enum Relation {
    Equal,
    Less,
    AtMost,
}

#[derive(Clone, Copy, Debug, PartialEq, Eq)]
pub enum Join {
    And,
    Or,
}

// An entry as a number, its parts by their entry numbers. `If` has its truth first. `NoNumber` and not an Option around the
// form: each match has the same arms either way.
#[derive(Clone, Copy)]
pub enum NumberForm {
    Constant(i64),
    Variable(usize),
    Binary(Arith, usize, usize),
    If(usize, usize, usize),
    NoNumber,
}

// An entry as a truth, and `NoTruth` for the same reason.
#[derive(Clone, Copy)]
pub enum TruthForm {
    Compare(Relation, usize, usize),
    Not(usize),
    Joined(Join, usize, usize),
    Always,
    NoTruth,
}

#[derive(Clone, Copy, Debug, PartialEq, Eq)]
pub struct Range {
    pub low: i64,
    pub high: i64,
}

// The forms of an entry, by its operation and fields.
pub fn number_form_of(op: usize, a: usize, b: usize, c: usize) -> NumberForm
    requires { (a < field_limit) × (b < field_limit) × (c < field_limit) }
    ensures { (result ≡ number_form_of op a b c) × SmallN result }
{
    match op {
        0 => NumberForm::Constant(folder::signed_of(a)),
        1 => NumberForm::Variable(a),
        2 => NumberForm::Binary(Arith::Add, a, b),
        3 => NumberForm::Binary(Arith::Subtract, a, b),
        4 => NumberForm::Binary(Arith::Multiply, a, b),
        5 => NumberForm::Binary(Arith::Smaller, a, b),
        6 => NumberForm::Binary(Arith::Larger, a, b),
        7 => NumberForm::If(a, b, c),
        _ => NumberForm::NoNumber,
    }
}

pub fn truth_form_of(op: usize, a: usize, b: usize) -> TruthForm
    requires { (a < field_limit) × (b < field_limit) }
    ensures { (result ≡ truth_form_of op a b) × SmallT result }
{
    match op {
        8 => TruthForm::Compare(Relation::Equal, a, b),
        9 => TruthForm::Compare(Relation::Less, a, b),
        10 => TruthForm::Compare(Relation::AtMost, a, b),
        11 => TruthForm::Not(a),
        12 => TruthForm::Joined(Join::And, a, b),
        13 => TruthForm::Joined(Join::Or, a, b),
        14 => TruthForm::Always,
        _ => TruthForm::NoTruth,
    }
}

// Entry e of an expression body, as a number and as a truth.
pub fn number_form(x: &[u8], e: usize) -> NumberForm
    requires { e ≤ field_limit }
    ensures { (result ≡ number_form (entries_of x.now) e) × SmallN result }
{
    if e < folder::count_of(8, x) {
        number_form_of(
            folder::field_in(8, x, e, 0),
            folder::field_in(8, x, e, 1),
            folder::field_in(8, x, e, 2),
            folder::field_in(8, x, e, 3),
        )
    } else {
        NumberForm::NoNumber
    }
}

pub fn truth_form(x: &[u8], e: usize) -> TruthForm
    requires { e ≤ field_limit }
    ensures { (result ≡ truth_form (entries_of x.now) e) × SmallT result }
{
    if e < folder::count_of(8, x) {
        truth_form_of(
            folder::field_in(8, x, e, 0),
            folder::field_in(8, x, e, 1),
            folder::field_in(8, x, e, 2),
        )
    } else {
        TruthForm::NoTruth
    }
}

// Its sort.
#[tactic(auto, unfolding(crate::specs::Entries::is_number))]
pub fn is_number(x: &[u8], e: usize) -> bool
    requires { e ≤ field_limit }
    ensures { result ≡ is_number (entries_of x.now) e }
{
    e < folder::count_of(8, x) && folder::field_in(8, x, e, 0) <= 7
}

#[tactic(auto, unfolding(crate::specs::Entries::is_truth))]
pub fn is_truth(x: &[u8], e: usize) -> bool
    requires { e ≤ field_limit }
    ensures { result ≡ is_truth (entries_of x.now) e }
{
    e < folder::count_of(8, x) && matches!(folder::field_in(8, x, e, 0), 8..=14)
}

// Variable i is in the set t.
#[tactic(auto, unfolding(crate::specs::Reading::has_bit))]
pub fn has_bit(t: usize, i: usize) -> bool
    ensures { result ≡ has_bit t i }
{
    i < 64 && (t >> i) % 2 == 1
}
