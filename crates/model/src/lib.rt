// The model folder: the counts and sizes of its records, rows 1 to 3, and the view.

#![tactic(auto)]

ghost use Rattle.std.specs.Prelude.{◌≡◌, [], ◌+◌, ◌<◌, ◌≤◌, ◌^◌};
ghost use Rattle.folder.specs.Fields.{field_limit};
ghost use Rattle.folder.specs.Scan.{first_bad};
ghost use Rattle.folder.specs.Table.{outcome};
ghost use Rattle.model.specs.Layout.{select, variable_count, record_size, record_count};
ghost use Rattle.model.specs.Model.{first_record, model_in};
ghost use Rattle.model.specs.Rules.{bytes_fit, records_fit};
ghost use Rattle.model.specs.Table.{folder_rows};
ghost use Rattle.model.specs.View.{record_there, view_start, view_part};

use expressions::{MOST_EXPRESSIONS, MOST_VARIABLES};
use folder::Refusal;

// Document 01's limits: bytes of the folder, records of the bodies (variables and expressions: in the crate
// `expressions`), branches of a command, and a variable's bounds.
const LEAST_BYTES: usize = 40;

const MOST_BYTES: usize = 40000;

pub const MOST_COMMANDS: usize = 64;

pub const MOST_RECORDS: usize = 1024;

pub const MOST_BRANCHES: usize = 16;

pub const LEAST_BOUND: i64 = -30000;

pub const MOST_BOUND: i64 = 30000;

// A value for each body.
pub fn select(
    e: usize,
    terms: usize,
    variables: usize,
    expressions: usize,
    commands: usize,
    branches: usize,
) -> usize
    ensures { result ≡ select e terms variables expressions commands branches }
{
    match e {
        0 => terms,
        1 => variables,
        2 => expressions,
        3 => commands,
        _ => branches,
    }
}

#[tactic(auto, unfolding(folder::specs::Contents::count_of))]
pub fn variable_count(m: &[u8]) -> usize
    ensures { (result ≡ variable_count m.now) × (result < 2 ^ 62) }
{
    folder::count_of(6, folder::body(m, 1))
}

#[tactic(auto, unfolding(crate::specs::Layout::record_size))]
pub fn record_size(m: &[u8], e: usize) -> usize
    requires { e < 5 }
    ensures { (result ≡ record_size m.now e) × (0 < result) }
{
    select(e, 4, 6, 8, 4, 2 + 2 * variable_count(m))
}

#[tactic(auto, unfolding(crate::specs::Layout::record_count))]
pub fn record_count(m: &[u8], e: usize) -> usize
    requires { e < 5 }
    ensures { result ≡ record_count m.now e }
{
    folder::count_of(record_size(m, e), folder::body(m, e))
}

// Row 1.
fn bytes_fit(m: &[u8]) -> bool
    ensures { result ≡ bytes_fit m.now }
{
    (LEAST_BYTES <= m.len()) & (m.len() <= MOST_BYTES)
}

// Row 3, body e.
#[tactic(auto, unfolding(crate::specs::Layout::record_count, crate::specs::Rules::records_fit))]
fn records_fit(m: &[u8], e: usize) -> bool
    requires { e < 5 }
    ensures { result ≡ records_fit m.now e }
{
    let size = record_size(m, e);
    let b = folder::body(m, e);
    let n = folder::count_of(size, b);
    let most = select(
        e,
        1,
        MOST_VARIABLES,
        MOST_EXPRESSIONS,
        MOST_COMMANDS,
        MOST_RECORDS,
    );
    ((b.len() % size == 0) & (1 <= n)) & (n <= most)
}

// The first branch record of command n, by the command body k.
pub fn first_record(k: &[u8], n: usize) -> usize
    requires { n ≤ field_limit }
    ensures { result ≡ first_record (model_in [] [] [] k.now []) n }
{
    let mut sum = 0;
    for c in 0..n {
        sum += folder::field(4, k, c, 1);
    }
    sum
}

// Rows 1 to 3: the bytes are a folder of five bodies of records.
#[tactic(auto, unfolding(folder::specs::Table::outcome))]
pub fn check_folder(m: &[u8]) -> Result<(), Refusal>
    ensures { result ≡ outcome (folder_rows m.now) }
{
    folder::check(1, 0, bytes_fit(m))?;
    folder::check_scan(2, 5, folder::first_bad_entry(m, 5))?;
    folder::check_each(3, 5, |e| records_fit(m, e))
}

#[tactic(auto, unfolding(crate::specs::View::record_there))]
fn record_there(m: &[u8], e: usize, i: usize) -> bool
    ensures { result ≡ record_there m.now e i }
{
    e < 5 && check_folder(m).is_ok() && i < record_count(m, e)
}

// The view: record i of body e, as a part of the folder. Where there is none, the empty part at its start.
pub fn record_part(m: &[u8], e: usize, i: usize) -> &[u8]
    ensures result_value { result.now ≡ view_part m.now e i }
    ensures ref_ptr_value { result.ref_ptr ≡ (m.entry.ref_ptr.0, view_start m.now e i + m.entry.ref_ptr.1) }
{
    if record_there(m, e, i) {
        let size = record_size(m, e);
        let at = folder::start_of(m, e) + size * i;
        &m[at..at + size]
    } else {
        &m[..0]
    }
}
