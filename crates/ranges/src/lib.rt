// Ranges: the least and the greatest value that a number can have, by its parts, and row 6 of document 01's table.

#![tactic(auto)]

ghost use Rattle.std.specs.Prelude.{◌≡◌, ◌<◌, ◌≤◌, length};
ghost use Rattle.folder.specs.Fields.{field_limit};
ghost use Rattle.folder.specs.Contents.{count_of};
ghost use Rattle.folder.specs.Scan.{first_bad};
ghost use Rattle.folder.specs.Tab.{tab, fill};
ghost use Rattle.expressions.specs.Limits.{most_expressions};
ghost use Rattle.expressions.specs.Entries.{entries_of};
ghost use Rattle.expressions.specs.Ranges.{product, arith_r, hull, bound_in, range_of, inside, limits};
ghost use Rattle.expressions.specs.Rules.{range_fits};
ghost use Rattle.ranges.specs.Products.{end_products, end_product};
ghost use Rattle.ranges.specs.Settled.{Near, Based, Ranged};

use expressions::{Arith, HIGHEST, LOWEST, NumberForm, Range};

// How many end products two ranges have.
const END_PRODUCTS: usize = 4;

// The range of variable v of a variable body; past the last, 0 to 0.
pub fn bound_at(y: &[u8], v: usize) -> Range
    requires { v ≤ field_limit }
    ensures { result ≡ bound_in y.now v }
{
    if v < folder::count_of(6, y) {
        Range {
            low: folder::signed_field(6, y, v, 0),
            high: folder::signed_field(6, y, v, 1),
        }
    } else {
        Range { low: 0, high: 0 }
    }
}

// a stays in b.
#[tactic(auto, unfolding(expressions::specs::Ranges::inside))]
pub fn is_inside(a: Range, b: Range) -> bool
    ensures { result ≡ inside a b }
{
    whole::at_most(b.low, a.low) & whole::at_most(a.high, b.high)
}

// From the lower of the low ends to the higher of the high ends.
fn hull_of(a: Range, b: Range) -> Range
    ensures { result ≡ hull a b }
{
    Range {
        low: whole::min(a.low, b.low),
        high: whole::max(a.high, b.high),
    }
}

// The end products of two ranges, in the order of `product`.
fn end_products(a: Range, b: Range) -> [i64; END_PRODUCTS]
    requires { Near a × Near b }
    ensures { result ≡ tab end_products (end_product a b) }
{
    [
        whole::mul(a.low, b.low),
        whole::mul(a.low, b.high),
        whole::mul(a.high, b.low),
        whole::mul(a.high, b.high),
    ]
}

// The least and the greatest of the four end products, in one pass: each widens the range of those before it.
fn product_range(a: Range, b: Range) -> Range
    requires { Near a × Near b }
    ensures { result ≡ product a b }
{
    let products = end_products(a, b);
    let mut r = Range {
        low: products[0],
        high: products[0],
    };
    for p in &products[1..] {
        r = hull_of(r, Range { low: *p, high: *p });
    }
    r
}

// The range of an operation on numbers that lie in a and in b.
fn arith_range(k: Arith, a: Range, b: Range) -> Range
    requires { Near a × Near b }
    ensures { result ≡ arith_r k a b }
{
    match k {
        Arith::Add => Range {
            low: whole::add(a.low, b.low),
            high: whole::add(a.high, b.high),
        },
        Arith::Subtract => Range {
            low: whole::sub(a.low, b.high),
            high: whole::sub(a.high, b.low),
        },
        Arith::Multiply => product_range(a, b),
        Arith::Smaller => Range {
            low: whole::min(a.low, b.low),
            high: whole::min(a.high, b.high),
        },
        Arith::Larger => Range {
            low: whole::max(a.low, b.low),
            high: whole::max(a.high, b.high),
        },
    }
}

fn in_limits(a: Range) -> bool
    ensures { result ≡ inside a limits }
{
    is_inside(
        a,
        Range {
            low: LOWEST,
            high: HIGHEST,
        },
    )
}

// The range of entry e: out of the row where it holds it, else from those of its parts, which are lower.
pub fn range_of(x: &[u8], y: &[u8], row: &[Range], settled: usize, e: usize) -> Range
    requires { Ranged x.now y.now row.now settled e }
    ensures { result ≡ range_of (entries_of x.now) (bound_in y.now) e }
{
    if e < settled {
        return row[e];
    }
    let f = expressions::number_form(x, e);
    match f {
        NumberForm::Constant(z) => Range { low: z, high: z },
        NumberForm::Variable(v) => bound_at(y, v),
        NumberForm::Binary(k, p, q) => {
            arith_range(
                k,
                range_of(x, y, row, settled, p),
                range_of(x, y, row, settled, q),
            )
        }
        NumberForm::If(_, p, q) => {
            hull_of(
                range_of(x, y, row, settled, p),
                range_of(x, y, row, settled, q),
            )
        }
        NumberForm::NoNumber => Range { low: 0, high: 0 },
    }
}

// Row 6: the lowest entry whose range leaves the limits, or their count. The ranges of the entries before it go into the row, so
// that each is worked out once.
pub fn fill_ranges(x: &[u8], y: &[u8], row: &mut [Range]) -> usize
    requires based { Based x.now y.now }
    requires x_bound { count_of 8 x.now ≤ most_expressions }
    requires most_expressions_in_bounds { most_expressions ≤ length row.old }
    ensures value { result ≡ first_bad (range_fits (entries_of x.now) (bound_in y.now)) (count_of 8 x.now) }
    ensures row_after { row.new ≡ fill result (range_of (entries_of x.now) (bound_in y.now)) row.old }
{
    let n = folder::count_of(8, x);
    for e in 0..n {
        let r = range_of(x, y, row, e, e);
        if !in_limits(r) {
            return e;
        }
        row[e] = r;
    }
    n
}
