// Whole numbers: the few places where signed arithmetic is done.

#![tactic(auto)]

ghost use Rattle.std.specs.Prelude.{◌≡◌, ◌+ℤ◌, ◌-ℤ◌, ◌*ℤ◌};
ghost use Rattle.std.specs.Int.Signed.{le_z, lt_z};
ghost use Rattle.std.specs.Int.{w64};
ghost use Rattle.std.proofs.Common.{SFits};
ghost use Rattle.whole.specs.Order.{min_z, max_z, eq_z};

pub fn add(a: i64, b: i64) -> i64
    requires { SFits w64 (a +ℤ b) }
    ensures { result ≡ a +ℤ b }
{
    a + b
}

pub fn sub(a: i64, b: i64) -> i64
    requires { SFits w64 (a -ℤ b) }
    ensures { result ≡ a -ℤ b }
{
    a - b
}

pub fn mul(a: i64, b: i64) -> i64
    requires { SFits w64 (a *ℤ b) }
    ensures { result ≡ a *ℤ b }
{
    a * b
}

pub fn at_most(a: i64, b: i64) -> bool
    ensures { result ≡ le_z a b }
{
    a <= b
}

pub fn less(a: i64, b: i64) -> bool
    ensures { result ≡ lt_z a b }
{
    a < b
}

pub fn equal(a: i64, b: i64) -> bool
    ensures { result ≡ eq_z a b }
{
    a == b
}

pub fn min(a: i64, b: i64) -> i64
    ensures { result ≡ min_z a b }
{
    a.min(b)
}

pub fn max(a: i64, b: i64) -> i64
    ensures { result ≡ max_z a b }
{
    a.max(b)
}
