// Text written into a lent slice, from a position on.

#![tactic(auto)]

ghost use Rattle.std.specs.Prelude.{◌≡◌, ◌+◌, ◌≤◌, length, ◌++◌};
ghost use Rattle.text.specs.Text.{written, decimal, decimal_within, most_text};

// The word, at `at`; the position after it.
pub fn put(out: &mut [u8], at: usize, word: &[u8]) -> usize
    requires { at + length word.now ≤ length out.old }
    ensures { (result ≡ at + length word.now) × (out.new ≡ written out.old at word.now) }
{
    let end = at + word.len();
    out[at..end].copy_from_slice(word);
    end
}

// At most `left` digits of n. No `write!`: its clauses tell what is written where it succeeds, and not that it does.
fn put_digits(out: &mut [u8], at: usize, n: usize, left: usize) -> usize
    requires { at + left ≤ length out.old }
    ensures { (result ≡ at + length (decimal_within left n)) × (out.new ≡ written out.old at (decimal_within left n)) }
{
    if left == 0 {
        return at;
    }
    if n < 10 {
        out[at] = b'0' + n as u8;
        return at + 1;
    }
    let k = put_digits(out, at, n / 10, left - 1);
    out[k] = b'0' + (n % 10) as u8;
    k + 1
}

// The number n in decimal, at `at`; the position after it.
pub fn put_decimal(out: &mut [u8], at: usize, n: usize) -> usize
    requires { at + 20 ≤ length out.old }
    ensures { (result ≡ at + length (decimal n)) × (out.new ≡ written out.old at (decimal n)) × (result ≤ at + 20) }
{
    put_digits(out, at, n, 20)
}

// The number n in decimal and then the word, at `at`; the position after them.
pub fn put_count(out: &mut [u8], at: usize, n: usize, word: &[u8]) -> usize
    requires { (at + length word.now + 20 ≤ length out.old) × (at ≤ most_text) × (length word.now ≤ most_text) }
    ensures { (result ≡ at + length (decimal n ++ word.now)) × (out.new ≡ written out.old at (decimal n ++ word.now)) × (result ≤ at + length word.now + 20) }
{
    let k = put_decimal(out, at, n);
    put(out, k, word)
}
