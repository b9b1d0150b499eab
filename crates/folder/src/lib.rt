// Folders: little-endian fields, the table of contents, bodies and records. Reads are total: past the end a byte is 0.

#![tactic(auto)]

ghost use Rattle.std.specs.Prelude.{ℕ, Bool, ◌≡◌, ◌+◌, ◌*◌, ◌<◌, ◌≤◌, ◌^◌, [], ◌∷◌, get_or, length};
ghost use Rattle.folder.specs.Fields.{field_limit, field4_limit, u16, u32, signed16};
ghost use Rattle.folder.specs.Contents.{start_of, length_of, due_start, entry_ok, body, count_of, field, field4};
ghost use Rattle.folder.specs.Scan.{first_bad, all};
ghost use Rattle.folder.specs.Tab.{fill};
ghost use Rattle.folder.specs.Table.{outcome, row, single, refused_by};

// What a field of 2 bytes stays below.
pub const FIELD_LIMIT: usize = 65536;

// Two's complement: what is taken away from a field that is negative.
pub const SIGNED_SPAN: i64 = FIELD_LIMIT as i64;

// A refusal: its number in document 01's table, and the two places that the table returns with it. The second is 0 but for
// the rules that say which variable is concerned.
#[derive(Clone, Copy, Debug, PartialEq, Eq)]
pub struct Refusal {
    pub number: usize,
    pub place: usize,
    pub second: usize,
}

// The first broken rule of a place: its number, and the second place that goes with it. None is broken: 0 and 0.
#[derive(Clone, Copy, Debug, PartialEq, Eq)]
pub struct Cause {
    pub number: usize,
    pub second: usize,
}

// A row of document 01's table with one test, and the place that its refusal returns.
pub fn check(number: usize, place: usize, ok: bool) -> Result<(), Refusal>
    ensures { result ≡ outcome (single number place ok ∷ []) }
{
    if ok {
        return Ok(());
    }
    Err(Refusal {
        number,
        place,
        second: 0,
    })
}

// A row with `count` places: it refuses at the lowest whose test fails.
pub fn check_each<F: Fn(usize) -> bool>(number: usize, count: usize, ok: F) -> Result<(), Refusal>
    requires { (p : ℕ) → p < count → F.pre ok p }
    ensures { (good : ℕ → Bool) → ((p : ℕ) (t : Bool) → p < count → F.post ok p t → t ≡ good p) → result ≡ outcome (row number count good ∷ []) }
{
    check_scan(number, count, first_bad(count, ok))
}

// The same, where a scan of the places answered p.
pub fn check_scan(number: usize, count: usize, p: usize) -> Result<(), Refusal>
    ensures { (good : ℕ → Bool) → p ≡ first_bad good count → result ≡ outcome (row number count good ∷ []) }
{
    check(number, p, count <= p)
}

// What a place's first broken rule refuses.
pub fn refuse_by(cause: Cause, place: usize) -> Result<(), Refusal>
    ensures { result ≡ refused_by cause place }
{
    Err(Refusal {
        number: cause.number,
        place,
        second: cause.second,
    })
}

// The lowest place below n at which a test fails, or n.
pub fn first_bad<F: Fn(usize) -> bool>(n: usize, ok: F) -> usize
    requires { (i : ℕ) → i < n → F.pre ok i }
    ensures { (good : ℕ → Bool) → ((i : ℕ) (t : Bool) → i < n → F.post ok i t → t ≡ good i) → result ≡ first_bad good n }
{
    for i in 0..n {
        if !ok(i) {
            return i;
        }
    }
    n
}

// Whether a test passes at each place below n.
pub fn all<F: Fn(usize) -> bool>(n: usize, ok: F) -> bool
    requires { (i : ℕ) → i < n → F.pre ok i }
    ensures { (good : ℕ → Bool) → ((i : ℕ) (t : Bool) → i < n → F.post ok i t → t ≡ good i) → result ≡ all good n }
{
    first_bad(n, ok) == n
}

// The first n elements of the row become the values of a function; the later ones stay.
pub fn fill<T: Copy, F: Fn(usize) -> T>(row: &mut [T], n: usize, value: F)
    requires n_in_bounds { n ≤ length row.old }
    requires by_index { (i : ℕ) → i < n → F.pre value i }
    ensures { (f : ℕ → T) → ((i : ℕ) (t : T) → i < n → F.post value i t → t ≡ f i) → row.new ≡ fill n f row.old }
{
    for i in 0..n {
        row[i] = value(i);
    }
}

// What the row has at k; past its end, what is given.
pub fn get_or<T: Copy>(row: &[T], k: usize, past: T) -> T
    ensures { result ≡ get_or row.now k past }
{
    if k < row.len() { row[k] } else { past }
}

pub fn byte_at(s: &[u8], k: usize) -> usize
    ensures { (result ≡ get_or s.now k 0) × (result < 256) }
{
    usize::from(get_or(s, k, 0))
}

fn pair(low: u8, high: u8) -> usize
    ensures { (result ≡ low + high * 256) × (result < field_limit) }
{
    usize::from(u16::from_le_bytes([low, high]))
}

// The 2-byte field at k, which the slice has whole: nothing is tested, for whoever reads many.
#[tactic(auto, unfolding(crate::specs::Fields::u16))]
pub fn u16_in(s: &[u8], k: usize) -> usize
    requires { k + 1 < length s.now }
    ensures { (result ≡ u16 s.now k) × (result < field_limit) }
{
    pair(s[k], s[k + 1])
}

#[tactic(auto, unfolding(crate::specs::Fields::u16))]
pub fn u16_at(s: &[u8], k: usize) -> usize
    requires { k < 2 ^ 60 }
    ensures { (result ≡ u16 s.now k) × (result < field_limit) }
{
    if k + 1 < s.len() {
        u16_in(s, k)
    } else {
        byte_at(s, k)
    }
}

#[tactic(auto, unfolding(crate::specs::Fields::u32))]
pub fn u32_at(s: &[u8], k: usize) -> usize
    requires { k < 2 ^ 59 }
    ensures { (result ≡ u32 s.now k) × (result < field4_limit) }
{
    u16_at(s, k) + u16_at(s, k + 2) * FIELD_LIMIT
}

// The two's complement value of a 2-byte field.
#[tactic(auto, unfolding(crate::specs::Fields::signed16))]
pub fn signed_of(u: usize) -> i64
    requires { u < field_limit }
    ensures { result ≡ signed16 u }
{
    i64::from((u as u16).cast_signed())
}

pub fn start_of(s: &[u8], e: usize) -> usize
    requires { e < 2 ^ 32 }
    ensures { (result ≡ start_of s.now e) × (result < field4_limit) }
{
    u32_at(s, e * 8)
}

pub fn length_of(s: &[u8], e: usize) -> usize
    requires { e < 2 ^ 32 }
    ensures { (result ≡ length_of s.now e) × (result < field4_limit) }
{
    u32_at(s, e * 8 + 4)
}

#[tactic(auto, unfolding(crate::specs::Contents::due_start))]
fn due_start(s: &[u8], k: usize, e: usize) -> usize
    requires { (k < 2 ^ 32) × (e < 2 ^ 32) }
    ensures { result ≡ due_start s.now k e }
{
    if e == 0 {
        k * 8
    } else {
        start_of(s, e - 1) + length_of(s, e - 1)
    }
}

#[tactic(auto, unfolding(crate::specs::Contents::entry_ok))]
fn entry_ok(s: &[u8], k: usize, e: usize) -> bool
    requires { (k < 2 ^ 32) × (e < 2 ^ 32) }
    ensures { result ≡ entry_ok s.now k e }
{
    let start = start_of(s, e);
    let end = start + length_of(s, e);
    let due = due_start(s, k, e);
    ((start == due) & (end <= s.len())) & (!(e + 1 == k) | (end == s.len()))
}

// The lowest entry of a table of k entries that is off, or k.
pub fn first_bad_entry(s: &[u8], k: usize) -> usize
    requires { k < 2 ^ 32 }
    ensures { result ≡ first_bad (entry_ok s.now k) k }
{
    first_bad(k, |e| entry_ok(s, k, e))
}

// Body e, as a part of the folder.
#[tactic(auto, unfolding(crate::specs::Contents::body))]
pub fn body(s: &[u8], e: usize) -> &[u8]
    requires { e < 2 ^ 32 }
    ensures { result.now ≡ body s.now e }
{
    let rest = s.get(start_of(s, e)..).unwrap_or(&[]);
    rest.get(..length_of(s, e)).unwrap_or(rest)
}

#[tactic(auto, unfolding(crate::specs::Contents::count_of))]
pub fn count_of(size: usize, b: &[u8]) -> usize
    requires { 0 < size }
    ensures { result ≡ count_of size b.now }
{
    b.len() / size
}

// Where the 2-byte field f of record i starts.
fn position(size: usize, i: usize, f: usize) -> usize
    requires { (size ≤ field_limit) × (i ≤ field_limit) × (f ≤ field_limit) }
    ensures { (result ≡ size * i + 2 * f) × (result < 2 ^ 59) }
{
    size * i + 2 * f
}

// The 2-byte field f of record i of a body of records of `size` bytes.
#[tactic(auto, unfolding(crate::specs::Contents::field))]
pub fn field(size: usize, b: &[u8], i: usize, f: usize) -> usize
    requires { (size ≤ field_limit) × (i ≤ field_limit) × (f ≤ field_limit) }
    ensures { (result ≡ field size b.now i f) × (result < field_limit) }
{
    u16_at(b, position(size, i, f))
}

// The same of a record that the body counts: nothing is tested.
#[tactic(auto, unfolding(crate::specs::Contents::field))]
pub fn field_in(size: usize, b: &[u8], i: usize, f: usize) -> usize
    requires { (i < count_of size b.now) × (2 * f + 2 ≤ size) }
    ensures { (result ≡ field size b.now i f) × (result < field_limit) }
{
    u16_in(b, size * i + 2 * f)
}

// The 4-byte field that starts where the 2-byte field f does.
#[tactic(auto, unfolding(crate::specs::Contents::field4))]
pub fn field4(size: usize, b: &[u8], i: usize, f: usize) -> usize
    requires { (size ≤ field_limit) × (i ≤ field_limit) × (f ≤ field_limit) }
    ensures { (result ≡ field4 size b.now i f) × (result < field4_limit) }
{
    u32_at(b, position(size, i, f))
}

#[tactic(auto, unfolding(crate::specs::Contents::field))]
pub fn signed_field(size: usize, b: &[u8], i: usize, f: usize) -> i64
    requires { (size ≤ field_limit) × (i ≤ field_limit) × (f ≤ field_limit) }
    ensures { result ≡ signed16 (field size b.now i f) }
{
    signed_of(field(size, b, i, f))
}
