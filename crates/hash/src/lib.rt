// The FNV-1a hash of a state's bytes.

#![tactic(auto)]

ghost use Rattle.std.specs.Prelude.{◌≡◌, ◌/◌, ◌%◌, ◌<◌};
ghost use Rattle.folder.specs.Fields.{field_limit};
ghost use Rattle.hash.specs.Hash.{mul_kept, fnv_step, bits, hash_of};

pub const FNV_START: u32 = 2166136261;

const FNV_PRIME: u32 = 16777619;

// The product, of which 32 bits are kept.
pub fn mul_kept(a: u32, b: u32) -> u32
    ensures { result ≡ mul_kept a b }
{
    a.wrapping_mul(b)
}

pub fn fnv_step(h: u32, b: u8) -> u32
    ensures { result ≡ fnv_step h b }
{
    mul_kept(h ^ u32::from(b), FNV_PRIME)
}

// The 2-byte field that a value has in a folder.
pub fn bits_of(x: i16) -> usize
    ensures { (result ≡ bits x) × (result < field_limit) }
{
    usize::from(x.cast_unsigned())
}

// The step over the two bytes of a field.
fn field_step(h: u32, u: usize) -> u32
    requires { u < field_limit }
    ensures { result ≡ fnv_step (fnv_step h (u % 256)) (u / 256) }
{
    fnv_step(fnv_step(h, (u % 256) as u8), (u / 256) as u8)
}

// The hash of all values' bytes.
pub fn hash(s: &[i16]) -> u32
    ensures { result ≡ hash_of s.now }
{
    let mut h = FNV_START;
    for x in s {
        h = field_step(h, bits_of(*x));
    }
    h
}
