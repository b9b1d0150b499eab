// Little-endian fields written into a slice.

#![tactic(auto)]

ghost use Rattle.std.specs.Prelude.{◌≡◌, ◌+◌, ◌<◌, ◌%◌, ◌/◌, length};
ghost use Rattle.folder.specs.Fields.{field_limit, field4_limit};
ghost use Rattle.put.specs.Put.{put2, put4, unsigned, FitsField};

// The 2-byte field at k.
pub fn put_short(b: &mut [u8], k: usize, u: usize)
    requires { (k + 1 < length b.old) × (u < field_limit) }
    ensures { b.new ≡ put2 b.old k u }
{
    let [low, high] = (u as u16).to_le_bytes();
    b[k] = low;
    b[k + 1] = high;
}

// The 4-byte field at k.
pub fn put_word(b: &mut [u8], k: usize, u: usize)
    requires { (k + 3 < length b.old) × (u < field4_limit) }
    ensures { b.new ≡ put4 b.old k u }
{
    put_short(b, k, u % folder::FIELD_LIMIT);
    put_short(b, k + 2, u / folder::FIELD_LIMIT);
}

// The 2-byte field that reads as z.
pub fn unsigned_of(z: i64) -> usize
    requires { FitsField z }
    ensures { (result ≡ unsigned z) × (result < field_limit) }
{
    usize::from((z as i16).cast_unsigned())
}
