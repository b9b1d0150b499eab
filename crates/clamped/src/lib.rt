// Reading for the tests, which nothing can break: past the end of a slice a byte is 0, and a front that is longer than
// its slice is the slice.

#![tactic(auto)]

pub fn byte(s: &[u8], k: usize) -> u8 {
    s.get(k).copied().unwrap_or(0)
}

fn two_bytes(s: &[u8], k: usize) -> [u8; 2] {
    [byte(s, k), byte(s, k.saturating_add(1))]
}

pub fn field(s: &[u8], k: usize) -> usize {
    usize::from(u16::from_le_bytes(two_bytes(s, k)))
}

pub fn signed(s: &[u8], k: usize) -> i64 {
    i64::from(i16::from_le_bytes(two_bytes(s, k)))
}

pub fn long(s: &[u8], k: usize) -> usize {
    let [a, b] = two_bytes(s, k);
    let [c, d] = two_bytes(s, k.saturating_add(2));
    u32::from_le_bytes([a, b, c, d]) as usize
}

pub fn front<T>(s: &[T], n: usize) -> &[T] {
    &s[..n.min(s.len())]
}

pub fn front_mut<T>(s: &mut [T], n: usize) -> &mut [T] {
    let n = n.min(s.len());
    &mut s[..n]
}
