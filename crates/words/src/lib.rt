// Numbers in a slice, of two bytes, of four (words) and of eight, the low byte first.
#![tactic(auto)]

ghost use Rattle.std.specs.Prelude.{◌≡◌, ◌+◌, ◌*◌, ◌≤◌, length, get_or};
ghost use Rattle.words.specs.Lists.{every, between, part};
ghost use Rattle.words.specs.Words.{half_at, words, Put, put_eight};

// The number of two bytes at k.
pub fn half(b: &[u8], k: usize) -> u16
    requires { k + 2 ≤ length b.now }
    ensures { result ≡ half_at b.now k }
{
    u16::from_le_bytes([b[k], b[k + 1]])
}

// Word k of the slice.
pub fn word(t: &[u8], k: usize) -> u32
    requires { 4 * k + 4 ≤ length t.now }
    ensures { result ≡ get_or (words t.now) k 0 }
{
    let at = 4 * k;
    u32::from_le_bytes([t[at], t[at + 1], t[at + 2], t[at + 3]])
}

// Puts v into word k of the slice.
pub fn put(t: &mut [u8], k: usize, v: u32)
    requires { 4 * k + 4 ≤ length t.old }
    ensures { Put t.old t.new k v }
{
    let at = 4 * k;
    t[at..at + 4].copy_from_slice(&v.to_le_bytes());
}

// Puts v into the k-th eight bytes of the slice.
pub fn put_eight(t: &mut [u8], k: usize, v: u64)
    requires { 8 * k + 8 ≤ length t.old }
    ensures { t.new ≡ put_eight t.old k v }
{
    let at = 8 * k;
    t[at..at + 8].copy_from_slice(&v.to_le_bytes());
}

// Each of the n words from word k is from low to high. The answers of the tests are joined without branches, so that the loop can
// test several words at once; counted from k on instead of from 0 it is slower.
pub fn all_between(t: &[u8], k: usize, n: usize, low: u32, high: u32) -> bool
    requires { 4 * (k + n) ≤ length t.now }
    ensures { result ≡ every (between low high) (part (words t.now) k n) }
{
    let mut ok = true;
    for i in 0..n {
        let v = word(t, k + i);
        ok = ok & ((low <= v) & (v <= high));
    }
    ok
}
