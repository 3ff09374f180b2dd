// An image's opening and its contents: entry 0 is for the marks, entry s for server s.
ghost use Rattle.std.specs.Prelude.{◌≡◌, ◌≤◌, ◌<◌, length};
ghost use Rattle.algorithm.specs.Table.{sound_count};
ghost use Rattle.image.specs.Contents.{opened, count_in, offset, size, stop, first_body, start, figure_bytes, fixed, entry_bytes, item_bytes, may_have, laid, laid_out};

use algorithm::{POSITIONS, RULE_2, SERVERS};
use words::half;

// The length of a server's body before its log.
pub const FIGURE_BYTES: usize = 16;

// The widths of entries by their numbers: 0 for a term alone, and this, the last, for a term and a bake.
const WIDE: u8 = 1;

// The bytes of a mark.
const MARK_BYTES: usize = 4;

// The most entries, and the most marks.
const MOST: usize = POSITIONS as usize;

// How many servers the opening says.
pub fn count_of(image: &[u8]) -> usize
    requires { 8 ≤ length image.now }
    ensures { (result ≡ count_in image.now) × (result < 256) }
{
    usize::from(image[4])
}

pub fn is_opened(image: &[u8]) -> bool
    requires { 8 ≤ length image.now }
    ensures { result ≡ opened image.now }
{
    image.starts_with(b"SITE")
        && image[5] <= WIDE
        && image[6] <= RULE_2 as u8
        && image[7] <= SERVERS
}

pub fn is_counted(image: &[u8]) -> bool
    requires { 8 ≤ length image.now }
    ensures { result ≡ sound_count (count_in image.now) }
{
    let n = image[4];
    (1 <= n) & (n <= SERVERS)
}

// Where the first body of an image of n servers begins.
pub fn first_body(n: usize) -> usize
    requires { n < 256 }
    ensures { result ≡ first_body n }
{
    12 + 4 * n
}

pub fn offset_of(image: &[u8], e: usize) -> usize
    requires { first_body e ≤ length image.now }
    ensures { (result ≡ offset image.now e) × (result < 65536) }
{
    usize::from(half(image, 8 + 4 * e))
}

pub fn size_of(image: &[u8], e: usize) -> usize
    requires { first_body e ≤ length image.now }
    ensures { (result ≡ size image.now e) × (result < 65536) }
{
    usize::from(half(image, 10 + 4 * e))
}

// Where body e ends.
pub fn stop_of(image: &[u8], e: usize) -> usize
    requires { first_body e ≤ length image.now }
    ensures { result ≡ stop image.now e }
{
    offset_of(image, e) + size_of(image, e)
}

// The length of body e before its log or its marks. The format has this length, that of an entry and that of an item apart, so each has its case.
fn fixed_of(e: usize) -> usize
    ensures { (result ≡ fixed e) × (result ≤ figure_bytes) }
{
    if e == 0 {
        return 0;
    }
    FIGURE_BYTES
}

// The bytes of an entry, which is wide by any number but 0.
pub fn entry_bytes(width: u8) -> usize
    ensures { (result ≡ entry_bytes width) × (4 ≤ result) × (result ≤ 8) }
{
    if width == 0 {
        return 4;
    }
    8
}

// The bytes of a mark or an entry of body e.
fn item_bytes(width: u8, e: usize) -> usize
    ensures { (result ≡ item_bytes width e) × (4 ≤ result) × (result ≤ 8) }
{
    if e == 0 {
        return MARK_BYTES;
    }
    entry_bytes(width)
}

fn may_have(width: u8, e: usize, v: usize) -> bool
    ensures { result ≡ may_have width e v }
{
    let least = fixed_of(e);
    let item = item_bytes(width, e);
    (least <= v) & (v <= least + item * MOST) & (v % item == 0)
}

// Entry e names a body that begins at a place, where the one before it ends.
fn is_laid(image: &[u8], e: usize, place: usize) -> bool
    requires e_in_bounds { first_body e ≤ length image.now }
    requires place_value { place ≡ start image.now e }
    ensures { result ≡ laid image.now e }
{
    let at = offset_of(image, e);
    let sized = may_have(image[5], e, size_of(image, e));
    (at == place) & sized & (stop_of(image, e) <= image.len())
}

// Whether the contents and the extent of every body are as they have to be.
#[tactic(auto, using(crate::proofs::JoinedTests::each_below), unfolding(crate::specs::Contents::laid_out))]
pub fn is_laid_out(image: &[u8]) -> bool
    requires { 8 ≤ length image.now }
    ensures { result ≡ laid_out image.now }
{
    let n = count_of(image);
    let mut place = first_body(n);
    if image.len() < place {
        return false;
    }
    let mut ok = true;
    for e in 0..=n {
        ok &= is_laid(image, e, place);
        place = stop_of(image, e);
    }
    ok
}
