// The lowest pair of majorities that do not meet.
ghost use Rattle.std.specs.Prelude.{false, ◌≡◌, ◌<◌};
ghost use Rattle.members.specs.Rules.{all_meet, lowest_pair, lowest_servers};

use super::with_next;

// A majority of the old set and one of the new.
#[derive(Clone, Copy)]
pub struct Pair {
    pub old: u16,
    pub new: u16,
}

// The k lowest servers of m; all of them where it has fewer.
fn lowest_servers(m: u16, k: u32) -> u16
    ensures { result ≡ lowest_servers 16 k m }
{
    let mut q: u16 = 0;
    for i in 0..16 {
        let rest = m >> i;
        q = with_next(q, i, (rest % 2 == 1) & (q.count_ones() < k));
    }
    q
}

// The lowest majority of a that leaves a majority of b takes the lowest servers of a, but of the shared ones no more than b can spare.
pub fn lowest_apart(a: u16, b: u16) -> Pair
    requires a_nonzero { (0 < a) × (0 < b) }
    requires b_value { all_meet a b ≡ false }
    ensures { result ≡ lowest_pair a b }
{
    let shared = a & b;
    let spared = lowest_servers(shared, (b.count_ones() - 1) / 2);
    let old = lowest_servers((a ^ shared) | spared, a.count_ones() / 2 + 1);
    let new = lowest_servers(b ^ (b & old), b.count_ones() / 2 + 1);
    Pair { old, new }
}
