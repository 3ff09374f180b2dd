// Sets of servers as masks: bit k stands for server k + 1.
#![tactic(auto)]

pub mod apart;
pub mod sheet;

ghost use Rattle.std.specs.Prelude.{◌≡◌, ◌^◌, ◌<◌};
ghost use Rattle.members.specs.Members.{member, majority, one_apart, within, with_next, lowest_up_to};
ghost use Rattle.members.specs.Rules.{all_meet, may_follow, below_floor};

use sheet::least_shared;

// Server s is in m.
pub fn is_member(s: usize, m: u16) -> bool
    ensures { result ≡ member s m }
{
    if s == 0 || 16 < s {
        return false;
    }
    (m >> (s - 1)) % 2 == 1
}

// m is not empty and has servers 1 to n only. It takes any word of a slice, a set or not.
pub fn is_within(m: u32, n: u8) -> bool
    ensures { result ≡ within m n }
{
    0 < m && (32 <= n || m >> n == 0)
}

// One server is in one of the two sets and not in the other.
pub fn is_one_apart(a: u16, b: u16) -> bool
    ensures { result ≡ one_apart a b }
{
    (a ^ b).count_ones() == 1
}

// q lies in m and has more than half of its servers.
pub fn is_majority(q: u16, m: u16) -> bool
    ensures { result ≡ majority q m }
{
    q & m == q && m.count_ones() < 2 * q.count_ones()
}

// Every majority of a meets every majority of b: the sets share as many servers as the manual's sheet asks.
fn all_meet(a: u16, b: u16) -> bool
    requires { (0 < a) × (0 < b) }
    ensures { result ≡ all_meet a b }
{
    let least = least_shared(a.count_ones(), b.count_ones());
    u32::from(least) <= (a & b).count_ones()
}

// The set `new` may follow `old` under rule 1, which is the number 0, or rule 2, which is any other: a table has its rule as a number.
pub fn may_follow(rule: u32, old: u16, new: u16) -> bool
    requires { (0 < old) × (0 < new) }
    ensures { result ≡ may_follow rule old new }
{
    if rule == 0 {
        return is_one_apart(old, new);
    }
    all_meet(old, new)
}

// The set `new` has fewer members than the floor.
pub fn is_below(floor: u32, new: u16) -> bool
    ensures { result ≡ below_floor floor new }
{
    new.count_ones() < floor
}

// The set m of servers 1 to k, and server k + 1 if b: how a loop over the servers builds the set of those that pass a test.
pub fn with_next(m: u16, k: usize, b: bool) -> u16
    requires { (k < 16) × (m < 2 ^ k) }
    ensures { result ≡ with_next m k b }
{
    if b {
        return (1 << k) + m;
    }
    m
}

// The lowest server of m, and 0 where it is empty: it is promised by a definition that counts so.
pub fn lowest_member(m: u16) -> u8
    ensures { result ≡ lowest_up_to 16 (λ s. member s m) }
{
    if m == 0 {
        return 0;
    }
    m.trailing_zeros() as u8 + 1
}
