// One server's role, and one server beside another: terms, configurations and logs.
#![tactic(auto)]

ghost use Rattle.std.specs.Prelude.{◌≡◌, not, ◌≤◌, eqb, ltb, ◌||◌, ◌&&◌};
ghost use Rattle.std.specs.Ordering.{partial_lt};
ghost use Rattle.algorithm.specs.Table.{server, positions, held, prefix};
ghost use Rattle.algorithm.specs.Actions.{larger_term, newer_config, log_ahead, same_config, same_term, supports_at, joins as joins_of};
ghost use Rattle.table.specs.Slice.{Within};

use algorithm::{Position, Term};
use table::Table;

// Server i has another role: refusal 6.
pub fn lacks_role(t: &Table<'_>, i: usize, role: u32) -> bool
    requires within { Within t.now i }
    ensures { result ≡ not (eqb (server t.now i).role role) }
{
    t.role(i) != role
}

pub fn larger_term(t: &Table<'_>, i: usize, s: usize) -> bool
    requires within { Within t.now i }
    requires within_2 { Within t.now s }
    ensures { result ≡ larger_term t.now i s }
{
    t.term(i) < t.term(s)
}

// The pair of a and v is below that of b and w. Tuples have this order too, but with branches: a poll takes an eighth more instructions.
fn is_below<T: PartialOrd + Copy>(a: Term, v: T, b: Term, w: T) -> bool
    ensures { result ≡ (ltb a.0 b.0 || eqb a.0 b.0 && partial_lt T.partial_cmp v w) }
{
    (a < b) | (a == b) & (v < w)
}

pub fn newer_config(t: &Table<'_>, i: usize, s: usize) -> bool
    requires within { Within t.now i }
    requires within_2 { Within t.now s }
    ensures { result ≡ newer_config t.now i s }
{
    is_below(t.config(i), t.version(i), t.config(s), t.version(s))
}

pub fn log_ahead(t: &Table<'_>, i: usize, s: usize) -> bool
    requires within { Within t.now i }
    requires within_2 { Within t.now s }
    ensures { result ≡ log_ahead t.now i s }
{
    is_below(t.last(i), t.length(i), t.last(s), t.length(s))
}

pub fn same_config(t: &Table<'_>, i: usize, s: usize) -> bool
    requires within { Within t.now i }
    requires within_2 { Within t.now s }
    ensures { result ≡ same_config t.now i s }
{
    (t.version(s) == t.version(i)) & (t.config(s) == t.config(i))
}

pub fn same_term(t: &Table<'_>, i: usize, s: usize) -> bool
    requires within { Within t.now i }
    requires within_2 { Within t.now s }
    ensures { result ≡ same_term t.now i s }
{
    t.term(s) == t.term(i)
}

// The log of server s has the term at a position.
pub fn holds(t: &Table<'_>, s: usize, p: Position, term: Term) -> bool
    requires within { Within t.now s }
    requires p_le_positions { p.0 ≤ positions }
    ensures { result ≡ held (server t.now s).log p.0 term.0 }
{
    if p.0 == 0 {
        return false;
    }
    (p <= t.length(s)) & (t.entry(s, p) == term)
}

// Server s has the term of server i, and an entry of it at a position.
pub fn supports(t: &Table<'_>, i: usize, s: usize, p: Position) -> bool
    requires within { Within t.now i }
    requires within_2 { Within t.now s }
    requires p_le_positions { p.0 ≤ positions }
    ensures { result ≡ supports_at t.now i p.0 s }
{
    same_term(t, i, s) & holds(t, s, p, t.term(i))
}

// The log of server i is empty, or its last entry is that of server j at that position.
pub fn joins(t: &Table<'_>, i: usize, j: usize) -> bool
    requires within { Within t.now i }
    requires within_2 { Within t.now j }
    ensures { result ≡ joins_of (server t.now i).log (server t.now j).log }
{
    let p = t.length(i);
    if p.0 == 0 {
        return true;
    }
    t.last(i) == t.entry(j, p)
}

// The log of server i is the beginning of that of server j.
pub fn is_prefix(t: &Table<'_>, i: usize, j: usize) -> bool
    requires within { Within t.now i }
    requires within_2 { Within t.now j }
    ensures { result ≡ prefix (server t.now i).log (server t.now j).log }
{
    let n = t.length(i);
    if t.length(j) < n {
        return false;
    }
    let mut ok = true;
    for k in 0..n.0 {
        let p = Position(k + 1);
        ok = ok & (t.entry(i, p) == t.entry(j, p));
    }
    ok
}
