// The servers of a set that hold every entry marked with a server's term. The positions are gone through outside, the servers inside, and
// eight positions without such a mark are passed over at once: few positions carry one term.
ghost use Rattle.std.specs.Prelude.{◌≡◌, ◌+◌, ◌≤◌, length};
ghost use Rattle.members.specs.Members.{passing};
ghost use Rattle.algorithm.specs.Table.{count, server, positions};
ghost use Rattle.algorithm.specs.Actions.{same_term, some_marked, holds_committed};
ghost use Rattle.words.specs.Lists.{part};
ghost use Rattle.table.specs.Slice.{Within};
ghost use Rattle.questions.specs.Questions.{narrowed_at, narrowed_past};

use crate::shares::supporters;
use algorithm::Position;
use table::Table;

// One of the n positions past `from` is marked with the term of server i.
pub fn is_marked(t: &Table<'_>, i: usize, from: u8, n: u8) -> bool
    requires within { Within t.now i }
    requires n_bound { from + n ≤ positions }
    ensures value { result ≡ some_marked (part t.now.marks from n) (server t.now i).term }
    ensures marked { 1 ≤ n → length t.now.marks ≡ positions }
{
    let term = t.term(i);
    let mut some = false;
    for k in 0..n {
        some = (t.mark(Position(from + k + 1)) == term) | some;
    }
    some
}

// Those of q that have the term of server i and hold the entry at a position, if that is marked with the term.
fn narrowed_at(t: &Table<'_>, i: usize, q: u16, p: Position) -> u16
    requires within { Within t.now i }
    requires le_p { (1 ≤ p.0) × (p.0 ≤ positions) }
    ensures { result ≡ narrowed_at t.now i p.0 q }
{
    if t.mark(p) == t.term(i) {
        return supporters(t, i, q, p);
    }
    q
}

// The same at each of the eight positions past `from`.
fn narrowed(t: &Table<'_>, i: usize, q: u16, from: u8) -> u16
    requires within { Within t.now i }
    requires from_bound { from + 8 ≤ positions }
    ensures { result ≡ narrowed_past from 8 t.now i q }
{
    if !is_marked(t, i, from, 8) {
        return q;
    }
    let mut m = q;
    for k in 0..8 {
        m = narrowed_at(t, i, m, Position(from + k + 1));
    }
    m
}

// Of the members of its set that have the term of server i, those that hold every entry marked with it.
pub fn holding(t: &Table<'_>, i: usize, same: u16) -> u16
    requires within { Within t.now i }
    requires same_value { same ≡ passing (count t.now) (same_term t.now i) (server t.now i).config.set }
    ensures { result ≡ passing (count t.now) (holds_committed t.now i) (server t.now i).config.set }
{
    let mut m = same;
    for k in 0..8 {
        m = narrowed(t, i, m, 8 * k);
    }
    m
}
