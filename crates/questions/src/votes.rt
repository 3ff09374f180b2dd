// What the members of a set have against an election.
ghost use Rattle.std.specs.Prelude.{◌≡◌, ◌≤◌};
ghost use Rattle.algorithm.specs.Table.{count, most_servers};
ghost use Rattle.table.specs.Slice.{Within};
ghost use Rattle.questions.specs.Questions.{objecting};

use comparisons::{larger_term, log_ahead, newer_config};
use members::with_next;
use table::Table;

// Those with a larger term, those with a newer configuration, those whose log is ahead.
#[derive(Clone, Copy)]
pub struct Objections {
    pub larger: u16,
    pub newer: u16,
    pub ahead: u16,
}

pub fn poll(t: &Table<'_>, i: usize, q: u16) -> Objections
    requires within { Within t.now i }
    ensures value { result ≡ objecting t.now i q (count t.now) }
    ensures few { count t.now ≤ most_servers }
{
    let mut larger = 0;
    let mut newer = 0;
    let mut ahead = 0;
    for k in 0..t.count() as usize {
        if (q >> k) % 2 == 1 {
            larger = with_next(larger, k, larger_term(t, i, k + 1));
            newer = with_next(newer, k, newer_config(t, i, k + 1));
            ahead = with_next(ahead, k, log_ahead(t, i, k + 1));
        }
    }
    Objections {
        larger,
        newer,
        ahead,
    }
}
