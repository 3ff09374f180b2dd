// The members of a set that share what server i has.
ghost use Rattle.std.specs.Prelude.{◌≡◌, ◌≤◌};
ghost use Rattle.members.specs.Members.{passing};
ghost use Rattle.algorithm.specs.Table.{count, positions, most_servers};
ghost use Rattle.algorithm.specs.Actions.{supports_at};
ghost use Rattle.table.specs.Slice.{Within};
ghost use Rattle.questions.specs.Questions.{alike};

use algorithm::Position;
use comparisons::{same_config, same_term, supports};
use members::with_next;
use table::Table;

// Those with its version and configuration term, and those with its term.
#[derive(Clone, Copy)]
pub struct Shares {
    pub config: u16,
    pub term: u16,
}

pub fn sharing(t: &Table<'_>, i: usize, q: u16) -> Shares
    requires within { Within t.now i }
    ensures { result ≡ alike t.now i q (count t.now) }
{
    let mut config = 0;
    let mut term = 0;
    for k in 0..t.count() as usize {
        if (q >> k) % 2 == 1 {
            config = with_next(config, k, same_config(t, i, k + 1));
            term = with_next(term, k, same_term(t, i, k + 1));
        }
    }
    Shares { config, term }
}

// Those with its term, and an entry of it at a position.
pub fn supporters(t: &Table<'_>, i: usize, q: u16, p: Position) -> u16
    requires within { Within t.now i }
    requires p_le_positions { p.0 ≤ positions }
    ensures value { result ≡ passing (count t.now) (supports_at t.now i p.0) q }
    ensures few { count t.now ≤ most_servers }
{
    let mut all = 0;
    for k in 0..t.count() as usize {
        if (q >> k) % 2 == 1 {
            all = with_next(all, k, supports(t, i, k + 1, p));
        }
    }
    all
}
