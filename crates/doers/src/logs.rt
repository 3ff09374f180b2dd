// The actions on logs and marks.
ghost use Rattle.std.specs.Prelude.{◌≡◌, ℕ, ◌≤◌, ◌<◌, length};
ghost use Rattle.algorithm.specs.Table.{server, positions};
ghost use Rattle.algorithm.specs.Actions.{write_after, fetch_refusals, fetch_after, fetches, roll_back_after, commit_after};
ghost use Rattle.words.specs.Refusal.{first};
ghost use Rattle.table.specs.Layout.{table_in};
ghost use Rattle.table.specs.Slice.{Held, Holds, Within};

use algorithm::Position;
use table::Table;
use table::rows::{pop, push, put_mark};

pub fn write(t: &mut [u8], i: usize, bake: u32)
    requires held { Held t.old }
    requires within { Within (table_in t.old) i }
    requires i_len_bound { length (server (table_in t.old) i).log < positions }
    ensures { Holds t.new (write_after (table_in t.old) i bake) }
{
    let term = Table::of(t).term(i);
    push(t, i, term, bake);
}

pub fn fetch(t: &mut [u8], i: usize, j: usize)
    requires held { Held t.old }
    requires within { Within (table_in t.old) i }
    requires within_2 { Within (table_in t.old) j }
    requires i_len_bound { length (server (table_in t.old) i).log < positions }
    ensures { Holds t.new (fetch_after (table_in t.old) i j) }
{
    let table = Table::of(t);
    let next = Position(table.length(i).0 + 1);
    let entry = table.entry(j, next);
    let bake = table.bake(j, next);
    push(t, i, entry, bake);
}

// A taken fetch joins the logs, so that the next is taken as long as j's log is longer: only the first is judged.
pub fn stretch(t: &mut [u8], i: usize, j: usize, c: u16) -> u8
    requires held { Held t.old }
    requires within { Within (table_in t.old) i }
    requires within_2 { Within (table_in t.old) j }
    requires j_value { first (fetch_refusals (table_in t.old) i j) ≡ 0 }
    ensures { (result ≡ (fetches c (table_in t.old) i j).copied) × Holds t.new (fetches c (table_in t.old) i j).table }
{
    let table = Table::of(t);
    let left = table.length(j).0 - table.length(i).0;
    let n = c.min(left as u16) as u8;
    for _ in 0..n {
        fetch(t, i, j);
    }
    n
}

// Against whom i rolls back decides whether it may, and not what is left.
pub fn roll_back(t: &mut [u8], i: usize)
    requires held { Held t.old }
    requires within { Within (table_in t.old) i }
    requires in_bounds { 1 ≤ length (server (table_in t.old) i).log }
    ensures { (j : ℕ) → Holds t.new (roll_back_after (table_in t.old) i j) }
{
    pop(t, i);
}

// The set that i commits by decides whether it may, and not what is marked.
pub fn commit(t: &mut [u8], i: usize)
    requires held { Held t.old }
    requires within { Within (table_in t.old) i }
    requires in_bounds { 1 ≤ length (server (table_in t.old) i).log }
    ensures { (q : ℕ) → Holds t.new (commit_after (table_in t.old) i q) }
{
    let table = Table::of(t);
    let last = table.length(i);
    let term = table.term(i);
    put_mark(t, last, term);
}
