// The actions on roles, terms and configurations.
ghost use Rattle.std.specs.Prelude.{◌≡◌, true, ◌<◌};
ghost use Rattle.members.specs.Members.{within};
ghost use Rattle.algorithm.specs.Table.{count, server, changed, with_role, with_term, ceiling};
ghost use Rattle.algorithm.specs.Actions.{stepped_down, voted, elect_after, reconfigure_after, send_after, spread_after};
ghost use Rattle.table.specs.Layout.{table_in};
ghost use Rattle.table.specs.Slice.{Holds, Held, Became, Within};

use algorithm::{PRIMARY, SECONDARY, SERVERS, Term, Version};
use members::is_member;
use table::Table;
use table::rows::{put_config, put_role, put_term};

fn put_standing(t: &mut [u8], s: usize, role: u32, term: Term)
    requires held { Held t.old }
    requires within { Within (table_in t.old) s }
    ensures { Became t.old t.new (changed (table_in t.old) s (λ a. with_role role (with_term term.0 a))) }
{
    put_term(t, s, term);
    put_role(t, s, role);
}

// Who hears of a larger term and who votes does the same.
fn step_down(t: &mut [u8], s: usize, term: Term)
    requires held { Held t.old }
    requires within { Within (table_in t.old) s }
    ensures { Became t.old t.new (changed (table_in t.old) s (stepped_down term.0)) }
{
    put_standing(t, s, SECONDARY, term);
}

fn vote(t: &mut [u8], q: u16, term: Term)
    requires { Held t.old }
    ensures { Became t.old t.new (voted (table_in t.old) q term.0) }
{
    // A table has no more servers than that; said here, it spares the loop a test for each.
    let count = (Table::of(t).count() as usize).min(SERVERS as usize);
    // A range that includes its end would leave the loop at two places, and what stands then be proved at each.
    for s in 1..count + 1 {
        if is_member(s, q) {
            step_down(t, s, term);
        }
    }
}

// The winner votes too and is put after the voters, so that it is primary in the end.
pub fn elect(t: &mut [u8], i: usize, q: u16)
    requires held { Held t.old }
    requires within { Within (table_in t.old) i }
    requires i_bound { (server (table_in t.old) i).term < ceiling }
    requires t_value { within q (count (table_in t.old)) ≡ true }
    ensures { Holds t.new (elect_after (table_in t.old) i q) }
{
    let table = Table::of(t);
    let term = Term(table.term(i).0 + 1);
    let set = table.set(i);
    let version = table.version(i);
    vote(t, q, term);
    put_standing(t, i, PRIMARY, term);
    put_config(t, i, set, version, term);
}

pub fn reconfigure(t: &mut [u8], i: usize, m: u16)
    requires held { Held t.old }
    requires within { Within (table_in t.old) i }
    requires i_bound { (server (table_in t.old) i).config.version < ceiling }
    ensures { Holds t.new (reconfigure_after (table_in t.old) i m) }
{
    let table = Table::of(t);
    let version = Version(table.version(i).0 + 1);
    let config = table.config(i);
    put_config(t, i, m, version, config);
}

pub fn send(t: &mut [u8], i: usize, j: usize)
    requires held { Held t.old }
    requires within { Within (table_in t.old) i }
    requires within_2 { Within (table_in t.old) j }
    ensures { Holds t.new (send_after (table_in t.old) i j) }
{
    let table = Table::of(t);
    let set = table.set(i);
    let version = table.version(i);
    let config = table.config(i);
    put_config(t, j, set, version, config);
}

pub fn spread(t: &mut [u8], i: usize, j: usize)
    requires held { Held t.old }
    requires within { Within (table_in t.old) i }
    requires within_2 { Within (table_in t.old) j }
    ensures { Holds t.new (spread_after (table_in t.old) i j) }
{
    let term = Table::of(t).term(i);
    step_down(t, j, term);
}
