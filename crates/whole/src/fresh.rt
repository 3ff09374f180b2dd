// A slice filled with a new table.
ghost use Rattle.std.specs.Prelude.{◌≡◌, ◌≤◌, length, replicate};
ghost use Rattle.algorithm.specs.Table.{absent, with_servers, fresh_server, fresh, most_servers};
ghost use Rattle.table.specs.Layout.{table_bytes, stored, table_in};
ghost use Rattle.table.specs.Slice.{Holds, Held, blank};

use algorithm::{Term, Version};
use table::rows::{FLOOR, RULE, put_config};
use words::put;

// A table of n servers of which nothing is known yet, for a reader to fill.
pub fn fill_blank(t: &mut [u8], n: u8, rule: u8, floor: u8)
    requires { (length t.old ≡ table_bytes) × (n ≤ most_servers) }
    ensures { Holds t.new (blank n rule floor) }
{
    t.fill(0);
    put(t, 0, n as u32);
    put(t, RULE, rule as u32);
    put(t, FLOOR, floor as u32);
}

// Gives the blank servers one set, and so a configuration.
fn give_set(t: &mut [u8], n: u8, set: u16)
    requires held { Held t.old }
    requires t_value { (table_in t.old).servers ≡ replicate n absent }
    ensures { Holds t.new (with_servers (replicate n (fresh_server set)) (table_in t.old)) }
{
    for k in 0..n as usize {
        put_config(t, k + 1, set, Version(1), Term(0));
    }
}

// A fresh table of n servers with one set, under a rule and with a floor.
pub fn fill_fresh(t: &mut [u8], n: u8, set: u16, rule: u8, floor: u8)
    requires { (length t.old ≡ table_bytes) × (n ≤ most_servers) }
    ensures { t.new ≡ stored (fresh n set rule floor) }
{
    fill_blank(t, n, rule, floor);
    give_set(t, n, set);
}
