// The rows of a table: their layout, and a server's figures and the marks put.
ghost use Rattle.std.specs.Prelude.{◌≤◌, ◌<◌, length};
ghost use Rattle.algorithm.specs.Table.{config_of, entry_of, server, changed, with_mark, with_role, with_term, with_config, with_entry, without_last, positions};
ghost use Rattle.table.specs.Layout.{table_in};
ghost use Rattle.table.specs.Slice.{Held, Became, Within};

use crate::figures::Figures;
use crate::view::Table;
use algorithm::{POSITIONS, Position, Term, Version};
use words::put;

// A server's figures, and of its log the length and the last entry's term, 0 where it is empty.
#[derive(Clone, Copy)]
pub struct Row {
    pub figures: Figures,
    pub length: Position,
    pub last: Term,
}

pub const ROW: usize = BAKES + ENTRIES;

// The places of a server's figures in its row, and of the first term and the first bake of its log: position p is p places after the
// length, and its bake p places after the last term. The marks stand in row 0 as terms do.
pub const ROLE: usize = 0;

pub const TERM: usize = 1;

pub const SET: usize = 2;

pub const VERSION: usize = 3;

pub const CONFIG: usize = 4;

pub const LENGTH: usize = 5;

pub const LOG: usize = 6;

pub const BAKES: usize = LOG + ENTRIES;

pub(crate) const LAST: usize = BAKES - 1;

// How many words of a row are for terms, and for bakes, or for marks.
pub const ENTRIES: usize = POSITIONS as usize;

// The places of the rule and of the floor in row 0, behind the number of servers.
pub const RULE: usize = 1;

pub const FLOOR: usize = 2;

pub fn put_role(t: &mut [u8], s: usize, v: u32)
    requires held { Held t.old }
    requires within { Within (table_in t.old) s }
    ensures { Became t.old t.new (changed (table_in t.old) s (with_role v)) }
{
    put(t, ROW * s + ROLE, v);
}

pub fn put_term(t: &mut [u8], s: usize, v: Term)
    requires held { Held t.old }
    requires within { Within (table_in t.old) s }
    ensures { Became t.old t.new (changed (table_in t.old) s (with_term v.0)) }
{
    put(t, ROW * s + TERM, v.0);
}

// Most callers have the three from different places, so a struct of them would be built to be taken apart.
pub fn put_config(t: &mut [u8], s: usize, set: u16, version: Version, config: Term)
    requires held { Held t.old }
    requires within { Within (table_in t.old) s }
    ensures { Became t.old t.new (changed (table_in t.old) s (with_config (config_of set version.0 config.0))) }
{
    let at = ROW * s;
    put(t, at + SET, set as u32);
    put(t, at + VERSION, version.0);
    put(t, at + CONFIG, config.0);
}

// An entry more at the end of the log of server s, which has room for it.
pub fn push(t: &mut [u8], s: usize, v: Term, bake: u32)
    requires held { Held t.old }
    requires within { Within (table_in t.old) s }
    requires s_len_bound { length (server (table_in t.old) s).log < positions }
    ensures { Became t.old t.new (changed (table_in t.old) s (with_entry (entry_of v.0 bake))) }
{
    let n = Table::of(t).length(s).0 as usize + 1;
    let at = ROW * s;
    put(t, at + LENGTH, n as u32);
    put(t, at + (LENGTH + n), v.0);
    put(t, at + (LAST + n), bake);
}

// The last entry of the log of server s goes.
pub fn pop(t: &mut [u8], s: usize)
    requires held { Held t.old }
    requires within { Within (table_in t.old) s }
    requires in_bounds { 1 ≤ length (server (table_in t.old) s).log }
    ensures { Became t.old t.new (changed (table_in t.old) s without_last) }
{
    let n = Table::of(t).length(s).0 as usize;
    let at = ROW * s;
    put(t, at + LENGTH, n as u32 - 1);
    put(t, at + (LENGTH + n), 0);
    put(t, at + (LAST + n), 0);
}

pub fn put_mark(t: &mut [u8], p: Position, v: Term)
    requires held { Held t.old }
    requires le_p { (1 ≤ p.0) × (p.0 ≤ positions) }
    ensures { Became t.old t.new (with_mark (table_in t.old) p.0 v.0) }
{
    put(t, LENGTH + p.0 as usize, v.0);
}
