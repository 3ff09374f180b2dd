// A slice filled with the table of an image that is judged already. Who reads a body is lent that body alone.
ghost use Rattle.std.specs.Prelude.{◌≡◌, [], ◌*◌, ◌≤◌, ◌<◌, length, replicate};
ghost use Rattle.algorithm.specs.Table.{server, with_marks, with_server, changed, with_log, positions, most_servers};
ghost use Rattle.table.specs.Slice.{figured, Holds, Held, Became, Within};
ghost use Rattle.table.specs.Layout.{table_bytes, table_in};
ghost use Rattle.image.specs.Contents.{count_in, marks_in, server_in, Named, Sized};
ghost use Rattle.reader.specs.Reader.{read_table, unread};

use algorithm::{Position, Term};
use image::bodies::{bake_in, body_of, entries_in, figures_of, term_in};
use image::contents::count_of;
use table::figures::Figures;
use table::rows::{push, put_config, put_mark, put_role, put_term};
use whole::fresh::fill_blank;
use words::word;

// The log of a body for server s, which has none yet.
fn put_log(t: &mut [u8], s: usize, b: &[u8], width: u8)
    requires held { Held t.old }
    requires within { Within (table_in t.old) s }
    requires s_value { (server (table_in t.old) s).log ≡ [] }
    requires sized { Sized width 1 b.now }
    ensures { Became t.old t.new (changed (table_in t.old) s (with_log (server_in width b.now).log)) }
{
    for k in 0..entries_in(b, width) {
        push(t, s, term_in(b, width, k), bake_in(b, width, k));
    }
}

fn put_figures(t: &mut [u8], s: usize, f: Figures)
    requires held { Held t.old }
    requires within { Within (table_in t.old) s }
    requires set_bound { f.set < 65536 }
    ensures { Became t.old t.new (with_server (table_in t.old) s (figured f (server (table_in t.old) s).log)) }
{
    put_role(t, s, f.role);
    put_term(t, s, f.term);
    put_config(t, s, f.set as u16, f.version, f.config);
}

fn put_server(t: &mut [u8], s: usize, b: &[u8], width: u8)
    requires held { Held t.old }
    requires within { Within (table_in t.old) s }
    requires s_value { (server (table_in t.old) s).log ≡ [] }
    requires sized { Sized width 1 b.now }
    ensures { Became t.old t.new (with_server (table_in t.old) s (server_in width b.now)) }
{
    // First the log: it asks that the server has none yet, which is known of the slice as it came.
    put_log(t, s, b, width);
    put_figures(t, s, figures_of(b));
}

// The marks of a body for a table that has none yet.
fn put_marks(t: &mut [u8], b: &[u8])
    requires held { Held t.old }
    requires t_value { (table_in t.old).marks ≡ replicate positions 0 }
    requires b_len_bound { length b.now ≤ 4 * positions }
    ensures { Became t.old t.new (with_marks (marks_in b.now) (table_in t.old)) }
{
    for k in 0..b.len() / 4 {
        put_mark(t, Position(k as u8 + 1), Term(word(b, k)));
    }
}

// All but the servers, of which nothing is known then.
fn fill_unread(t: &mut [u8], image: &[u8])
    requires t_len { length t.old ≡ table_bytes }
    requires image_bound { count_in image.now ≤ most_servers }
    requires named { Named image.now }
    ensures { Holds t.new (unread image.now) }
{
    fill_blank(t, image[4], image[6], image[7]);
    put_marks(t, body_of(image, 0));
}

fn fill_servers(t: &mut [u8], image: &[u8])
    requires holds { Holds t.old (unread image.now) }
    requires named { Named image.now }
    ensures { Holds t.new (read_table image.now) }
{
    for s in 1..=count_of(image) {
        put_server(t, s, body_of(image, s), image[5]);
    }
}

pub fn fill(t: &mut [u8], image: &[u8])
    requires t_len { length t.old ≡ table_bytes }
    requires image_bound { count_in image.now ≤ most_servers }
    requires named { Named image.now }
    ensures { Holds t.new (read_table image.now) }
{
    fill_unread(t, image);
    fill_servers(t, image);
}
