// The lines that rehearse prints, each put at the place of an output.
#![tactic(auto)]

mod parts;

ghost use Rattle.std.specs.Prelude.{◌+◌, ◌*◌};
ghost use mathlib.Core.List.{flatten};
ghost use Rattle.algorithm.specs.Table.{positions, most_servers};
ghost use Rattle.algorithm.specs.Run.{answer_in};
ghost use Rattle.report.specs.Lines.{replied_line, cut_line, bad_site_line, too_long_line, shown_row, marks_line, row_lines, table_lines, replied_room, row_room, table_room};
ghost use Rattle.buffer.specs.Buffer.{number_room, field_room, Room, Grew};

use crate::parts::{put_figures, put_head, put_marks, put_reply};
use buffer::Output;
use table::Table;
use table::rows::Row;

// Room for the line of a reply, for that of a cut and for all lines of a table (specs/Lines.antt).
pub const REPLIED: usize = 52;

pub const CUT: usize = 15;

pub const TABLE: usize = 2038;

// Action k has the reply that the eight bytes are.
pub fn replied_line(out: &mut Output<'_>, k: u32, r: &[u8; 8])
    requires { Room replied_room out.old }
    ensures { Grew replied_room out.old out.new (replied_line k (answer_in r.now)) }
{
    out.put_decimal(k);
    put_reply(out, r);
    out.put_byte(b'\n');
}

// The input ends inside action k.
pub fn cut_line(out: &mut Output<'_>, k: u32)
    requires { Room (number_room + 5) out.old }
    ensures { Grew (number_room + 5) out.old out.new (cut_line k) }
{
    out.put_decimal(k);
    out.put_word(b" cut\n");
}

// The reader refuses the image with the number r.
pub fn bad_site_line(out: &mut Output<'_>, r: u32)
    requires { Room (8 + field_room + 1) out.old }
    ensures { Grew (8 + field_room + 1) out.old out.new (bad_site_line r) }
{
    out.put_word(b"bad site");
    out.put_field(r);
    out.put_byte(b'\n');
}

pub fn too_long_line(out: &mut Output<'_>)
    requires { Room 9 out.old }
    ensures { Grew 9 out.old out.new too_long_line }
{
    out.put_word(b"too long\n");
}

// Server s has the figures a.
pub fn row_line(out: &mut Output<'_>, s: u8, a: Row)
    requires { Room row_room out.old }
    ensures { Grew row_room out.old out.new (shown_row s a) }
{
    put_head(out, s, a.figures.role);
    put_figures(out, a);
    out.put_byte(b'\n');
}

// The marks of the table.
pub fn marks_line(out: &mut Output<'_>, t: &Table<'_>)
    requires { Room (5 + field_room * positions + 1) out.old }
    ensures { Grew (5 + field_room * positions + 1) out.old out.new (marks_line t.now.marks) }
{
    out.put_word(b"marks");
    put_marks(out, t, t.marked());
    out.put_byte(b'\n');
}

fn put_rows(out: &mut Output<'_>, t: &Table<'_>)
    requires { Room (row_room * most_servers) out.old }
    ensures { Grew (row_room * most_servers) out.old out.new (flatten (row_lines t.now.servers)) }
{
    for s in 1..=t.count() {
        row_line(out, s, t.row(s as usize));
    }
}

// The rows and the marks of the table.
pub fn put_table(out: &mut Output<'_>, t: &Table<'_>)
    requires { Room table_room out.old }
    ensures { Grew table_room out.old out.new (flatten (table_lines t.now)) }
{
    put_rows(out, t);
    marks_line(out, t);
}
