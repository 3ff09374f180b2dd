// The parts that single lines have: a reply, the head and the figures of a row, the marks.
ghost use Rattle.std.specs.Prelude.{◌++◌, ◌+◌, ◌*◌, ◌≤◌, take};
ghost use Rattle.algorithm.specs.Table.{positions};
ghost use Rattle.algorithm.specs.Run.{answer_in};
ghost use Rattle.buffer.specs.Buffer.{text, field, field_room, fields, Room, Grew};
ghost use Rattle.report.specs.Lines.{pair, beside, reply, reply_room, letter, figures, copies};

use algorithm::{PRIMARY, Position};
use buffer::Output;
use table::Table;
use table::rows::Row;
use words::half;

// The two majorities that the eight bytes of a reply show, if they do.
fn put_pair(out: &mut Output<'_>, r: &[u8; 8])
    requires { Room (2 * field_room) out.old }
    ensures { Grew (2 * field_room) out.old out.new (pair (answer_in r.now).shown) }
{
    let old = half(r, 4);
    if old == 0 {
        return;
    }
    out.put_field(old as u32);
    out.put_field(half(r, 6) as u32);
}

// The server that stands in the way, if the eight bytes of a reply show one; else two majorities, if they do.
fn put_beside(out: &mut Output<'_>, r: &[u8; 8])
    requires { Room (2 * field_room) out.old }
    ensures { Grew (2 * field_room) out.old out.new (beside (answer_in r.now).shown) }
{
    let server = u32::from(r[1]);
    if server == 0 {
        put_pair(out, r);
        return;
    }
    out.put_word(b" at");
    out.put_field(server);
}

// How many entries the eight bytes of a reply say were copied, if some were.
fn put_copies(out: &mut Output<'_>, r: &[u8; 8])
    requires { Room field_room out.old }
    ensures { Grew field_room out.old out.new (copies (answer_in r.now).shown) }
{
    let copied = u32::from(r[2]);
    if copied == 0 {
        return;
    }
    out.put_field(copied);
}

// A reply by its eight bytes.
pub(crate) fn put_reply(out: &mut Output<'_>, r: &[u8; 8])
    requires { Room reply_room out.old }
    ensures { Grew reply_room out.old out.new (reply (answer_in r.now)) }
{
    let number = u32::from(r[0]);
    if number == 0 {
        out.put_word(b" taken");
        put_copies(out, r);
        return;
    }
    out.put_word(b" refused");
    out.put_field(number);
    put_beside(out, r);
}

fn put_role(out: &mut Output<'_>, role: u32)
    requires { Room 2 out.old }
    ensures { Grew 2 out.old out.new (letter role) }
{
    if role == PRIMARY {
        out.put_word(b" P");
        return;
    }
    out.put_word(b" S");
}

pub(crate) fn put_head(out: &mut Output<'_>, s: u8, role: u32)
    requires { Room (5 + field_room) out.old }
    ensures { Grew (5 + field_room) out.old out.new (text "row" ++ field s ++ letter role) }
{
    out.put_word(b"row");
    out.put_field(s as u32);
    put_role(out, role);
}

pub(crate) fn put_figures(out: &mut Output<'_>, a: Row)
    requires { Room (6 * field_room) out.old }
    ensures { Grew (6 * field_room) out.old out.new (fields (figures a)) }
{
    let f = a.figures;
    out.put_field(f.term.0);
    out.put_field(f.set);
    out.put_field(f.version.0);
    out.put_field(f.config.0);
    out.put_field(a.length.0 as u32);
    out.put_field(a.last.0);
}

// The first n marks.
pub(crate) fn put_marks(out: &mut Output<'_>, t: &Table<'_>, n: u8)
    requires n_le_positions { n ≤ positions }
    requires room { Room (field_room * positions) out.old }
    ensures { Grew (field_room * positions) out.old out.new (fields (take n t.now.marks)) }
{
    for k in 1..=n {
        out.put_field(t.mark(Position(k)).0);
    }
}
