// What the programs make of an input, put at the start of a lent buffer: what stands in it, and in which order, is a function of the input.
#![tactic(auto)]

pub mod input;

ghost use Rattle.std.specs.Prelude.{◌≡◌, ◌+◌, ◌*◌, ◌/◌, ◌≤◌, length};
ghost use mathlib.Core.List.{map, flatten};
ghost use Rattle.algorithm.specs.Run.{answer_in, run};
ghost use Rattle.table.specs.Layout.{table_bytes, table_in};
ghost use Rattle.engine.specs.Engine.{Ready};
ghost use Rattle.image.specs.Image.{image, longest_image};
ghost use Rattle.buffer.specs.Buffer.{number_room, field_room, Wrote, Room, Grew};
ghost use Rattle.report.specs.Lines.{replied_lines, cut_lines, played_lines, replied_room};
ghost use Rattle.rehearsal.specs.Programs.{longest, printed, OpenAnswer, SaveAnswer};

use buffer::Output;
use engine::run;
use reader::read;
use report::{
    CUT, REPLIED, TABLE, bad_site_line, cut_line, put_table, replied_line, too_long_line,
};
use table::{BYTES, Table};
use walk::{Found, Walk};
use writer::put_image;

// The longest input, and the most pieces of 8 bytes that it has.
pub const MOST: usize = 65536;

const PIECES: usize = MOST / 8;

// Room for their replies, of 8 bytes each.
const REPLIES: usize = 8 * PIECES;

// Room for all that rehearse prints: a reply for each piece, a cut, a table.
pub const ROOM: usize = REPLIED * PIECES + CUT + TABLE;

// Room for all that save writes: the longest image (image/specs/Image.antt).
pub const IMAGE: usize = 8780;

// Replies, each under its action's number.
fn put_replies(out: &mut Output<'_>, replies: &[[u8; 8]])
    requires few { 8 * length replies.now ≤ longest }
    requires room { Room (replied_room * length replies.now) out.old }
    ensures { Grew (replied_room * length replies.now) out.old out.new (flatten (replied_lines (map answer_in replies.now))) }
{
    for (k, r) in replies.iter().enumerate() {
        replied_line(out, k as u32 + 1, r);
    }
}

// What stands behind the n whole actions, if anything does, is told under the next number.
fn put_cut(out: &mut Output<'_>, actions: &[u8], n: usize)
    requires n_value { (n ≡ length actions.now / 8) × (length actions.now ≤ longest) }
    requires room { Room (number_room + 5) out.old }
    ensures { Grew (number_room + 5) out.old out.new (flatten (cut_lines actions.now)) }
{
    match Walk::from(actions, 8 * n).found() {
        Found::Cut(_) => cut_line(out, n as u32 + 1),
        Found::Action(_) | Found::End => {}
    }
}

// The whole actions are played first, and then told: nothing but the engine's run plays an action.
fn put_played(out: &mut Output<'_>, t: &mut [u8], actions: &[u8], replies: &mut [u8])
    requires ready { Ready t.old }
    requires replies_len { length replies.old ≡ longest }
    requires actions_len_bound { length actions.now ≤ longest }
    requires room { Room ROOM out.old }
    ensures { Grew ROOM out.old out.new (flatten (played_lines (table_in t.old) actions.now)) }
{
    let whole = actions.len() - actions.len() % 8;
    let n = run(t, &actions[..whole], replies);
    let (eights, _) = replies.as_chunks::<8>();
    put_replies(out, &eights[..n]);
    put_cut(out, actions, n);
    put_table(out, &Table::of(t));
}

// All pieces are played, and the image of the table that is left is put: a last piece that is cut is refused and alters nothing.
fn put_left(buffer: &mut [u8], t: &mut [u8], actions: &[u8], replies: &mut [u8]) -> usize
    requires ready { Ready t.old }
    requires replies_len { length replies.old ≡ longest }
    requires actions_len_bound { length actions.now ≤ longest }
    requires longest_image_in_bounds { longest_image ≤ length buffer.old }
    ensures { Wrote buffer.old buffer.new 0 (image (run (table_in t.old) actions.now).table) result }
{
    run(t, actions, replies);
    put_image(buffer, t)
}

// Reads the table of an input into t, and answers where the actions begin. Of an input that is not played, why is put out, and where that ends
// is answered.
fn open_input(input: &[u8], t: &mut [u8], out: &mut Output<'_>) -> Result<usize, usize>
    requires t_len { length t.old ≡ table_bytes }
    requires room { Room (8 + field_room + 1) out.old }
    ensures { OpenAnswer input.now out.old out.new t.new result }
{
    if MOST < input.len() {
        too_long_line(out);
        return Err(out.at);
    }
    // After a `map_err` it is not known that nothing was put out where the table was read.
    match read(input, t) {
        Ok(at) => Ok(at),
        Err(refused) => {
            bad_site_line(out, refused.number() as u32);
            Err(out.at)
        }
    }
}

// Puts what is to be printed of an input into a buffer, and answers how many bytes that is.
pub fn rehearse(input: &[u8], buffer: &mut [u8]) -> usize
    requires { ROOM ≤ length buffer.old }
    ensures { Wrote buffer.old buffer.new 0 (printed input.now) result }
{
    let mut t = [0u8; BYTES];
    let mut replies = [0u8; REPLIES];
    let mut out = Output { buffer, at: 0 };
    match open_input(input, &mut t, &mut out) {
        Ok(at) => {
            put_played(&mut out, &mut t, &input[at..], &mut replies);
            out.at
        }
        Err(n) => n,
    }
}

// Puts what is to be written of an input into a buffer, and answers how many bytes that is: an image for standard output, or else words for
// standard error.
pub fn save(input: &[u8], buffer: &mut [u8]) -> Result<usize, usize>
    requires { IMAGE ≤ length buffer.old }
    ensures { SaveAnswer input.now buffer.old result buffer.new }
{
    let mut t = [0u8; BYTES];
    let mut replies = [0u8; REPLIES];
    let mut out = Output { buffer, at: 0 };
    let at = open_input(input, &mut t, &mut out)?;
    Ok(put_left(out.buffer, &mut t, &input[at..], &mut replies))
}
