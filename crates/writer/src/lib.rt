// The writer of a table's image (image/specs/Image.antt): nothing is written before the table is known to be whole and the buffer to be long
// enough.
#![tactic(auto)]

ghost use Rattle.std.specs.Prelude.{◌≡◌, ◌+◌, ◌*◌, ◌≤◌, length};
ghost use mathlib.Core.List.{flatten};
ghost use Rattle.algorithm.specs.Table.{count};
ghost use Rattle.buffer.specs.Buffer.{Wrote, Room, Grew};
ghost use Rattle.image.specs.Contents.{first_body};
ghost use Rattle.image.specs.Image.{opening, bodies, contents, image};
ghost use Rattle.writer.specs.Writer.{Savable, image_of, write_result, write_bytes};

use crate::bodies::put_half;
use crate::saved::Saved;
use algorithm::Refused;
use buffer::Output;
use image::contents::first_body;
use whole::is_whole;

mod bodies;
mod saved;

// The length of the image.
fn image_length(t: &Saved<'_>) -> usize
    ensures { result ≡ length (image t.now) }
{
    let n = t.count();
    let mut at = first_body(n);
    for e in 0..=n {
        at += t.size_of(e);
    }
    at
}

fn put_opening(out: &mut Output<'_>, t: &Saved<'_>)
    requires { Room 8 out.old }
    ensures { Grew 8 out.old out.new (opening t.now) }
{
    out.put_word(b"SITE");
    out.put_word(&t.figures());
}

// For each body its entry: its offset, which is where the one before it ends, and its length.
fn put_contents(out: &mut Output<'_>, t: &Saved<'_>)
    requires { Room (4 * (count t.now + 1)) out.old }
    ensures { Grew (4 * (count t.now + 1)) out.old out.new (contents (first_body (count t.now)) (bodies t.now)) }
{
    let n = t.count();
    let mut at = first_body(n);
    for e in 0..=n {
        let size = t.size_of(e);
        put_half(out, at);
        put_half(out, size);
        at += size;
    }
}

// The bodies one behind another: who writes a body is lent the buffer from there on, and sees nothing before it.
fn put_bodies(out: &mut Output<'_>, t: &Saved<'_>)
    requires { Room (length (flatten (bodies t.now))) out.old }
    ensures { Grew (length (flatten (bodies t.now))) out.old out.new (flatten (bodies t.now)) }
{
    for e in 0..=t.count() {
        out.at += t.put_body(&mut out.buffer[out.at..], e);
    }
}

fn put_parts(buffer: &mut [u8], t: &Saved<'_>) -> usize
    requires { length (image t.now) ≤ length buffer.old }
    ensures { Wrote buffer.old buffer.new 0 (image t.now) result }
{
    let mut out = Output { buffer, at: 0 };
    put_opening(&mut out, t);
    put_contents(&mut out, t);
    put_bodies(&mut out, t);
    out.at
}

// The image, into a buffer that has room for it.
pub fn put_image(buffer: &mut [u8], t: &[u8]) -> usize
    requires savable { Savable t.now }
    requires t_in_bounds { length (image_of t.now) ≤ length buffer.old }
    ensures { Wrote buffer.old buffer.new 0 (image_of t.now) result }
{
    put_parts(buffer, &Saved::of(t))
}

// Writes the image of a table into a buffer, and tells where it ends. Refused, it does not touch the buffer.
#[tactic(auto, using(crate::proofs::WriteLaws::savable, crate::proofs::WriteLaws::written), unfolding(crate::specs::Writer::write_reply, words::specs::Refusal::first))]
pub fn write(table: &[u8], buffer: &mut [u8]) -> Result<usize, Refused>
    ensures reply { result ≡ write_result table.now buffer.old }
    ensures bytes { buffer.new ≡ write_bytes table.now buffer.old }
{
    if !is_whole(table) {
        return Err(Refused::Broken);
    }
    let saved = Saved::of(table);
    if buffer.len() < image_length(&saved) {
        return Err(Refused::NoRoom);
    }
    Ok(put_parts(buffer, &saved))
}
