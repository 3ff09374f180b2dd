// The bodies of a table's image, each put at the place of an output.
ghost use Rattle.std.specs.Prelude.{◌≡◌, [], ◌∷◌, ◌*◌, ◌<◌, length};
ghost use Rattle.words.specs.Lists.{every};
ghost use Rattle.words.specs.Words.{half, bytes};
ghost use Rattle.algorithm.specs.Table.{server};
ghost use Rattle.table.specs.Layout.{terms};
ghost use Rattle.table.specs.Slice.{figured, Within};
ghost use Rattle.buffer.specs.Buffer.{Room, Grew};
ghost use Rattle.image.specs.Contents.{figure_bytes, entry_bytes};
ghost use Rattle.image.specs.Image.{unbaked, wide, marks_body, baked_words, log_words, server_body};

use algorithm::Position;
use buffer::Output;
use table::Table;
use table::figures::Figures;
use words::all_between;

// Every bake of server s is 0.
fn is_unbaked(t: &Table<'_>, s: usize) -> bool
    requires within { Within t.now s }
    ensures { result ≡ unbaked (server t.now s) }
{
    let n = t.length(s).0 as usize;
    all_between(t.bakes(s), 0, n, 0, 0)
}

fn are_unbaked(t: &Table<'_>) -> bool
    ensures { result ≡ every unbaked t.now.servers }
{
    let mut unbaked = true;
    for s in 1..=t.count() {
        unbaked &= is_unbaked(t, s as usize);
    }
    unbaked
}

// The width of the entries in the image: 0 where every bake is 0, else 1.
#[tactic(auto, unfolding(image::specs::Image::wide))]
pub fn width_of(t: &Table<'_>) -> u8
    ensures { result ≡ wide t.now }
{
    if are_unbaked(t) {
        return 0;
    }
    1
}

// The two low bytes of a number.
pub fn put_half(out: &mut Output<'_>, v: usize)
    requires { Room 2 out.old }
    ensures { Grew 2 out.old out.new (half v) }
{
    out.put_word(&v.to_le_bytes()[..2]);
}

// A number in four bytes.
fn put_number(out: &mut Output<'_>, v: u32)
    requires { Room 4 out.old }
    ensures { Grew 4 out.old out.new (bytes (v ∷ [])) }
{
    out.put_word(&v.to_le_bytes());
}

// The figures of a server, all that its body has before its log. The role and the 0 behind it are one number of two bytes.
fn put_figures(out: &mut Output<'_>, f: Figures)
    requires role_bound { f.role < 256 }
    requires room { Room figure_bytes out.old }
    ensures { Grew figure_bytes out.old out.new (server_body 0 (figured f [])) }
{
    put_half(out, f.role as usize);
    put_half(out, f.set as usize);
    put_number(out, f.term.0);
    put_number(out, f.version.0);
    put_number(out, f.config.0);
}

// The entries of server s, of each its term and behind that its bake.
fn put_entries(out: &mut Output<'_>, t: &Table<'_>, s: usize)
    requires within { Within t.now s }
    requires room { Room (8 * length (server t.now s).log) out.old }
    ensures { Grew (8 * length (server t.now s).log) out.old out.new (bytes (baked_words (server t.now s).log)) }
{
    for p in 1..=t.length(s).0 {
        put_number(out, t.entry(s, Position(p)).0);
        put_number(out, t.bake(s, Position(p)));
    }
}

// The terms of server s stand in an image as they do in a table.
fn put_terms(out: &mut Output<'_>, t: &Table<'_>, s: usize)
    requires within { Within t.now s }
    requires room { Room (length (bytes (terms (server t.now s).log))) out.old }
    ensures { Grew (length (bytes (terms (server t.now s).log))) out.old out.new (bytes (terms (server t.now s).log)) }
{
    out.put_word(t.terms(s));
}

// The log of server s: its terms alone, or each with its bake.
fn put_log(out: &mut Output<'_>, t: &Table<'_>, s: usize, width: u8)
    requires within { Within t.now s }
    requires room { Room (entry_bytes width * length (server t.now s).log) out.old }
    ensures { Grew (entry_bytes width * length (server t.now s).log) out.old out.new (bytes (log_words width (server t.now s).log)) }
{
    if width == 0 {
        put_terms(out, t, s);
        return;
    }
    put_entries(out, t, s);
}

pub(crate) fn put_server(out: &mut Output<'_>, t: &Table<'_>, s: usize, width: u8)
    requires within { Within t.now s }
    requires role { (server t.now s).role < 256 }
    requires room { Room (length (server_body width (server t.now s))) out.old }
    ensures { Grew (length (server_body width (server t.now s))) out.old out.new (server_body width (server t.now s)) }
{
    put_figures(out, t.row(s).figures);
    put_log(out, t, s, width);
}

// The marks too stand in an image as they do in a table.
pub(crate) fn put_marks(out: &mut Output<'_>, t: &Table<'_>)
    requires { Room (length (marks_body t.now.marks)) out.old }
    ensures { Grew (length (marks_body t.now.marks)) out.old out.new (marks_body t.now.marks) }
{
    out.put_word(t.mark_bytes());
}
