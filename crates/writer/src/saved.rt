// A table that is saved: what its image tells of it, and its bodies.
ghost use Rattle.std.specs.Prelude.{◌≡◌, [], ◌∷◌, ◌+◌, ◌*◌, ◌≤◌, length};
ghost use Rattle.algorithm.specs.Table.{count, most_servers, positions};
ghost use Rattle.table.specs.Layout.{table_in};
ghost use Rattle.buffer.specs.Buffer.{Wrote};
ghost use Rattle.image.specs.Contents.{figure_bytes, entry_bytes};
ghost use Rattle.image.specs.Image.{wide, body_of};
ghost use Rattle.writer.specs.Writer.{Savable};

use crate::bodies::{put_marks, put_server, width_of};
use buffer::Output;
use image::contents::{FIGURE_BYTES, entry_bytes};
use std::marker::Model;
use table::Table;

// The slice of a table that may be saved, and the width of the entries in its image.
#[derive(Drop)]
pub struct Saved<'a> {
    bytes: &'a [u8],
    width: u8,
}

impl<'a> Model for Saved<'a> {
    ghost use Rattle.std.specs.Prelude.{◌≡◌};
    ghost use Rattle.algorithm.specs.Table.{Table};
    ghost use Rattle.table.specs.Layout.{table_in};
    ghost use Rattle.image.specs.Image.{wide};
    ghost use Rattle.writer.specs.Writer.{Savable};

    ghost Value = { Table };

    ghost view = { λ a. table_in a.bytes.now };

    ghost invariant = { λ a. Savable a.bytes.now × (a.width ≡ wide (table_in a.bytes.now)) };
}

impl<'a> Saved<'a> {
    pub(crate) fn of(bytes: &'a [u8]) -> Self
        requires { Savable bytes.now }
        ensures { result ≡ table_in bytes.now }
    {
        Saved {
            bytes,
            width: width_of(&Table::of(bytes)),
        }
    }

    // How many servers there are.
    pub(crate) fn count(&self) -> usize
        ensures { (result ≡ count self.now) × (result ≤ most_servers) }
    {
        Table::of(self.bytes).count() as usize
    }

    // The figures that an opening has behind its letters.
    pub(crate) fn figures(&self) -> [u8; 4]
        ensures { result ≡ count self.now ∷ wide self.now ∷ self.now.rule ∷ self.now.floor ∷ [] }
    {
        let t = Table::of(self.bytes);
        [t.count(), self.width, t.rule() as u8, t.floor() as u8]
    }

    // The length of body e: 0 is that of the marks, s that of server s.
    pub fn size_of(&self, e: usize) -> usize
        requires { e ≤ count self.now }
        ensures { (result ≡ length (body_of self.now e)) × (result ≤ figure_bytes + entry_bytes 1 * positions) }
    {
        let t = Table::of(self.bytes);
        if 1 <= e {
            return FIGURE_BYTES + entry_bytes(self.width) * (t.length(e).0 as usize);
        }
        4 * (t.marked() as usize)
    }

    // Body e, at the start of the part.
    pub fn put_body(&self, part: &mut [u8], e: usize) -> usize
        requires e_bound { e ≤ count self.now }
        requires e_in_bounds { length (body_of self.now e) ≤ length part.old }
        ensures { Wrote part.old part.new 0 (body_of self.now e) result }
    {
        let t = Table::of(self.bytes);
        let mut out = Output {
            buffer: part,
            at: 0,
        };
        if 1 <= e {
            put_server(&mut out, &t, e, self.width);
            return out.at;
        }
        put_marks(&mut out, &t);
        out.at
    }
}
