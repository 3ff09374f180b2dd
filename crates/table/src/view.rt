// A table read: a server's figures, and the marks.
ghost use Rattle.std.specs.Prelude.{◌≡◌, ◌+◌, ◌*◌, ◌≤◌, ◌<◌, length, get_or};
ghost use Rattle.words.specs.Lists.{part};
ghost use Rattle.words.specs.Words.{words, bytes};
ghost use Rattle.algorithm.specs.Table.{count, server, term_at, bake_at, mark, trimmed, positions, most_servers, last};
ghost use Rattle.table.specs.Layout.{row_words, table_bytes, terms, bakes, row, table_in};
ghost use Rattle.table.specs.Slice.{Held, Roomy, Within, seen};

use crate::figures::Figures;
use crate::rows::{
    BAKES, CONFIG, FLOOR, LAST, LENGTH, LOG, ROLE, ROW, RULE, Row, SET, TERM, VERSION,
};
use algorithm::{POSITIONS, Position, Term, Version};
use std::marker::Model;
use words::word;

// A table in a lent slice, for who reads it: the contracts of what reads speak of the table alone. Who puts figures is lent the slice itself,
// and asks that it holds a table: a struct with a slice to write to might come back with another one, so that every contract would have to
// say beside its promise that the slice is the same. `Within` stays beside a server's number: a struct of table and number would need, of
// any two of them, the clause that their tables are one.
#[derive(Drop)]
pub struct Table<'a> {
    bytes: &'a [u8],
}

impl<'a> Model for Table<'a> {
    ghost use Rattle.algorithm.specs.Table.{Table};
    ghost use Rattle.table.specs.Layout.{table_in};
    ghost use Rattle.table.specs.Slice.{Held};

    ghost Value = { Table };

    ghost view = { λ a. table_in a.bytes.now };

    ghost invariant = { λ a. Held a.bytes.now };
}

// The n words from word k on, as they stand in the slice.
fn words_from(t: &[u8], k: usize, n: usize) -> &[u8]
    requires t_len { length t.now ≡ table_bytes }
    requires n_bound { 4 * (k + n) ≤ table_bytes }
    ensures bytes { result.now ≡ bytes (part (words t.now) k n) }
    ensures words { words result.now ≡ part (words t.now) k n }
    ensures sized { length result.now ≡ 4 * n }
{
    let from = 4 * k;
    let to = from + 4 * n;
    &t[from..to]
}

impl<'a> Table<'a> {
    pub fn of(bytes: &'a [u8]) -> Self
        requires { Held bytes.now }
        ensures { result ≡ table_in bytes.now }
    {
        Table { bytes }
    }

    // How many servers there are.
    pub fn count(&self) -> u8
        ensures value { result ≡ count self.now }
        ensures few { result ≤ most_servers }
    {
        word(self.bytes, 0) as u8
    }

    // The rule: 0 for rule 1, 1 for rule 2.
    pub fn rule(&self) -> u32
        ensures { result ≡ self.now.rule }
    {
        word(self.bytes, RULE)
    }

    // The floor: the least number of members that a new set may have.
    pub fn floor(&self) -> u32
        ensures { result ≡ self.now.floor }
    {
        word(self.bytes, FLOOR)
    }

    // Word f of the row of server s; who reads a figure gives it its type.
    fn field(&self, s: usize, f: usize) -> u32
        requires within { Within self.now s }
        requires f_lt_row_words { f < row_words }
        ensures value { result ≡ get_or (row (server self.now s)) f 0 }
        ensures room { Roomy (server self.now s) }
    {
        word(self.bytes, ROW * s + f)
    }

    pub fn role(&self, s: usize) -> u32
        requires within { Within self.now s }
        ensures { result ≡ (server self.now s).role }
    {
        self.field(s, ROLE)
    }

    pub fn term(&self, s: usize) -> Term
        requires within { Within self.now s }
        ensures { result.0 ≡ (server self.now s).term }
    {
        Term(self.field(s, TERM))
    }

    pub fn set(&self, s: usize) -> u16
        requires within { Within self.now s }
        ensures { result ≡ (server self.now s).config.set }
    {
        self.field(s, SET) as u16
    }

    pub fn version(&self, s: usize) -> Version
        requires within { Within self.now s }
        ensures { result.0 ≡ (server self.now s).config.version }
    {
        Version(self.field(s, VERSION))
    }

    // The configuration term.
    pub fn config(&self, s: usize) -> Term
        requires within { Within self.now s }
        ensures { result.0 ≡ (server self.now s).config.term }
    {
        Term(self.field(s, CONFIG))
    }

    pub fn length(&self, s: usize) -> Position
        requires within { Within self.now s }
        ensures { (result.0 ≡ length (server self.now s).log) × (result.0 ≤ positions) }
    {
        Position(self.field(s, LENGTH) as u8)
    }

    pub fn row(&self, s: usize) -> Row
        requires within { Within self.now s }
        ensures { (result ≡ seen (server self.now s)) × (result.figures.set < 65536) }
    {
        let n = self.length(s);
        let figures = Figures {
            role: self.role(s),
            term: self.term(s),
            set: self.set(s) as u32,
            version: self.version(s),
            config: self.config(s),
        };
        Row {
            figures: figures,
            length: n,
            last: Term(self.field(s, LENGTH + n.0 as usize)),
        }
    }

    // The term of the log's last entry; for an empty log the definition has 0.
    pub fn last(&self, s: usize) -> Term
        requires within { Within self.now s }
        ensures { result.0 ≡ last (server self.now s).log }
    {
        self.row(s).last
    }

    // The term of server s's entry at a position; for none the definition has 0, and so it has for a bake and a mark.
    pub fn entry(&self, s: usize, p: Position) -> Term
        requires within { Within self.now s }
        requires le_p { (1 ≤ p.0) × (p.0 ≤ positions) }
        ensures { result.0 ≡ term_at (server self.now s).log p.0 }
    {
        Term(self.field(s, LENGTH + p.0 as usize))
    }

    // The bake that this entry names.
    pub fn bake(&self, s: usize, p: Position) -> u32
        requires within { Within self.now s }
        requires le_p { (1 ≤ p.0) × (p.0 ≤ positions) }
        ensures { result ≡ bake_at (server self.now s).log p.0 }
    {
        self.field(s, LAST + p.0 as usize)
    }

    // The term committed at a position.
    pub fn mark(&self, p: Position) -> Term
        requires le_p { (1 ≤ p.0) × (p.0 ≤ positions) }
        ensures value { result.0 ≡ mark self.now p.0 }
        ensures marked { length self.now.marks ≡ positions }
    {
        Term(word(self.bytes, LENGTH + p.0 as usize))
    }

    // How many marks an image and a report show: zeros at the end are left out, but may stand between others, so the search begins there.
    pub fn marked(&self) -> u8
        ensures value { result ≡ length (trimmed self.now.marks) }
        ensures few { result ≤ positions }
    {
        for n in (1..=POSITIONS).rev() {
            if word(self.bytes, LENGTH + n as usize) != 0 {
                return n;
            }
        }
        0
    }

    // The terms of server s's log, four bytes each, as they stand in the slice.
    pub fn terms(&self, s: usize) -> &[u8]
        requires within { Within self.now s }
        ensures { result.now ≡ bytes (terms (server self.now s).log) }
    {
        words_from(self.bytes, ROW * s + LOG, self.length(s).0 as usize)
    }

    // Its bakes, likewise.
    pub fn bakes(&self, s: usize) -> &[u8]
        requires within { Within self.now s }
        ensures bytes { result.now ≡ bytes (bakes (server self.now s).log) }
        ensures words { words result.now ≡ bakes (server self.now s).log }
        ensures sized { length result.now ≡ 4 * length (server self.now s).log }
    {
        words_from(self.bytes, ROW * s + BAKES, self.length(s).0 as usize)
    }

    // The marks through the last that is not 0, likewise.
    pub fn mark_bytes(&self) -> &[u8]
        ensures bytes { result.now ≡ bytes (trimmed self.now.marks) }
        ensures few { length result.now ≤ 4 * positions }
    {
        words_from(self.bytes, LOG, self.marked() as usize)
    }
}
