// The bodies of an image, and whether their fields keep the rules. Who judges a body is lent that body alone: it
// sees nothing else. That the contents name the bodies is asked of the image (`Named`) and not kept in a struct: the
// struct would be built by who judges and again by who reads, and each contract would name its field in place of the fact.
ghost use Rattle.std.specs.Prelude.{◌≡◌, ◌+◌, ◌≤◌, ◌<◌, length};
ghost use Rattle.words.specs.Lists.{every, between};
ghost use Rattle.algorithm.specs.Table.{term_at, bake_at, ceiling};
ghost use Rattle.table.specs.Layout.{terms};
ghost use Rattle.table.specs.Slice.{figures_of};
ghost use Rattle.image.specs.Contents.{wide_in, figure_bytes, body, server_in, sound_marks_body, sound_server_body, sound_at, sound_bodies, Names, Named, Sized};

use crate::contents::{count_of, offset_of, stop_of};
use algorithm::{CEILING, Term, Version};
use table::figures::{Figures, figures_sound};
use words::{all_between, half, word};

pub fn body_of(image: &[u8], e: usize) -> &[u8]
    requires { Names image.now e }
    ensures { (result.now ≡ body image.now e) × Sized (wide_in image.now) e result.now }
{
    let at = offset_of(image, e);
    let stop = stop_of(image, e);
    &image[at..stop]
}

fn marks_sound(b: &[u8]) -> bool
    ensures { result ≡ sound_marks_body b.now }
{
    let n = b.len() / 4;
    if n == 0 {
        return true;
    }
    let ok = all_between(b, 0, n, 0, CEILING);
    let last = word(b, n - 1);
    ok & (1 <= last)
}

// The figures stand before the log, so they are read alike whatever its entries' width.
pub fn figures_of(b: &[u8]) -> Figures
    requires { figure_bytes ≤ length b.now }
    ensures { (result ≡ figures_of (server_in 0 b.now)) × (result.set < 65536) }
{
    Figures {
        role: u32::from(b[0]),
        term: Term(word(b, 1)),
        set: u32::from(half(b, 2)),
        version: Version(word(b, 2)),
        config: Term(word(b, 3)),
    }
}

// How many entries the log has. A body is lent without the image's opening, so the width of its entries comes beside it.
#[tactic(auto, using(crate::proofs::LogLaws::log_read))]
pub fn entries_in(b: &[u8], width: u8) -> usize
    requires { figure_bytes ≤ length b.now }
    ensures { result ≡ length (server_in width b.now).log }
{
    let words = b.len() / 4 - 4;
    if width == 0 {
        return words;
    }
    words / 2
}

// The term at position k + 1.
#[tactic(auto, using(crate::proofs::LogLaws::log_read))]
pub fn term_in(b: &[u8], width: u8, k: usize) -> Term
    requires { k < length (server_in width b.now).log }
    ensures { result.0 ≡ term_at (server_in width b.now).log (k + 1) }
{
    if width == 0 {
        return Term(word(b, 4 + k));
    }
    Term(word(b, 4 + 2 * k))
}

// The bake there, which stands behind its term or is 0.
#[tactic(auto, using(crate::proofs::LogLaws::log_read))]
pub fn bake_in(b: &[u8], width: u8, k: usize) -> u32
    requires { k < length (server_in width b.now).log }
    ensures { result ≡ bake_at (server_in width b.now).log (k + 1) }
{
    if width == 0 {
        return 0;
    }
    word(b, 4 + 2 * k + 1)
}

#[tactic(auto, using(crate::proofs::JoinedTests::each_term))]
fn terms_sound(b: &[u8], width: u8) -> bool
    requires { figure_bytes ≤ length b.now }
    ensures { result ≡ every (between 1 ceiling) (terms (server_in width b.now).log) }
{
    let n = entries_in(b, width);
    let mut ok = true;
    for k in 0..n {
        let v = term_in(b, width, k).0;
        ok &= (1 <= v) & (v <= CEILING);
    }
    ok
}

// A bake of four bytes is none too large.
fn server_sound(b: &[u8], n: u8, width: u8) -> bool
    requires { Sized width 1 b.now }
    ensures { result ≡ sound_server_body n width b.now }
{
    let spare = b[1];
    let figures = figures_sound(figures_of(b), n);
    let entries = terms_sound(b, width);
    (spare == 0) & figures & entries
}

fn body_sound(image: &[u8], e: usize) -> bool
    requires { Names image.now e }
    ensures { result ≡ sound_at image.now e }
{
    let b = body_of(image, e);
    if e == 0 {
        return marks_sound(b);
    }
    server_sound(b, image[4], image[5])
}

// Whether the fields of every body keep the rules.
#[tactic(auto, using(crate::proofs::JoinedTests::each_below), unfolding(crate::specs::Contents::sound_bodies))]
pub fn are_sound(image: &[u8]) -> bool
    requires { Named image.now }
    ensures { result ≡ sound_bodies image.now }
{
    let mut ok = true;
    for e in 0..=count_of(image) {
        ok &= body_sound(image, e);
    }
    ok
}
