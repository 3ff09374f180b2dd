// An action read from its bytes, once: what is asked of a table of n servers, or why the bytes ask for nothing.
#![tactic(auto)]

ghost use Rattle.std.specs.Prelude.{◌≡◌, length};
ghost use Rattle.algorithm.specs.Bytes.{bake_of, uses_set, set_fits, uses_j};
ghost use Rattle.algorithm.specs.Run.{known, verdict_of};
ghost use Rattle.words.specs.Refusal.{given};
ghost use Rattle.form.specs.Form.{fields_of, refusals_of, eight_refusals, asks, action_by, form_by, form_of};

use algorithm::{POSITIONS, Refused};
use members::is_within;
use words::{half, word};

// The nine actions, as documents 01 and 02 name them: server i, and behind it server j or the set; a write has its bake, a stretch j and its count.
#[derive(Clone, Copy)]
pub enum Asked {
    Elect(usize, u16),
    Reconfigure(usize, u16),
    Send(usize, usize),
    Spread(usize, usize),
    Write(usize, u32),
    Fetch(usize, usize),
    RollBack(usize, usize),
    Commit(usize, u16),
    Stretch(usize, usize, u16),
}

// The bytes by their places: the two of the set are the first two of the bake, and no kind uses both; `stray` tells whether one of the zero bytes
// is not 0.
#[derive(Clone, Copy)]
struct Fields {
    kind: u8,
    i: u8,
    j: u8,
    set: u16,
    bake: u32,
    stray: bool,
}

fn bake_in(a: &[u8]) -> u32
    requires { length a.now ≡ 8 }
    ensures { result ≡ bake_of a.now }
{
    word(a, 1)
}

fn fields_in(a: &[u8]) -> Fields
    requires { length a.now ≡ 8 }
    ensures { result ≡ fields_of a.now }
{
    let set = half(a, 4);
    let bake = bake_in(a);
    Fields {
        kind: a[0],
        i: a[1],
        j: a[2],
        set,
        bake,
        stray: (a[3] != 0) | ((a[0] != 5) & ((a[6] != 0) | (a[7] != 0))),
    }
}

fn is_known(n: u8, i: u8) -> bool
    ensures { result ≡ known n i }
{
    (1 <= i) & (i <= n)
}

// The bytes of the set are the count of a stretch.
fn set_fits(n: u8, kind: u8, m: u16) -> bool
    ensures { result ≡ set_fits n kind m }
{
    if kind == 9 {
        return (1 <= m) & (m <= POSITIONS as u16);
    }
    is_within(m as u32, n)
}

// Refusals 3 to 5 of a kind that uses two servers, or a set, or neither; a write has its bake where others have a set.
fn judge_fields(n: u8, f: Fields, two: bool, set: bool) -> Result<(), Refused>
    requires two_value { two ≡ uses_j f.kind }
    requires set_value { set ≡ uses_set f.kind }
    ensures { result ≡ verdict_of (given (refusals_of n f)) }
{
    if f.stray | (!two & (f.j != 0)) | (!(set | (f.kind == 5)) & (f.set != 0)) {
        return Err(Refused::Stray);
    }
    if !is_known(n, f.i) | (two & !is_known(n, f.j)) {
        return Err(Refused::NoServer);
    }
    if set & !set_fits(n, f.kind, f.set) {
        return Err(Refused::NoSet);
    }
    Ok(())
}

// x is asked, unless a field speaks against it.
fn unless_refused(n: u8, f: Fields, two: bool, set: bool, x: Asked) -> Result<Asked, Refused>
    requires two_value { two ≡ uses_j f.kind }
    requires set_value { set ≡ uses_set f.kind }
    ensures { result ≡ form_by (refusals_of n f) (Ok x) }
{
    judge_fields(n, f, two, set)?;
    Ok(x)
}

// The kind is looked at first, so that each is judged by no more than the fields that it has.
fn by_kind(n: u8, f: Fields) -> Result<Asked, Refused>
    ensures { result ≡ form_by (eight_refusals n f) (asks (action_by f)) }
{
    let kind = f.kind;
    let i = f.i as usize;
    let j = f.j as usize;
    let m = f.set;
    let b = f.bake;
    match kind {
        1 => unless_refused(n, f, false, true, Asked::Elect(i, m)),
        2 => unless_refused(n, f, false, true, Asked::Reconfigure(i, m)),
        3 => unless_refused(n, f, true, false, Asked::Send(i, j)),
        4 => unless_refused(n, f, true, false, Asked::Spread(i, j)),
        5 => unless_refused(n, f, false, false, Asked::Write(i, b)),
        6 => unless_refused(n, f, true, false, Asked::Fetch(i, j)),
        7 => unless_refused(n, f, true, false, Asked::RollBack(i, j)),
        8 => unless_refused(n, f, false, true, Asked::Commit(i, m)),
        9 => unless_refused(n, f, true, true, Asked::Stretch(i, j, m)),
        _ => Err(Refused::Unknown),
    }
}

// What the bytes ask, or the first of refusals 2 to 5.
pub fn read_action(n: u8, a: &[u8]) -> Result<Asked, Refused>
    ensures { result ≡ form_of n a.now }
{
    if a.len() != 8 {
        return Err(Refused::Unknown);
    }
    by_kind(n, fields_in(a))
}
