// Whether a slice is a whole table. The answers of the tests are joined without branches, as those of a loop over words are.
#![tactic(auto)]

ghost use Rattle.std.specs.Prelude.{◌≡◌, [], ◌*◌, ◌≤◌, length, drop};
ghost use Rattle.algorithm.specs.Table.{with_log, sound_server, most_servers};
ghost use Rattle.words.specs.Words.{words};
ghost use Rattle.table.specs.Layout.{row_words, table_bytes, server_of, whole};
ghost use Rattle.whole.specs.Check.{sound_row, sound_rows, sound_words};

use algorithm::{CEILING, RULE_2, SERVERS, Term, Version};
use table::BYTES;
use table::figures::{Figures, figures_sound};
use table::rows::{
    BAKES, CONFIG, ENTRIES, FLOOR, LENGTH, LOG, ROLE, ROW, RULE, SET, TERM, VERSION,
};
use words::{all_between, word};

pub mod fresh;

// The longest log that a row has room for, and the words of the servers' 16 rows.
const LONGEST: u32 = ENTRIES as u32;

const SERVER_WORDS: usize = SERVERS as usize * ROW;

const MOST: u32 = SERVERS as u32;

// The words of row 0 between the floor and the marks.
const SPARE: usize = FLOOR + 1;

const SPARE_WORDS: usize = LOG - SPARE;

// The figures of server s of n are sound.
fn row_figures_sound(t: &[u8], n: u8, s: usize) -> bool
    requires { (length t.now ≡ table_bytes) × (s ≤ most_servers) }
    ensures { result ≡ sound_server n (with_log [] (server_of (drop (row_words * s) (words t.now)))) }
{
    let at = ROW * s;
    let f = Figures {
        role: word(t, at + ROLE),
        term: Term(word(t, at + TERM)),
        set: word(t, at + SET),
        version: Version(word(t, at + VERSION)),
        config: Term(word(t, at + CONFIG)),
    };
    figures_sound(f, n)
}

// Any word is a bake: those within the log are not looked at.
fn row_sound(t: &[u8], n: u8, s: usize) -> bool
    requires { (length t.now ≡ table_bytes) × (s ≤ most_servers) }
    ensures { result ≡ sound_row n (drop (row_words * s) (words t.now)) }
{
    let at = ROW * s;
    let length = word(t, at + LENGTH);
    if LONGEST < length {
        return false;
    }
    let k = length as usize;
    let figures = row_figures_sound(t, n, s);
    let entries = all_between(t, at + LOG, k, 1, CEILING);
    let beyond = all_between(t, at + (LOG + k), ENTRIES - k, 0, 0);
    let bare = all_between(t, at + (BAKES + k), ENTRIES - k, 0, 0);
    figures & entries & beyond & bare
}

fn rows_sound(t: &[u8], n: u8) -> bool
    requires t_len { length t.now ≡ table_bytes }
    requires n_le_most_servers { n ≤ most_servers }
    ensures { result ≡ sound_rows n n (drop row_words (words t.now)) }
{
    let mut ok = true;
    for k in 0..n as usize {
        ok = ok & row_sound(t, n, k + 1);
    }
    ok
}

fn words_sound(t: &[u8], n: u8) -> bool
    requires t_len { length t.now ≡ table_bytes }
    requires n_le_most_servers { n ≤ most_servers }
    ensures { result ≡ sound_words n (words t.now) }
{
    let used = ROW * n as usize;
    let rule = word(t, RULE);
    let floor = word(t, FLOOR);
    let spare = all_between(t, SPARE, SPARE_WORDS, 0, 0);
    let marks = all_between(t, LOG, ENTRIES, 0, CEILING);
    let bare = all_between(t, BAKES, ENTRIES, 0, 0);
    let rows = rows_sound(t, n);
    let beyond = all_between(t, used + ROW, SERVER_WORDS - used, 0, 0);
    (rule <= RULE_2) & (floor <= MOST) & spare & marks & bare & rows & beyond
}

// The slice is a table that breaks no rule.
pub fn is_whole(t: &[u8]) -> bool
    ensures { result ≡ whole t.now }
{
    if t.len() != BYTES {
        return false;
    }
    let n = word(t, 0);
    if n == 0 || MOST < n {
        return false;
    }
    words_sound(t, n as u8)
}
