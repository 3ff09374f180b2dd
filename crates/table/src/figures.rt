// A server's figures, all but its log, and whether they keep the rules; the log is judged beside them.
ghost use Rattle.std.specs.Prelude.{◌≡◌, []};
ghost use Rattle.algorithm.specs.Table.{sound_server};
ghost use Rattle.table.specs.Slice.{figured};

use algorithm::{CEILING, PRIMARY, SECONDARY, Term, Version};
use members::is_within;

// The set has the bits of a word: a slice is judged before it is known that no higher bit is set.
#[derive(Clone, Copy)]
pub struct Figures {
    pub role: u32,
    pub term: Term,
    pub set: u32,
    pub version: Version,
    pub config: Term,
}

// The figures are those of a server of a table of n. The answers are joined without branches, as those of a loop over words are.
pub fn figures_sound(f: Figures, n: u8) -> bool
    ensures { result ≡ sound_server n (figured f []) }
{
    let role_sound = (f.role == PRIMARY) & (1 <= f.term.0) | (f.role == SECONDARY);
    let config_sound = is_within(f.set, n)
        & ((1 <= f.version.0) & (f.version.0 <= CEILING))
        & (f.config.0 <= CEILING);
    role_sound & (f.term.0 <= CEILING) & config_sound
}
