// Send, spread, write, fetch and roll back: the kinds that look at one server or two.
#![tactic(auto, using(algorithm::proofs::Replies::replying))]

ghost use Rattle.std.specs.Prelude.{◌≡◌};
ghost use Rattle.algorithm.specs.Actions.{send_refusals, spread_refusals, write_refusals, fetch_refusals, roll_back_refusals};
ghost use Rattle.words.specs.Refusal.{given, holds_in};
ghost use Rattle.algorithm.specs.Run.{verdict_of};
ghost use Rattle.table.specs.Slice.{Within};

use algorithm::{POSITIONS, PRIMARY, Refused, SECONDARY};
use comparisons::{is_prefix, joins, lacks_role, larger_term, newer_config};
use table::Table;

pub fn judge_send(t: &Table<'_>, i: usize, j: usize) -> Result<(), Refused>
    requires within { Within t.now i }
    requires within_2 { Within t.now j }
    ensures { result ≡ verdict_of (given (send_refusals t.now i j)) }
{
    if lacks_role(t, j, SECONDARY) {
        return Err(Refused::Role);
    }
    if !newer_config(t, j, i) {
        return Err(Refused::NotNewer);
    }
    Ok(())
}

pub fn judge_spread(t: &Table<'_>, i: usize, j: usize) -> Result<(), Refused>
    requires within { Within t.now i }
    requires within_2 { Within t.now j }
    ensures { result ≡ verdict_of (given (spread_refusals t.now i j)) }
{
    if !larger_term(t, j, i) {
        return Err(Refused::NotLarger);
    }
    Ok(())
}

fn is_full(t: &Table<'_>, i: usize) -> bool
    requires within { Within t.now i }
    ensures { result ≡ holds_in 19 (write_refusals t.now i) }
{
    POSITIONS <= t.length(i).0
}

pub fn judge_write(t: &Table<'_>, i: usize) -> Result<(), Refused>
    requires within { Within t.now i }
    ensures { result ≡ verdict_of (given (write_refusals t.now i)) }
{
    if lacks_role(t, i, PRIMARY) {
        return Err(Refused::Role);
    }
    if is_full(t, i) {
        return Err(Refused::Full);
    }
    Ok(())
}

fn cannot_fetch(t: &Table<'_>, i: usize, j: usize) -> bool
    requires within { Within t.now i }
    requires within_2 { Within t.now j }
    ensures { result ≡ holds_in 20 (fetch_refusals t.now i j) }
{
    (t.length(j) <= t.length(i)) | !joins(t, i, j)
}

pub fn judge_fetch(t: &Table<'_>, i: usize, j: usize) -> Result<(), Refused>
    requires within { Within t.now i }
    requires within_2 { Within t.now j }
    ensures { result ≡ verdict_of (given (fetch_refusals t.now i j)) }
{
    if lacks_role(t, i, SECONDARY) {
        return Err(Refused::Role);
    }
    if cannot_fetch(t, i, j) {
        return Err(Refused::NothingToFetch);
    }
    Ok(())
}

fn cannot_roll_back(t: &Table<'_>, i: usize, j: usize) -> bool
    requires within { Within t.now i }
    requires within_2 { Within t.now j }
    ensures { result ≡ holds_in 21 (roll_back_refusals t.now i j) }
{
    if t.last(i) < t.last(j) {
        return is_prefix(t, i, j);
    }
    true
}

pub fn judge_roll_back(t: &Table<'_>, i: usize, j: usize) -> Result<(), Refused>
    requires within { Within t.now i }
    requires within_2 { Within t.now j }
    ensures { result ≡ verdict_of (given (roll_back_refusals t.now i j)) }
{
    if lacks_role(t, i, SECONDARY) {
        return Err(Refused::Role);
    }
    if cannot_roll_back(t, i, j) {
        return Err(Refused::NothingToRollBack);
    }
    Ok(())
}
