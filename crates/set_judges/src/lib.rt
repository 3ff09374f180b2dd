// Elect, reconfigure and commit: the kinds that look at the servers of a set.
#![tactic(auto, using(crate::proofs::SetLaws::weighing))]

ghost use Rattle.std.specs.Prelude.{◌≡◌, true, false, eqb, ◌++◌, ◌<◌};
ghost use Rattle.members.specs.Members.{within, majority, passing};
ghost use Rattle.members.specs.Rules.{may_follow, below_floor};
ghost use Rattle.algorithm.specs.Table.{count, server, ceiling};
ghost use Rattle.algorithm.specs.Actions.{config_refusals, log_refusals, last_term_refusals, elect_refusals, apart_shown, same_term, p1, majority_refusals, mark_refusals, reconfigure_refusals, lacks_entry, marked_otherwise, commit_refusals};
ghost use Rattle.words.specs.Refusal.{answer, given};
ghost use Rattle.algorithm.specs.Run.{refused_of, verdict_of};
ghost use Rattle.table.specs.Slice.{Within};

use algorithm::{CEILING, POSITIONS, PRIMARY, Refused};
use comparisons::lacks_role;
use members::apart::lowest_apart;
use members::{is_below, is_majority, is_member, lowest_member, may_follow};
use questions::marks::{holding, is_marked};
use questions::shares::{sharing, supporters};
use questions::votes::poll;
use table::Table;

fn is_majority_of(t: &Table<'_>, i: usize, q: u16) -> bool
    requires within { Within t.now i }
    ensures { result ≡ majority q (server t.now i).config.set }
{
    is_majority(q, t.set(i))
}

fn may_become(t: &Table<'_>, i: usize, m: u16) -> bool
    requires within { Within t.now i }
    requires set_nonzero { (0 < (server t.now i).config.set) × (0 < m) }
    ensures { result ≡ may_follow t.now.rule (server t.now i).config.set m }
{
    may_follow(t.rule(), t.set(i), m)
}

// Refusal 25.
fn falls_below(t: &Table<'_>, m: u16) -> bool
    ensures { result ≡ below_floor t.now.floor m }
{
    is_below(t.floor(), m)
}

fn is_last_term(t: &Table<'_>, i: usize) -> bool
    requires within { Within t.now i }
    ensures { result ≡ eqb (server t.now i).term ceiling }
{
    t.term(i).0 == CEILING
}

fn is_last_version(t: &Table<'_>, i: usize) -> bool
    requires within { Within t.now i }
    ensures { result ≡ eqb (server t.now i).config.version ceiling }
{
    t.version(i).0 == CEILING
}

// Refusals 8 to 11: the voters' objections, and the last term.
fn judge_votes(t: &Table<'_>, i: usize, q: u16) -> Result<(), Refused>
    requires within { Within t.now i }
    ensures { result ≡ verdict_of (given (config_refusals t.now i q ++ (log_refusals t.now i q ++ last_term_refusals t.now i))) }
{
    let o = poll(t, i, q);
    let larger = 0 < o.larger;
    if larger {
        return Err(Refused::LargerTerm(lowest_member(o.larger)));
    }
    let newer = 0 < o.newer;
    if newer {
        return Err(Refused::NewerConfig(lowest_member(o.newer)));
    }
    let ahead = 0 < o.ahead;
    if ahead {
        return Err(Refused::LogAhead(lowest_member(o.ahead)));
    }
    if is_last_term(t, i) {
        return Err(Refused::Ceiling);
    }
    Ok(())
}

pub fn judge_elect(t: &Table<'_>, i: usize, q: u16) -> Result<(), Refused>
    requires within { Within t.now i }
    ensures { result ≡ verdict_of (given (elect_refusals t.now i q)) }
{
    if !is_majority_of(t, i, q) | !is_member(i, q) {
        return Err(Refused::NoMajority);
    }
    judge_votes(t, i, q)
}

// P1, where `same` are the members of the set that have the term of server i.
fn is_safe(t: &Table<'_>, i: usize, same: u16) -> bool
    requires within { Within t.now i }
    requires same_value { same ≡ passing (count t.now) (same_term t.now i) (server t.now i).config.set }
    ensures { result ≡ p1 t.now i }
{
    if is_marked(t, i, 0, POSITIONS) {
        return is_majority_of(t, i, holding(t, i, same));
    }
    false
}

// Refusals 14 to 16: they do not look at the new set.
fn judge_majorities(t: &Table<'_>, i: usize) -> Result<(), Refused>
    requires within { Within t.now i }
    ensures { result ≡ verdict_of (given (majority_refusals t.now i ++ mark_refusals t.now i)) }
{
    let set = t.set(i);
    let o = sharing(t, i, set);
    if !is_majority(o.config, set) {
        return Err(Refused::FewHaveConfig);
    }
    if !is_majority(o.term, set) {
        return Err(Refused::FewHaveTerm);
    }
    if !is_safe(t, i, o.term) {
        return Err(Refused::FewHaveMarked);
    }
    Ok(())
}

// Refusal 13, of a set that may not follow: a bare number under rule 1, with the lowest pair of majorities apart under rule 2.
fn refuse_set(t: &Table<'_>, i: usize, m: u16) -> Refused
    requires within { Within t.now i }
    requires set_nonzero { (0 < (server t.now i).config.set) × (0 < m) }
    requires m_value { may_follow t.now.rule (server t.now i).config.set m ≡ false }
    ensures { result ≡ refused_of (answer 13 (apart_shown t.now.rule (server t.now i).config.set m)) }
{
    if t.rule() == 0 {
        return Refused::MayNotFollow;
    }
    let pair = lowest_apart(t.set(i), m);
    Refused::Apart(pair.old, pair.new)
}

pub fn judge_reconfigure(t: &Table<'_>, i: usize, m: u16) -> Result<(), Refused>
    requires within { Within t.now i }
    requires set_nonzero { (0 < (server t.now i).config.set) × (0 < m) }
    ensures { result ≡ verdict_of (given (reconfigure_refusals t.now i m)) }
{
    if lacks_role(t, i, PRIMARY) {
        return Err(Refused::Role);
    }
    if is_last_version(t, i) {
        return Err(Refused::Ceiling);
    }
    if !is_member(i, m) {
        return Err(Refused::WithoutLeader);
    }
    if !may_become(t, i, m) {
        return Err(refuse_set(t, i, m));
    }
    if falls_below(t, m) {
        return Err(Refused::BelowFloor);
    }
    judge_majorities(t, i)
}

// Refusal 22.
fn lacks_entry(t: &Table<'_>, i: usize) -> bool
    requires within { Within t.now i }
    ensures { result ≡ lacks_entry (server t.now i) }
{
    (t.length(i).0 == 0) | (t.last(i) != t.term(i))
}

// Refusal 24. It is asked where 22 does not hold, so the log has an entry.
fn is_marked_otherwise(t: &Table<'_>, i: usize) -> bool
    requires within { Within t.now i }
    requires i_value { lacks_entry (server t.now i) ≡ false }
    ensures { result ≡ marked_otherwise t.now i }
{
    let m = t.mark(t.length(i));
    (m.0 != 0) & (m != t.term(i))
}

pub fn judge_commit(t: &Table<'_>, i: usize, q: u16) -> Result<(), Refused>
    requires within { Within t.now i }
    requires t_value { within q (count t.now) ≡ true }
    ensures { result ≡ verdict_of (given (commit_refusals t.now i q)) }
{
    if lacks_role(t, i, PRIMARY) {
        return Err(Refused::Role);
    }
    if !is_majority_of(t, i, q) {
        return Err(Refused::NoMajority);
    }
    if lacks_entry(t, i) {
        return Err(Refused::LacksEntry);
    }
    let against = q ^ supporters(t, i, q, t.length(i));
    let opposed = 0 < against;
    if opposed {
        return Err(Refused::Opposed(lowest_member(against)));
    }
    if is_marked_otherwise(t, i) {
        return Err(Refused::MarkedOtherwise);
    }
    Ok(())
}
