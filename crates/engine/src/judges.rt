// What is asked, judged by its kind. The kinds are closed, so a `match` names each of them, and nothing is handed out to be called.
ghost use Rattle.std.specs.Prelude.{◌≡◌, false};
ghost use Rattle.algorithm.specs.Table.{broken};
ghost use Rattle.algorithm.specs.Run.{verdict_of, own_refusals};
ghost use Rattle.words.specs.Refusal.{given};
ghost use Rattle.form.specs.Form.{named};
ghost use Rattle.engine.specs.Engine.{Fitting};

use algorithm::Refused;
use form::Asked;
use pair_judges::{judge_fetch, judge_roll_back, judge_send, judge_spread, judge_write};
use set_judges::{judge_commit, judge_elect, judge_reconfigure};
use table::Table;

// The first of the kind's own refusals, if one holds.
#[tactic(auto, using(crate::proofs::AskedLaws::judging))]
pub fn judge(t: &Table<'_>, x: Asked) -> Result<(), Refused>
    requires sound { broken t.now ≡ false }
    requires fitting { Fitting t.now x }
    ensures { result ≡ verdict_of (given (own_refusals t.now (named x))) }
{
    match x {
        Asked::Elect(i, q) => judge_elect(t, i, q),
        Asked::Reconfigure(i, m) => judge_reconfigure(t, i, m),
        Asked::Send(i, j) => judge_send(t, i, j),
        Asked::Spread(i, j) => judge_spread(t, i, j),
        Asked::Write(i, _) => judge_write(t, i),
        Asked::Fetch(i, j) => judge_fetch(t, i, j),
        Asked::RollBack(i, j) => judge_roll_back(t, i, j),
        Asked::Commit(i, q) => judge_commit(t, i, q),
        Asked::Stretch(i, j, _) => judge_fetch(t, i, j),
    }
}
