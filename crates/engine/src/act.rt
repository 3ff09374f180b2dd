// What is asked, done by its kind, in place; the kinds are named as where they are judged.
ghost use Rattle.std.specs.Prelude.{◌≡◌};
ghost use Rattle.algorithm.specs.Run.{own_refusals, after, taken_shown};
ghost use Rattle.words.specs.Refusal.{first};
ghost use Rattle.table.specs.Layout.{table_in};
ghost use Rattle.table.specs.Slice.{Holds};
ghost use Rattle.form.specs.Form.{named};
ghost use Rattle.engine.specs.Engine.{Ready, Fitting};

use doers::{configs, logs};
use form::Asked;

// How many entries were copied, 0 for any kind but a stretch. No refusal holds, so that what each kind needs of the table is there.
#[tactic(auto, using(crate::proofs::AskedLaws::acting), unfolding(algorithm::specs::Run::after))]
pub fn act(t: &mut [u8], x: Asked) -> u8
    requires ready { Ready t.old }
    requires fitting { Fitting (table_in t.old) x }
    requires x_value { first (own_refusals (table_in t.old) (named x)) ≡ 0 }
    ensures { (result ≡ (taken_shown (table_in t.old) (named x)).copied) × Holds t.new (after (table_in t.old) (named x)) }
{
    match x {
        Asked::Elect(i, q) => configs::elect(t, i, q),
        Asked::Reconfigure(i, m) => configs::reconfigure(t, i, m),
        Asked::Send(i, j) => configs::send(t, i, j),
        Asked::Spread(i, j) => configs::spread(t, i, j),
        Asked::Write(i, bake) => logs::write(t, i, bake),
        Asked::Fetch(i, j) => logs::fetch(t, i, j),
        Asked::RollBack(i, _) => logs::roll_back(t, i),
        Asked::Commit(i, _) => logs::commit(t, i),
        Asked::Stretch(i, j, c) => return logs::stretch(t, i, j, c),
    }
    0
}
