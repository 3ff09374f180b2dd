// One action on a table that is whole, and a plan of them.
#![tactic(auto)]

ghost use Rattle.std.specs.Prelude.{◌≡◌, IfErr, Err};
ghost use Rattle.words.specs.Refusal.{given};
ghost use Rattle.algorithm.specs.Table.{count};
ghost use Rattle.algorithm.specs.Run.{verdict_of, own_refusals};
ghost use Rattle.table.specs.Layout.{table_in};
ghost use Rattle.form.specs.Form.{named, form_of};
ghost use Rattle.engine.specs.Engine.{Ready, Fitting, Answered, Stepped, Played, AllRefused};

use crate::act::act;
use crate::judges::judge;
use crate::pieces::played;
use algorithm::{Refused, Reply, eight_bytes};
use form::{Asked, read_action};
use table::Table;
use walk::Walk;
use words::put_eight;

pub mod act;
pub mod judges;
pub mod pieces;

// An action is read for the table in the slice. That a refusal is the reply is promised here of its value, so that what hands it on needs no law.
fn read_asked(t: &[u8], a: &[u8]) -> Result<Asked, Refused>
    requires { Ready t.now }
    ensures read { result ≡ form_of (count (table_in t.now)) a.now }
    ensures refused { IfErr result (λ r. Stepped t.now a.now (Err r) t.now) }
{
    read_action(Table::of(t).count(), a)
}

// What is asked is judged on the table in the slice; of a refusal the same is promised.
fn judge_asked(t: &[u8], x: Asked) -> Result<(), Refused>
    requires ready { Ready t.now }
    requires fitting { Fitting (table_in t.now) x }
    ensures judged { result ≡ verdict_of (given (own_refusals (table_in t.now) (named x))) }
    ensures refused { IfErr result (λ r. Answered t.now x (Err r) t.now) }
{
    judge(&Table::of(t), x)
}

// What is asked is judged, and done if nothing speaks against it.
fn answer(t: &mut [u8], x: Asked) -> Reply
    requires ready { Ready t.old }
    requires fitting { Fitting (table_in t.old) x }
    ensures { Answered t.old x result t.new }
{
    judge_asked(t, x)?;
    Ok(act(t, x))
}

// An action is read, and answered if it asks for something.
pub fn step(t: &mut [u8], a: &[u8]) -> Reply
    requires { Ready t.old }
    ensures { Stepped t.old a.now result t.new }
{
    let x = read_asked(t, a)?;
    answer(t, x)
}

// The pieces are played in order, as many as the replies have room for, and answered; how many is told.
pub fn run(t: &mut [u8], actions: &[u8], replies: &mut [u8]) -> usize
    requires { Ready t.old }
    ensures { Played t.old actions.now replies.old result t.new replies.new }
{
    let n = played(actions, replies);
    let mut walk = Walk::from(actions, 0);
    for k in 0..n {
        put_eight(replies, k, eight_bytes(step(t, walk.piece())));
        walk.advance();
    }
    n
}

// A broken table refuses every piece.
pub fn refuse_all(actions: &[u8], replies: &mut [u8]) -> usize
    ensures { AllRefused actions.now replies.old result replies.new }
{
    let n = played(actions, replies);
    for k in 0..n {
        put_eight(replies, k, eight_bytes(Err(Refused::Broken)));
    }
    n
}
