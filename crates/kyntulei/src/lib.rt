// The engine for the store's release harness: numbers and byte slices in, a number and filled slices out (include/kyntulei.h).
#![tactic(auto)]

ghost use Rattle.std.specs.Prelude.{◌≡◌};
ghost use Rattle.words.specs.Refusal.{given};
ghost use Rattle.algorithm.specs.Run.{answer_of, verdict_of};
ghost use Rattle.table.specs.Layout.{table_bytes};
ghost use Rattle.reader.specs.Reader.{ReadAnswer};
ghost use Rattle.writer.specs.Writer.{WriteAnswer};
ghost use Rattle.kyntulei.specs.Promise.{fresh_refusals, step_reply, step_bytes, place_number, place_after, FreshAnswer, StepAnswer, RunAnswer};

use algorithm::{RULE_2, Refused, Reply, SERVERS, eight_bytes, number};
use engine::{refuse_all, run, step};
use members::is_within;
use reader::read;
use table::BYTES;
use whole::fresh::fill_fresh;
use whole::is_whole;
use writer::write;

const MOST: u32 = SERVERS as u32;

#[unsafe(no_mangle)]
pub extern "C" fn kyntulei_table_bytes() -> usize
    ensures { result ≡ table_bytes }
{
    BYTES
}

// Judged before anything is written.
fn judge_fresh(table: &[u8], n: u32, set: u32, rule: u32, floor: u32) -> Result<(), Refused>
    ensures { result ≡ verdict_of (given (fresh_refusals table.now n set rule floor)) }
{
    if table.len() != BYTES {
        return Err(Refused::Broken);
    }
    if RULE_2 < rule {
        return Err(Refused::Broken);
    }
    if MOST < floor {
        return Err(Refused::Broken);
    }
    if n == 0 {
        return Err(Refused::Servers);
    }
    if MOST < n {
        return Err(Refused::Servers);
    }
    if is_within(set, n as u8) {
        return Ok(());
    }
    Err(Refused::NoSet)
}

#[unsafe(no_mangle)]
pub extern "C" fn kyntulei_fresh(table: &mut [u8], n: u32, set: u32, rule: u32, floor: u32) -> u32
    ensures { FreshAnswer table.old n set rule floor result table.new }
{
    match judge_fresh(table, n, set, rule, floor) {
        Err(refused) => refused.number() as u32,
        Ok(()) => {
            fill_fresh(table, n as u8, set as u16, rule as u8, floor as u8);
            0
        }
    }
}

// A broken table refuses every action.
fn answer(table: &mut [u8], action: &[u8]) -> Reply
    ensures reply { answer_of result ≡ step_reply table.old action.now }
    ensures bytes { table.new ≡ step_bytes table.old action.now }
{
    if is_whole(table) {
        return step(table, action);
    }
    Err(Refused::Broken)
}

// One action: 0 where it is taken, else the refusal's number; and all of the reply as one number.
#[unsafe(no_mangle)]
pub extern "C" fn kyntulei_step(table: &mut [u8], action: &[u8], reply: &mut u64) -> u32
    ensures { StepAnswer table.old action.now result reply.new table.new }
{
    let answer = answer(table, action);
    *reply = eight_bytes(answer);
    number(answer) as u32
}

// A plan: how many of its pieces were played, each with its reply.
#[unsafe(no_mangle)]
pub extern "C" fn kyntulei_run(table: &mut [u8], actions: &[u8], replies: &mut [u8]) -> u64
    ensures { RunAnswer table.old actions.now replies.old result table.new replies.new }
{
    if is_whole(table) {
        run(table, actions, replies) as u64
    } else {
        refuse_all(actions, replies) as u64
    }
}

// The number of an answer; where nothing is refused, the place that it tells goes into `end`.
fn tell(answer: Result<usize, Refused>, end: &mut u64) -> u32
    ensures number { result ≡ place_number answer }
    ensures end { end.new ≡ place_after answer end.old }
{
    match answer {
        Ok(place) => {
            *end = place as u64;
            0
        }
        Err(refused) => refused.number() as u32,
    }
}

// A table from its image, and where the bytes after the image begin.
#[unsafe(no_mangle)]
pub extern "C" fn kyntulei_read(image: &[u8], table: &mut [u8], end: &mut u64) -> u32
    ensures { ReadAnswer image.now table.old end.old result table.new end.new }
{
    tell(read(image, table), end)
}

// The image of a table, and where it ends in the buffer.
#[unsafe(no_mangle)]
pub extern "C" fn kyntulei_write(table: &[u8], buffer: &mut [u8], end: &mut u64) -> u32
    ensures { WriteAnswer table.now buffer.old end.old result buffer.new end.new }
{
    tell(write(table, buffer), end)
}
