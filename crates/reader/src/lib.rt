// The reader of a table's image (specs/Image.antt): judged on the image alone, and only then is the slice written.
#![tactic(auto)]

ghost use Rattle.std.specs.Prelude.{◌≡◌};
ghost use Rattle.reader.specs.Reader.{read_verdict, read_end, read_result, read_bytes};
ghost use Rattle.image.specs.Contents.{Named};

use crate::fill::fill;
use algorithm::Refused;
use image::bodies::are_sound;
use image::contents::{count_of, is_counted, is_laid_out, is_opened, stop_of};
use table::BYTES;

mod fill;

// Each test stands on those before it: contents are read once they are known to be complete, and bodies once they are known to lie within
// the image.
#[tactic(auto, using(crate::proofs::ReplyLaws::named), unfolding(crate::specs::Reader::read_reply, words::specs::Refusal::first))]
fn judge(image: &[u8], table: &[u8]) -> Result<(), Refused>
    ensures { result ≡ read_verdict image.now table.now }
{
    if table.len() != BYTES {
        return Err(Refused::Broken);
    }
    if image.len() < 8 {
        return Err(Refused::Short);
    }
    if !is_opened(image) {
        return Err(Refused::NotOpened);
    }
    if !is_counted(image) {
        return Err(Refused::Servers);
    }
    if !is_laid_out(image) {
        return Err(Refused::NotLaidOut);
    }
    if !are_sound(image) {
        return Err(Refused::Unsound);
    }
    Ok(())
}

fn end_of(image: &[u8]) -> usize
    requires { Named image.now }
    ensures { result ≡ read_end image.now }
{
    stop_of(image, count_of(image))
}

// Reads an image into a table's slice, and tells where the bytes after the image begin. Refused, it does not touch the slice.
#[tactic(auto, using(crate::proofs::ReplyLaws::readable))]
pub fn read(image: &[u8], table: &mut [u8]) -> Result<usize, Refused>
    ensures reply { result ≡ read_result image.now table.old }
    ensures bytes { table.new ≡ read_bytes image.now table.old }
{
    judge(image, table)?;
    fill(table, image);
    Ok(end_of(image))
}
