// A model handed over, written as a file; and numbers, put into an area of their own.
#![tactic(auto)]

ghost use Rattle.std.specs.Prelude.{◌≡◌, ◌*◌, ◌≤◌, length, take};
ghost use Rattle.models.specs.Lent.{rows_lent};
ghost use Rattle.format.specs.Refused.{refusal_of};
ghost use Rattle.format.specs.Refusals.{PutRoom};
ghost use Rattle.format.specs.File.Format.{number_fields_size, entry_bytes};
ghost use Rattle.writer.specs.FileWritten.{WriteModelCall};
ghost use Rattle.writer.specs.Putting.{AcceptedModel, file_of};

mod fields;
mod pen;

use fields::put_file;
use format::fields::{HEAD_BYTES, PRIME_BYTES, SIZES_BYTES, parameter_size};
use format::{Refusal, judge_model};
use models::LentModel;
use pen::Pen;

// The file of a model handed over, over the front of the area; how long it is.
pub fn write_file(model: &LentModel<'_>, out: &mut [u8]) -> Result<usize, Refusal>
    ensures { WriteModelCall model.now out.old result out.new }
{
    judge_model(model)?;
    if out.len() < file_length(model) {
        return Err(Refusal::AreaShort);
    }
    Ok(put_file(out, model))
}

// How long the file of an accepted model is.
fn file_length(model: &LentModel<'_>) -> usize
    requires { AcceptedModel model.now }
    ensures { result ≡ length (file_of model.now) }
{
    let prime = HEAD_BYTES + PRIME_BYTES;
    let sizes = HEAD_BYTES + SIZES_BYTES;
    let constant = HEAD_BYTES + 2 * model.n;
    let parameter = HEAD_BYTES + parameter_size(model.n);
    let plain = prime + sizes + model.a * constant + model.b * parameter + HEAD_BYTES;
    match model.numbers {
        None => plain,
        Some(_) => plain + numbers_length(model),
    }
}

// How many bytes the numbers of its parameter rows take, as fields.
fn numbers_length(model: &LentModel<'_>) -> usize
    requires { AcceptedModel model.now }
    ensures { (result ≡ number_fields_size model.now.n (take model.now.b (rows_lent model.now))) × (result ≤ model.now.b * 259) }
{
    let mut length = 0;
    for r in 0..model.b {
        length += HEAD_BYTES + 2 * columns::row(model.parameters, r).size();
    }
    length
}

// Two bytes for each number, the low one first, over the front of an area; a shorter area is refused and left alone.
pub fn put_each(out: &mut [u8], numbers: &[u16]) -> Result<(), Refusal>
    ensures { PutRoom (entry_bytes numbers.now) out.old out.new (refusal_of result) }
{
    if out.len() / 2 < numbers.len() {
        return Err(Refusal::AreaShort);
    }
    let mut pen = Pen::new(out);
    pen.entries(numbers);
    Ok(())
}
