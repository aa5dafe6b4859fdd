// The calls for models handed over without a file, and the count of rows that touch a set, which `harness_c` exports to C for the tests that
// hold the compiled library against a reference, and for measuring. The product's archive has none of them.
#![tactic(auto)]

ghost use Rattle.std.specs.Prelude.{◌≡◌, ℕ, take};
ghost use Rattle.columns.specs.Bytes.{number};
ghost use Rattle.columns.specs.Columns.{room_bytes, members};
ghost use Rattle.columns.specs.ColumnSets.{row_numbers};
ghost use Rattle.format.specs.Numbers.{lent};
ghost use Rattle.format.specs.File.Format.{WriteCall};
ghost use Rattle.touching.specs.RowCount.{touching_count};
ghost use Rattle.harness.specs.Calls.{model_lent, LayeredBytes, MixedBytes, MultipliersBytes, ReasonBytes, AcceptanceCallBytes, BlocksCallBytes, DegreeCallBytes, OpenBytes, EditBytes, AnswerBytes, FileInAreas};

use acceptance::{CLAIM_LENGTH, model_acceptance, put_acceptance, read_claim};
use blocks::{model_blocks, put_blocks};
use columns::ColumnSet;
use degree::{ModelPowers, model_degree, put_degree};
use editing::{edit_model, name_edit, open_answer, open_model};
use format::{Refusal, number, put_set};
use host::{AnswerNumbers, MixedNumbers, put_answer, put_mixed};
use layered::layered_rank;
use limits::SET_BYTES;
use loader::read_file;
use mixed::mixed_rank;
use models::LentModel;
use multipliers::{MultipliersNumbers, model_multipliers, put_multipliers};
use reason::{ReasonNumbers, model_reason, put_reason};
use touching::touching_rows;
use writer::write_file;

// The model of these numbers and rows; the numbers of its parameters count where it is numbered.
fn lent_model<'a>(
    p: u32,
    n: usize,
    a: usize,
    b: usize,
    constants: &'a [u16],
    parameters: &'a [u64],
    numbered: bool,
    numbers: &'a [u16],
) -> LentModel<'a>
    ensures { result ≡ model_lent p n a b constants.entry parameters.entry numbered numbers.entry }
{
    let numbers = if numbered { Some(numbers) } else { None };
    LentModel {
        p,
        n,
        a,
        b,
        constants,
        parameters,
        numbers,
    }
}

// The bytes of the layered answer.
pub fn harness_layered(
    p: u32,
    n: usize,
    a: usize,
    b: usize,
    constants: &[u16],
    parameters: &[u64],
    numbered: bool,
    numbers: &[u16],
    answer: &mut [u8],
) -> u32
    ensures { LayeredBytes p n a b constants.now (row_numbers parameters.now) (lent numbered numbers.now) answer.old result answer.new }
{
    let model = lent_model(p, n, a, b, constants, parameters, numbered, numbers);
    match layered_rank(&model) {
        Ok(found) => number(put_answer(answer, &AnswerNumbers::of(&found))),
        Err(refusal) => u32::from(refusal),
    }
}

// The bytes of the mixed answer.
pub fn harness_mixed(
    p: u32,
    n: usize,
    a: usize,
    b: usize,
    constants: &[u16],
    parameters: &[u64],
    numbered: bool,
    numbers: &[u16],
    answer: &mut [u8],
) -> u32
    ensures { MixedBytes p n a b constants.now (row_numbers parameters.now) (lent numbered numbers.now) answer.old result answer.new }
{
    let model = lent_model(p, n, a, b, constants, parameters, numbered, numbers);
    match mixed_rank(&model) {
        Ok(found) => number(put_mixed(answer, &MixedNumbers::of(&found))),
        Err(refusal) => u32::from(refusal),
    }
}

// The bytes of the answer about multipliers; the bytes of the held set are handed over.
pub fn harness_multipliers(
    p: u32,
    n: usize,
    a: usize,
    b: usize,
    constants: &[u16],
    parameters: &[u64],
    numbered: bool,
    numbers: &[u16],
    held: &[u8],
    column: usize,
    answer: &mut [u8],
) -> u32
    ensures { MultipliersBytes p n a b constants.now (row_numbers parameters.now) (lent numbered numbers.now) (number (take room_bytes held.now)) column answer.old result answer.new }
{
    let set = ColumnSet::of_bytes(held);
    let model = lent_model(p, n, a, b, constants, parameters, numbered, numbers);
    match model_multipliers(&model, set, column) {
        Ok(found) => number(put_multipliers(answer, &MultipliersNumbers::of(&found))),
        Err(refusal) => u32::from(refusal),
    }
}

// The bytes of the answer about the reason for a column.
pub fn harness_reason(
    p: u32,
    n: usize,
    a: usize,
    b: usize,
    constants: &[u16],
    parameters: &[u64],
    numbered: bool,
    numbers: &[u16],
    column: usize,
    answer: &mut [u8],
) -> u32
    ensures { ReasonBytes p n a b constants.now (row_numbers parameters.now) (lent numbered numbers.now) column answer.old result answer.new }
{
    let model = lent_model(p, n, a, b, constants, parameters, numbered, numbers);
    match model_reason(&model, column) {
        Ok(found) => number(put_reason(answer, &ReasonNumbers::of(&found))),
        Err(refusal) => u32::from(refusal),
    }
}

// The byte of the answer about a claim, whose bytes are handed over.
pub fn harness_accepts(
    p: u32,
    n: usize,
    a: usize,
    b: usize,
    constants: &[u16],
    parameters: &[u64],
    numbered: bool,
    numbers: &[u16],
    claim: &[u8],
    answer: &mut [u8],
) -> u32
    ensures { AcceptanceCallBytes p n a b constants.now (row_numbers parameters.now) (lent numbered numbers.now) claim.now answer.old result answer.new }
{
    let read = read_claim(claim);
    let model = lent_model(p, n, a, b, constants, parameters, numbered, numbers);
    match model_acceptance(&model, &read) {
        Ok(_) if claim.len() < CLAIM_LENGTH => u32::from(Refusal::AreaShort),
        Ok(accepted) => number(put_acceptance(answer, accepted)),
        Err(refusal) => u32::from(refusal),
    }
}

// The bytes of the blocks.
pub fn harness_blocks(
    p: u32,
    n: usize,
    a: usize,
    b: usize,
    constants: &[u16],
    parameters: &[u64],
    numbered: bool,
    numbers: &[u16],
    answer: &mut [u8],
) -> u32
    ensures { BlocksCallBytes p n a b constants.now (row_numbers parameters.now) (lent numbered numbers.now) answer.old result answer.new }
{
    let model = lent_model(p, n, a, b, constants, parameters, numbered, numbers);
    match model_blocks(&model) {
        Ok(found) => number(put_blocks(answer, &found)),
        Err(refusal) => u32::from(refusal),
    }
}

// The bytes of the degree and of an assignment that reaches it.
pub fn harness_degree(
    p: u32,
    n: usize,
    a: usize,
    b: usize,
    constants: &[u16],
    parameters: &[u64],
    numbered: bool,
    numbers: &[u16],
    rowpowers: &[u8],
    columnpowers: &[u8],
    parameterpowers: &[u8],
    answer: &mut [u8],
) -> u32
    ensures { DegreeCallBytes p n a b constants.now (row_numbers parameters.now) (lent numbered numbers.now) rowpowers.now columnpowers.now parameterpowers.now answer.old result answer.new }
{
    let model = lent_model(p, n, a, b, constants, parameters, numbered, numbers);
    let powers = ModelPowers {
        rows: rowpowers,
        columns: columnpowers,
        parameters: parameterpowers,
    };
    match model_degree(&model, &powers) {
        Ok(found) => number(put_degree(answer, &found)),
        Err(refusal) => u32::from(refusal),
    }
}

// The bytes of the columns present of a model that is opened.
pub fn harness_open(
    p: u32,
    n: usize,
    a: usize,
    b: usize,
    constants: &[u16],
    parameters: &[u64],
    numbered: bool,
    numbers: &[u16],
    present: &mut [u8],
) -> u32
    ensures { OpenBytes p n a b constants.now (row_numbers parameters.now) (lent numbered numbers.now) present.old result present.new }
{
    let model = lent_model(p, n, a, b, constants, parameters, numbered, numbers);
    match open_model(&model) {
        Ok(set) => number(put_set(present, set)),
        Err(refusal) => u32::from(refusal),
    }
}

// An edit of an open model, by its kind, row and column; the bytes of the columns present are handed over and changed.
pub fn harness_edit(
    p: u32,
    n: usize,
    a: usize,
    b: usize,
    constants: &[u16],
    parameters: &mut [u64],
    present: &mut [u8],
    kind: u8,
    row: usize,
    column: usize,
) -> u32
    ensures { EditBytes p n a b constants.now parameters.old present.old kind row column result parameters.new present.new }
{
    let edit = match name_edit(kind, row, column) {
        Ok(edit) => edit,
        Err(refusal) => return u32::from(refusal),
    };
    if present.len() < SET_BYTES {
        return u32::from(Refusal::AreaShort);
    }
    let mut set = ColumnSet::of_bytes(&present[..SET_BYTES]);
    match edit_model(p, n, a, b, constants, parameters, &mut set, edit) {
        Ok(()) => number(put_set(present, set)),
        Err(refusal) => u32::from(refusal),
    }
}

// The bytes of the answer to an open model; the bytes of the columns present are handed over.
pub fn harness_answer(
    p: u32,
    n: usize,
    a: usize,
    b: usize,
    constants: &[u16],
    parameters: &[u64],
    present: &[u8],
    answer: &mut [u8],
) -> u32
    ensures { AnswerBytes p n a b constants.now (row_numbers parameters.now) (number (take room_bytes present.now)) answer.old result answer.new }
{
    let set = ColumnSet::of_bytes(present);
    let model = LentModel::unnumbered(p, n, a, b, constants, parameters);
    match open_answer(&model, set) {
        Ok(found) => number(put_answer(answer, &AnswerNumbers::of(&found))),
        Err(refusal) => u32::from(refusal),
    }
}

// The bytes of the model's file; what a C caller does not see is how many they are.
pub fn harness_write(
    p: u32,
    n: usize,
    a: usize,
    b: usize,
    constants: &[u16],
    parameters: &[u64],
    numbered: bool,
    numbers: &[u16],
    out: &mut [u8],
) -> u32
    ensures { (written : ℕ) × WriteCall p n a b constants.now (row_numbers parameters.now) (lent numbered numbers.now) out.old result written out.new }
{
    let model = lent_model(p, n, a, b, constants, parameters, numbered, numbers);
    match write_file(&model, out) {
        Ok(_) => 0,
        Err(refusal) => u32::from(refusal),
    }
}

// The model in a file, read into areas; what a C caller does not see are its sizes and whether it is numbered.
pub fn harness_read(
    file: &[u8],
    constants: &mut [u16],
    parameters: &mut [u64],
    numbers: &mut [u16],
) -> u32
    ensures { FileInAreas file.now constants.old (row_numbers parameters.old) numbers.old result constants.new (row_numbers parameters.new) numbers.new }
{
    match read_file(file, constants, parameters, numbers) {
        Ok(_) => 0,
        Err(refusal) => u32::from(refusal),
    }
}

// How many parameter rows, b of them in an area, have a parameter in a set of columns below n; the bytes of the set are handed over.
pub fn harness_touching(n: usize, b: usize, parameters: &[u64], set: &[u8]) -> usize
    ensures { result ≡ touching_count n b (row_numbers parameters.now) (members (number (take room_bytes set.now))) }
{
    touching_rows(parameters, n, b, ColumnSet::of_bytes(set))
}
