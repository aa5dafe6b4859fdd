// The calls for a host in C: the bytes of a file or of an open model, what is asked of it or changed in it, and an answer area in, the
// refusal number out. Each gives the number of what a function of the same name gives.
ghost use Rattle.std.specs.Prelude.{◌≡◌, false};
ghost use Rattle.format.specs.Refused.{refusal_of};
ghost use Rattle.format.specs.Refusals.{unless, ◌then◌, first_refusal, area_short};
ghost use Rattle.format.specs.File.Piece.{closed};
ghost use Rattle.format.specs.File.Format.{fields};
ghost use Rattle.format.specs.File.Unnumbered.{unnumbered_fields};
ghost use Rattle.editing.specs.Areas.{area_file};
ghost use Rattle.solvability.specs.Host.{HostAnswer, HostMixedAnswer, HostMultipliers, HostReason, HostAccepts, HostBlocks, HostDegree, HostOpen, HostEdit, HostOpenAnswer};

use acceptance::{ACCEPTANCE_LENGTH, CLAIM_LENGTH, file_acceptance, put_acceptance, read_claim};
use blocks::{file_blocks, put_blocks};
use columns::ColumnSet;
use degree::{DEGREE_LENGTH, ModelPowers, file_degree, put_degree};
use editing::{answer_area, edit_area, judge_area, open_area};
use format::{Refusal, judge_file, number};
use host::{ANSWER_LENGTH, AnswerNumbers, MIXED_LENGTH, MixedNumbers, put_answer, put_mixed};
use layered::layered_file;
use limits::SET_BYTES;
use mixed::mixed_file;
use multipliers::{MULTIPLIERS_LENGTH, MultipliersNumbers, file_multipliers, put_multipliers};
use reason::{REASON_LENGTH, ReasonNumbers, file_reason, put_reason};

// Judges the file, then the area; where both are accepted, writes the answer to the layered model over the front of the area.
pub fn wundreska_check(file: &[u8], answer: &mut [u8]) -> u32
    ensures { HostAnswer file.now answer.old result answer.new }
{
    number(check(file, answer))
}

fn check(file: &[u8], answer: &mut [u8]) -> Result<(), Refusal>
    ensures { HostAnswer file.now answer.old (refusal_of result) answer.new }
{
    let r = layered_file(file)?;
    put_answer(answer, &AnswerNumbers::of(&r))
}

// The refusal of a call whose area is too short: the file's own comes first.
fn refuse_area(file: &[u8]) -> Result<(), Refusal>
    ensures { refusal_of result ≡ first_refusal (closed fields file.now then unless false area_short) }
{
    judge_file(file)?;
    Err(Refusal::AreaShort)
}

// Judges the file, then the area, then whether the file holds a mixed question; where all are accepted, writes the answer to the
// mixed model over the front of the area.
pub fn wundreska_mixed(file: &[u8], answer: &mut [u8]) -> u32
    ensures { HostMixedAnswer file.now answer.old result answer.new }
{
    number(mixed(file, answer))
}

fn mixed(file: &[u8], answer: &mut [u8]) -> Result<(), Refusal>
    ensures { HostMixedAnswer file.now answer.old (refusal_of result) answer.new }
{
    if answer.len() < MIXED_LENGTH {
        return refuse_area(file);
    }
    let r = mixed_file(file)?;
    put_mixed(answer, &MixedNumbers::of(&r))
}

// Judges the file, then both areas, then the columns that are named; where all are accepted, writes how the column depends on the held
// ones over the front of the answer's area. Of the area of held columns the bytes of one set are read.
pub fn wundreska_multipliers(file: &[u8], held: &[u8], column: usize, answer: &mut [u8]) -> u32
    ensures { HostMultipliers file.now held.now column answer.old result answer.new }
{
    number(multipliers(file, held, column, answer))
}

fn multipliers(file: &[u8], held: &[u8], column: usize, answer: &mut [u8]) -> Result<(), Refusal>
    ensures { HostMultipliers file.now held.now column answer.old (refusal_of result) answer.new }
{
    if answer.len() < MULTIPLIERS_LENGTH {
        return refuse_area(file);
    }
    if held.len() < SET_BYTES {
        return refuse_area(file);
    }
    let set = ColumnSet::of_bytes(&held[..SET_BYTES]);
    let r = file_multipliers(file, set, column)?;
    put_multipliers(answer, &MultipliersNumbers::of(&r))
}

// Judges the file, then the area, then the column that is named; where all are accepted, writes the reason why the column is not placed
// over the front of the area.
pub fn wundreska_reason(file: &[u8], column: usize, answer: &mut [u8]) -> u32
    ensures { HostReason file.now column answer.old result answer.new }
{
    number(reason(file, column, answer))
}

fn reason(file: &[u8], column: usize, answer: &mut [u8]) -> Result<(), Refusal>
    ensures { HostReason file.now column answer.old (refusal_of result) answer.new }
{
    if answer.len() < REASON_LENGTH {
        return refuse_area(file);
    }
    let r = file_reason(file, column)?;
    put_reason(answer, &ReasonNumbers::of(&r))
}

// Judges the file, then both areas; where all are accepted, writes whether the claim is accepted over the front of the answer's area.
// Of the area of the claim its bytes alone are read.
pub fn wundreska_accepts(file: &[u8], claim: &[u8], answer: &mut [u8]) -> u32
    ensures { HostAccepts file.now claim.now answer.old result answer.new }
{
    number(accepts(file, claim, answer))
}

fn accepts(file: &[u8], claim: &[u8], answer: &mut [u8]) -> Result<(), Refusal>
    ensures { HostAccepts file.now claim.now answer.old (refusal_of result) answer.new }
{
    if answer.len() < ACCEPTANCE_LENGTH {
        return refuse_area(file);
    }
    if claim.len() < CLAIM_LENGTH {
        return refuse_area(file);
    }
    let r = file_acceptance(file, &read_claim(claim))?;
    put_acceptance(answer, r)
}

// Judges the file, then the area; where both are accepted, writes the blocks of the model over the front of the area.
pub fn wundreska_blocks(file: &[u8], answer: &mut [u8]) -> u32
    ensures { HostBlocks file.now answer.old result answer.new }
{
    number(blocks(file, answer))
}

fn blocks(file: &[u8], answer: &mut [u8]) -> Result<(), Refusal>
    ensures { HostBlocks file.now answer.old (refusal_of result) answer.new }
{
    let r = file_blocks(file)?;
    put_blocks(answer, &r)
}

// Judges the file, then all areas, then the verdict and the powers; where all are accepted, writes the degree and an assignment that
// reaches it over the front of the answer's area. Of the areas of powers the powers alone are read.
pub fn wundreska_degree(
    file: &[u8],
    rowpowers: &[u8],
    columnpowers: &[u8],
    parameterpowers: &[u8],
    answer: &mut [u8],
) -> u32
    ensures { HostDegree file.now rowpowers.now columnpowers.now parameterpowers.now answer.old result answer.new }
{
    let powers = ModelPowers {
        rows: rowpowers,
        columns: columnpowers,
        parameters: parameterpowers,
    };
    number(degree(file, &powers, answer))
}

fn degree(file: &[u8], powers: &ModelPowers<'_>, answer: &mut [u8]) -> Result<(), Refusal>
    ensures { HostDegree file.now powers.now.rows.now powers.now.columns.now powers.now.parameters.now answer.old (refusal_of result) answer.new }
{
    if answer.len() < DEGREE_LENGTH {
        return refuse_area(file);
    }
    let r = file_degree(file, powers)?;
    put_degree(answer, &r)
}

// Judges the file, then the area; where both are accepted, writes the open model over the front of the area: all columns are present,
// and the parameters have no numbers.
pub fn wundreska_open(file: &[u8], area: &mut [u8]) -> u32
    ensures { HostOpen file.now area.old result area.new }
{
    number(open_area(file, area))
}

// Judges the open model in the area, then the bytes of the edit, then the edit; where all are accepted, the edit is made in the area.
pub fn wundreska_edit(area: &mut [u8], edit: &[u8]) -> u32
    ensures { HostEdit area.old edit.now result area.new }
{
    number(edit_area(area, edit))
}

// The refusal of a question about an open model whose answer has too short an area: that of the model's own area comes first.
fn refuse_answer(area: &[u8]) -> Result<(), Refusal>
    ensures { refusal_of result ≡ first_refusal (closed unnumbered_fields (area_file area.now) then unless false area_short) }
{
    judge_area(area)?;
    Err(Refusal::AreaShort)
}

// Judges the open model in the area, then the area of the answer, then the columns held as present; where all are accepted, writes the
// answer to the model over the columns present over the front of the answer's area.
pub fn wundreska_answer(area: &[u8], answer: &mut [u8]) -> u32
    ensures { HostOpenAnswer area.now answer.old result answer.new }
{
    number(open_answer(area, answer))
}

fn open_answer(area: &[u8], answer: &mut [u8]) -> Result<(), Refusal>
    ensures { HostOpenAnswer area.now answer.old (refusal_of result) answer.new }
{
    if answer.len() < ANSWER_LENGTH {
        return refuse_answer(area);
    }
    let r = answer_area(area)?;
    put_answer(answer, &AnswerNumbers::of(&r))
}
