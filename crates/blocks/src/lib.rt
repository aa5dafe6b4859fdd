// The blocks of a model in solving order, of a model handed over or in a file; and the bytes of the answer.
#![tactic(auto)]

ghost use Rattle.std.specs.Prelude.{◌≡◌, Bool, Ok, ℕ, ◌<◌, ◌≤◌, length};
ghost use Rattle.std.proofs.Math.Option.{none};
ghost use Rattle.limits.specs.Limits.{most_columns};
ghost use Rattle.counting.specs.Sets.{Set, ◌∈◌};
ghost use Rattle.columns.specs.Columns.{members};
ghost use Rattle.columns.specs.ColumnSets.{whole};
ghost use Rattle.models.specs.Lent.{constants_lent, rows_lent};
ghost use Rattle.listed_models.specs.ListedModel.{listed_model};
ghost use Rattle.relation.specs.Relations.{row_of};
ghost use Rattle.format.specs.Refused.{refusal_of};
ghost use Rattle.format.specs.TestLaws.{Accepted};
ghost use Rattle.host.specs.AreaCall.{PutOver};
ghost use Rattle.blocks.specs.Shown.{blocks_shown};
ghost use Rattle.blocks.specs.Answers.{BlocksAsked, BlocksModelCall, BlocksFileCall};
ghost use Rattle.blocks.specs.Bytes.{blocks_length, blocks_bytes};
ghost use Rattle.blocks.specs.Code.{Ordered, BySize, NeedsShown, Waits, Numbered, ListedBy};

use columns::{ColumnSet, MOST_WORDS, ROW_WORDS};
use exchange::column_reach;
use format::{Refusal, judge_model};
use limits::{MOST_COLUMNS, MOST_CONSTANTS, NO_COLUMN};
use loader::read_rows;
use models::LentModel;

// How many blocks there are; and the number of each column's block in the listing, `NO_COLUMN` past the last column.
#[derive(Drop)]
pub struct Blocks {
    pub count: u8,
    pub numbers: [u8; MOST_COLUMNS],
}

// How many bytes an answer takes.
pub const BLOCKS_LENGTH: usize = 1 + MOST_COLUMNS;

// The words of an area with a row for each size that a column's row may have.
const SIZE_WORDS: usize = MOST_WORDS + ROW_WORDS;

// The columns by the size of their rows: row k has those of the set whose rows have k columns.
fn by_size(rows: &[u64], all: ColumnSet) -> [u64; SIZE_WORDS]
    ensures { BySize (members (whole all)) rows.now result }
{
    let mut table = [0u64; SIZE_WORDS];
    for x in all {
        let k = columns::row(rows, x).size();
        let more = columns::row(&table, k).with(x);
        columns::put_row(&mut table, k, more);
    }
    table
}

// What must come before the block of each column. What stands in the row of x has a row of its own within that of x: of the same size
// where it shares the block, and smaller where it does not.
fn all_needs(rows: &[u64], all: ColumnSet) -> [u64; MOST_WORDS]
    ensures { (n : ℕ) (E : Set) (b t : ℕ → ℕ → Bool) → Ordered n E b t (members (whole all)) rows.now → NeedsShown n E b t result }
{
    let sizes = by_size(rows, all);
    let mut needs = [0u64; MOST_WORDS];
    for x in all {
        let row = columns::row(rows, x);
        let block = columns::row(&sizes, row.size());
        columns::put_row(&mut needs, x, row.difference(block));
    }
    needs
}

// The columns of a block get its number.
fn number_block(numbers: &mut [u8], block: ColumnSet, k: u8)
    requires { (x : ℕ) → x ∈ members (whole block) → x < length numbers.old }
    ensures { Numbered (members (whole block)) k numbers.old numbers.new }
{
    for x in block {
        numbers[x] = k;
    }
}

// Column x waits for column y.
fn wait(waiting: &mut [u64], y: usize, x: usize)
    ensures { Waits y x waiting.old waiting.new }
{
    let more = columns::row(waiting, y).with(x);
    columns::put_row(waiting, y, more);
}

// The columns that wait for one of the set.
fn woken(waiting: &[u64], set: ColumnSet) -> ColumnSet
    ensures { (x y : ℕ) → y ∈ members (whole set) → x ∈ row_of waiting.now y → x ∈ members (whole result) }
{
    let mut all = ColumnSet::empty();
    for y in set {
        all = all.union(columns::row(waiting, y));
    }
    all
}

// The blocks, one after another: always the permitted one with the least column. A column that is not permitted waits for one that
// must come before, and is not looked at until that is listed. While a column is left, a permitted one is awake.
fn list(rows: &[u64], needs: &[u64], all: ColumnSet) -> Blocks
    requires { (n : ℕ) × (E : Set) × (b : ℕ → ℕ → Bool) × (t : ℕ → ℕ → Bool) × Ordered n E b t (members (whole all)) rows.now × NeedsShown n E b t needs.now }
    ensures { (n : ℕ) (E : Set) (b t : ℕ → ℕ → Bool) → Ordered n E b t (members (whole all)) rows.now → NeedsShown n E b t needs.now → ListedBy n E b t (blocks_shown (Ok result)) }
{
    let mut numbers = [NO_COLUMN; MOST_COLUMNS];
    let mut waiting = [0u64; MOST_WORDS];
    let mut k: u8 = 0;
    let mut rest = all;
    let mut awake = all;
    while !rest.is_empty() {
        let x = awake.first();
        let before = columns::row(needs, x);
        let missing = rest.intersection(before);
        if missing.is_empty() {
            let block = columns::row(rows, x).difference(before);
            number_block(&mut numbers, block, k);
            rest = rest.difference(block);
            awake = awake.union(woken(&waiting, block)).intersection(rest);
            k += 1;
        } else {
            wait(&mut waiting, missing.first(), x);
            awake = awake.without(x);
        }
    }
    Blocks { count: k, numbers }
}

// The answer about a model that is judged.
fn ask(model: &LentModel<'_>) -> Blocks
    requires { Accepted model.now.p model.now.n model.now.a model.now.b (constants_lent model.now) (rows_lent model.now) none }
    ensures { BlocksAsked (listed_model model.now.p model.now.n model.now.a model.now.b (constants_lent model.now) (rows_lent model.now)) (blocks_shown (Ok result)) }
{
    let all = ColumnSet::below(model.n);
    let Some(rows) = column_reach(model, all) else {
        unreachable!()
    };
    let needs = all_needs(&rows, all);
    list(&rows, &needs, all)
}

// The blocks of a layered model. Numbers are judged and no more.
pub fn model_blocks(model: &LentModel<'_>) -> Result<Blocks, Refusal>
    ensures { BlocksModelCall model.now (blocks_shown result) }
{
    judge_model(model)?;
    Ok(ask(model))
}

// The same of the model in a file, or the file's refusal.
pub fn file_blocks(file: &[u8]) -> Result<Blocks, Refusal>
    ensures { BlocksFileCall file.now (blocks_shown result) }
{
    let mut constants = [0u16; MOST_CONSTANTS];
    let mut parameters = [0u64; MOST_WORDS];
    let sizes = read_rows(file, &mut constants, &mut parameters)?;
    Ok(ask(&sizes.model(&constants, &parameters)))
}

// The bytes of an answer: the number of blocks, and that of each column's block.
pub fn put_blocks(out: &mut [u8], answer: &Blocks) -> Result<(), Refusal>
    ensures { PutOver blocks_length (blocks_bytes (blocks_shown (Ok answer.now))) out.old (refusal_of result) out.new }
{
    if out.len() < BLOCKS_LENGTH {
        return Err(Refusal::AreaShort);
    }
    out[0] = answer.count;
    out[1..BLOCKS_LENGTH].copy_from_slice(&answer.numbers);
    Ok(())
}
