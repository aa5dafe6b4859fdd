// The archive for the tests and the benchmark: the calls for models handed over without a file. Each is the library's call of the same name, `harness`,
// with the same clause.
#![tactic(auto)]

ghost use Rattle.std.specs.Prelude.{◌≡◌, ℕ, take};
ghost use Rattle.columns.specs.Bytes.{number};
ghost use Rattle.columns.specs.Columns.{room_bytes, members};
ghost use Rattle.columns.specs.ColumnSets.{row_numbers};
ghost use Rattle.format.specs.Numbers.{lent};
ghost use Rattle.format.specs.File.Format.{WriteCall};
ghost use Rattle.touching.specs.RowCount.{touching_count};
ghost use Rattle.harness.specs.Calls.{LayeredBytes, MixedBytes, MultipliersBytes, ReasonBytes, AcceptanceCallBytes, BlocksCallBytes, DegreeCallBytes, OpenBytes, EditBytes, AnswerBytes, FileInAreas};

#[unsafe(no_mangle)]
pub extern "C" fn harness_layered(
    p: u32,
    n: usize,
    a: usize,
    b: usize,
    constants: &[u16],
    parameters: &[u64],
    numbered: bool,
    numbers: &[u16],
    answer: &mut [u8],
) -> u32
    ensures { LayeredBytes p n a b constants.now (row_numbers parameters.now) (lent numbered numbers.now) answer.old result answer.new }
{
    harness::harness_layered(p, n, a, b, constants, parameters, numbered, numbers, answer)
}

#[unsafe(no_mangle)]
pub extern "C" fn harness_mixed(
    p: u32,
    n: usize,
    a: usize,
    b: usize,
    constants: &[u16],
    parameters: &[u64],
    numbered: bool,
    numbers: &[u16],
    answer: &mut [u8],
) -> u32
    ensures { MixedBytes p n a b constants.now (row_numbers parameters.now) (lent numbered numbers.now) answer.old result answer.new }
{
    harness::harness_mixed(p, n, a, b, constants, parameters, numbered, numbers, answer)
}

#[unsafe(no_mangle)]
pub extern "C" fn harness_multipliers(
    p: u32,
    n: usize,
    a: usize,
    b: usize,
    constants: &[u16],
    parameters: &[u64],
    numbered: bool,
    numbers: &[u16],
    held: &[u8],
    column: usize,
    answer: &mut [u8],
) -> u32
    ensures { MultipliersBytes p n a b constants.now (row_numbers parameters.now) (lent numbered numbers.now) (number (take room_bytes held.now)) column answer.old result answer.new }
{
    harness::harness_multipliers(
        p, n, a, b, constants, parameters, numbered, numbers, held, column, answer,
    )
}

#[unsafe(no_mangle)]
pub extern "C" fn harness_reason(
    p: u32,
    n: usize,
    a: usize,
    b: usize,
    constants: &[u16],
    parameters: &[u64],
    numbered: bool,
    numbers: &[u16],
    column: usize,
    answer: &mut [u8],
) -> u32
    ensures { ReasonBytes p n a b constants.now (row_numbers parameters.now) (lent numbered numbers.now) column answer.old result answer.new }
{
    harness::harness_reason(
        p, n, a, b, constants, parameters, numbered, numbers, column, answer,
    )
}

#[unsafe(no_mangle)]
pub extern "C" fn harness_accepts(
    p: u32,
    n: usize,
    a: usize,
    b: usize,
    constants: &[u16],
    parameters: &[u64],
    numbered: bool,
    numbers: &[u16],
    claim: &[u8],
    answer: &mut [u8],
) -> u32
    ensures { AcceptanceCallBytes p n a b constants.now (row_numbers parameters.now) (lent numbered numbers.now) claim.now answer.old result answer.new }
{
    harness::harness_accepts(
        p, n, a, b, constants, parameters, numbered, numbers, claim, answer,
    )
}

#[unsafe(no_mangle)]
pub extern "C" fn harness_blocks(
    p: u32,
    n: usize,
    a: usize,
    b: usize,
    constants: &[u16],
    parameters: &[u64],
    numbered: bool,
    numbers: &[u16],
    answer: &mut [u8],
) -> u32
    ensures { BlocksCallBytes p n a b constants.now (row_numbers parameters.now) (lent numbered numbers.now) answer.old result answer.new }
{
    harness::harness_blocks(p, n, a, b, constants, parameters, numbered, numbers, answer)
}

#[unsafe(no_mangle)]
pub extern "C" fn harness_degree(
    p: u32,
    n: usize,
    a: usize,
    b: usize,
    constants: &[u16],
    parameters: &[u64],
    numbered: bool,
    numbers: &[u16],
    rowpowers: &[u8],
    columnpowers: &[u8],
    parameterpowers: &[u8],
    answer: &mut [u8],
) -> u32
    ensures { DegreeCallBytes p n a b constants.now (row_numbers parameters.now) (lent numbered numbers.now) rowpowers.now columnpowers.now parameterpowers.now answer.old result answer.new }
{
    harness::harness_degree(
        p,
        n,
        a,
        b,
        constants,
        parameters,
        numbered,
        numbers,
        rowpowers,
        columnpowers,
        parameterpowers,
        answer,
    )
}

#[unsafe(no_mangle)]
pub extern "C" fn harness_open(
    p: u32,
    n: usize,
    a: usize,
    b: usize,
    constants: &[u16],
    parameters: &[u64],
    numbered: bool,
    numbers: &[u16],
    present: &mut [u8],
) -> u32
    ensures { OpenBytes p n a b constants.now (row_numbers parameters.now) (lent numbered numbers.now) present.old result present.new }
{
    harness::harness_open(
        p, n, a, b, constants, parameters, numbered, numbers, present,
    )
}

#[unsafe(no_mangle)]
pub extern "C" fn harness_edit(
    p: u32,
    n: usize,
    a: usize,
    b: usize,
    constants: &[u16],
    parameters: &mut [u64],
    present: &mut [u8],
    kind: u8,
    row: usize,
    column: usize,
) -> u32
    ensures { EditBytes p n a b constants.now parameters.old present.old kind row column result parameters.new present.new }
{
    harness::harness_edit(
        p, n, a, b, constants, parameters, present, kind, row, column,
    )
}

#[unsafe(no_mangle)]
pub extern "C" fn harness_answer(
    p: u32,
    n: usize,
    a: usize,
    b: usize,
    constants: &[u16],
    parameters: &[u64],
    present: &[u8],
    answer: &mut [u8],
) -> u32
    ensures { AnswerBytes p n a b constants.now (row_numbers parameters.now) (number (take room_bytes present.now)) answer.old result answer.new }
{
    harness::harness_answer(p, n, a, b, constants, parameters, present, answer)
}

#[unsafe(no_mangle)]
pub extern "C" fn harness_write(
    p: u32,
    n: usize,
    a: usize,
    b: usize,
    constants: &[u16],
    parameters: &[u64],
    numbered: bool,
    numbers: &[u16],
    out: &mut [u8],
) -> u32
    ensures { (written : ℕ) × WriteCall p n a b constants.now (row_numbers parameters.now) (lent numbered numbers.now) out.old result written out.new }
{
    harness::harness_write(p, n, a, b, constants, parameters, numbered, numbers, out)
}

#[unsafe(no_mangle)]
pub extern "C" fn harness_read(
    file: &[u8],
    constants: &mut [u16],
    parameters: &mut [u64],
    numbers: &mut [u16],
) -> u32
    ensures { FileInAreas file.now constants.old (row_numbers parameters.old) numbers.old result constants.new (row_numbers parameters.new) numbers.new }
{
    harness::harness_read(file, constants, parameters, numbers)
}

#[unsafe(no_mangle)]
pub extern "C" fn harness_touching(n: usize, b: usize, parameters: &[u64], set: &[u8]) -> usize
    ensures { result ≡ touching_count n b (row_numbers parameters.now) (members (number (take room_bytes set.now))) }
{
    harness::harness_touching(n, b, parameters, set)
}
