// The archive: the calls for a host in C. Each is the library's call of the same name, `solvability`, with the same clause.
#![tactic(auto)]

ghost use Rattle.solvability.specs.Host.{HostAccepts, HostAnswer, HostBlocks, HostDegree, HostEdit, HostMixedAnswer, HostMultipliers, HostOpen, HostOpenAnswer, HostReason};

#[unsafe(no_mangle)]
pub extern "C" fn wundreska_check(file: &[u8], answer: &mut [u8]) -> u32
    ensures { HostAnswer file.now answer.old result answer.new }
{
    solvability::wundreska_check(file, answer)
}

#[unsafe(no_mangle)]
pub extern "C" fn wundreska_mixed(file: &[u8], answer: &mut [u8]) -> u32
    ensures { HostMixedAnswer file.now answer.old result answer.new }
{
    solvability::wundreska_mixed(file, answer)
}

#[unsafe(no_mangle)]
pub extern "C" fn wundreska_multipliers(
    file: &[u8],
    held: &[u8],
    column: usize,
    answer: &mut [u8],
) -> u32
    ensures { HostMultipliers file.now held.now column answer.old result answer.new }
{
    solvability::wundreska_multipliers(file, held, column, answer)
}

#[unsafe(no_mangle)]
pub extern "C" fn wundreska_reason(file: &[u8], column: usize, answer: &mut [u8]) -> u32
    ensures { HostReason file.now column answer.old result answer.new }
{
    solvability::wundreska_reason(file, column, answer)
}

#[unsafe(no_mangle)]
pub extern "C" fn wundreska_accepts(file: &[u8], claim: &[u8], answer: &mut [u8]) -> u32
    ensures { HostAccepts file.now claim.now answer.old result answer.new }
{
    solvability::wundreska_accepts(file, claim, answer)
}

#[unsafe(no_mangle)]
pub extern "C" fn wundreska_blocks(file: &[u8], answer: &mut [u8]) -> u32
    ensures { HostBlocks file.now answer.old result answer.new }
{
    solvability::wundreska_blocks(file, answer)
}

#[unsafe(no_mangle)]
pub extern "C" fn wundreska_degree(
    file: &[u8],
    rowpowers: &[u8],
    columnpowers: &[u8],
    parameterpowers: &[u8],
    answer: &mut [u8],
) -> u32
    ensures { HostDegree file.now rowpowers.now columnpowers.now parameterpowers.now answer.old result answer.new }
{
    solvability::wundreska_degree(file, rowpowers, columnpowers, parameterpowers, answer)
}

#[unsafe(no_mangle)]
pub extern "C" fn wundreska_open(file: &[u8], area: &mut [u8]) -> u32
    ensures { HostOpen file.now area.old result area.new }
{
    solvability::wundreska_open(file, area)
}

#[unsafe(no_mangle)]
pub extern "C" fn wundreska_edit(area: &mut [u8], edit: &[u8]) -> u32
    ensures { HostEdit area.old edit.now result area.new }
{
    solvability::wundreska_edit(area, edit)
}

#[unsafe(no_mangle)]
pub extern "C" fn wundreska_answer(area: &[u8], answer: &mut [u8]) -> u32
    ensures { HostOpenAnswer area.now answer.old result answer.new }
{
    solvability::wundreska_answer(area, answer)
}
