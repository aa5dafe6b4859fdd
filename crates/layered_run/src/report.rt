// One line for a model: its name, and what the layered rank call answers.
use columns::ColumnSet;
use layered::{Answer, layered_rank};
use limits::NO_COLUMN;
use models::LentModel;
use std::io;

// The columns of a set, in braces.
fn braces(rt: &impl Print, set: ColumnSet) -> io::Result<()> {
    rt.write_all(b" {")?;
    for x in set {
        print!(rt; " {x}")?;
    }
    rt.write_all(b" }")
}

// Whether the assignment shown has as many columns as the rank says.
fn adds_up(answer: &Answer) -> bool {
    let serving = answer.rows.iter().filter(|x| **x != NO_COLUMN).count();
    answer.constants.size().wrapping_add(serving) == usize::from(answer.rank)
}

fn tell(rt: &impl Print, answer: &Answer) -> io::Result<()> {
    print!(rt; " 0 {} {}", u8::from(answer.verdict), answer.rank)?;
    braces(rt, answer.placed)?;
    braces(rt, answer.short)?;
    let adds = if adds_up(answer) { "yes" } else { "no" };
    println!(rt; " {adds}")
}

// The rest of a line whose name is written.
pub fn answer_line(rt: &impl Print, model: &LentModel<'_>) -> io::Result<()> {
    match layered_rank(model) {
        Ok(answer) => tell(rt, &answer),
        Err(refusal) => println!(rt; " {} 0 0 {{ }} {{ }} yes", u32::from(refusal)),
    }
}

pub fn line(rt: &impl Print, name: &[u8], model: &LentModel<'_>) -> io::Result<()> {
    rt.write_all(name)?;
    answer_line(rt, model)
}
