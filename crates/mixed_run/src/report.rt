// One line for a model: its name, and what the mixed rank call answers.
use mixed::{MixedAnswer, mixed_rank};
use models::LentModel;
use std::io;

// The answer for m rows and n columns.
fn tell(rt: &impl Print, answer: MixedAnswer, m: usize, n: usize) -> io::Result<()> {
    print!(rt; " 0 {} {} {{", u8::from(answer.verdict), answer.rank)?;
    for x in answer.short {
        print!(rt; " {x}")?;
    }
    let is_below = answer.rows.within(m) && answer.columns.within(n);
    let below = if is_below { "yes" } else { "no" };
    println!(rt; " }} {below}")
}

// The rest of a line whose name is written.
pub fn answer_line(rt: &impl Print, model: &LentModel<'_>) -> io::Result<()> {
    match mixed_rank(model) {
        Ok(answer) => tell(rt, answer, model.a, model.n),
        Err(refusal) => println!(rt; " {} 0 0 {{ }} yes", u32::from(refusal)),
    }
}

pub fn line(rt: &impl Print, name: &[u8], model: &LentModel<'_>) -> io::Result<()> {
    rt.write_all(name)?;
    answer_line(rt, model)
}
