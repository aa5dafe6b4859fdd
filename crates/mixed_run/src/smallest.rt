// Every 2 by 2 model modulo 2, read off the bits of a number below 256: the four constants, then the parameters of the two rows.
use crate::report::answer_line;
use models::LentModel;
use std::io;

fn run_model(rt: &impl Print, k: u64) -> io::Result<()> {
    let constants = [
        (k % 2) as u16,
        (k / 2 % 2) as u16,
        (k / 4 % 2) as u16,
        (k / 8 % 2) as u16,
    ];
    let parameters = [k / 16 % 4, 0, k / 64 % 4, 0];
    print!(rt; "smallest {k}")?;
    let model = LentModel::unnumbered(2, 2, 2, 2, &constants, &parameters);
    answer_line(rt, &model)
}

pub fn run_all(rt: &impl Print) -> io::Result<()> {
    for k in 0..256 {
        run_model(rt, k)?;
    }
    Ok(())
}
