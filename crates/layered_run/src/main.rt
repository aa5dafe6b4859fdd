// Runs the layered rank call: the bench models, the edges of a model handed over, numbered parameters, and S4 with its columns in
// other orders. A line has the model's name, then refusal, verdict, rank, placed set and short set, and whether the columns of the
// constant side and the rows with a column are as many as the rank says.
#![tactic(auto)]

mod bench;
mod edges;
mod numbered;
mod report;

use std::io;

fn main(rt: HostRuntime) -> io::Result<()> {
    bench::run_all(&rt)?;
    edges::run_all(&rt)?;
    numbered::run_all(&rt)?;
    bench::run_orders(&rt)
}
