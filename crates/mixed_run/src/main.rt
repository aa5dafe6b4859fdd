// Runs the mixed rank call: the bench models, the edges of a mixed question, numbered parameters, and every 2 by 2 model of zeros and
// ones with every set of parameters. A line has the model's name, then refusal, verdict, rank and short set, and whether the rows and
// columns shown lie below m and n.
#![tactic(auto)]

mod bench;
mod edges;
mod numbered;
mod report;
mod smallest;

use std::io;

fn main(rt: HostRuntime) -> io::Result<()> {
    bench::run_all(&rt)?;
    edges::run_all(&rt)?;
    numbered::run_all(&rt)?;
    smallest::run_all(&rt)
}
