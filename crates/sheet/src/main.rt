// Program `sheet`: a job on standard input, its sheet on standard output.
// Design: five programs, each a crate of one line, since they have five names; `run` does the work.
#![tactic(auto)]

use run::Program;
use std::io;

fn main(rt: HostRuntime) -> io::Result<()> {
    run::run(&rt, Program::Sheet)?;
    Ok(())
}
