//! The tests that are calls of the program: scripts in `data/`, and what no script can show. A line says where one ends
//! otherwise; the last line of each kind, whether all of them end as they have to.
#![tactic(auto)]

mod comparing;
mod devices;
mod explanations;
mod limits;
mod running;
mod scripts;

use std::io;

fn main(rt: HostRuntime) -> io::Result<()> {
    let (passed, failed) = scripts::tally(&rt)?;
    if passed == 0 || failed > 0 {
        println!(rt; "{failed} of the files fail")?;
    } else {
        println!(rt; "each script gives its output")?;
    }
    if devices::all_pass(&rt)? {
        println!(rt; "each call ends as it has to")?;
    }
    if explanations::all_pass(&rt)? {
        println!(rt; "each explanation is one that it may be")?;
    }
    if limits::all_pass(&rt)? {
        println!(rt; "each limit is kept")?;
    }
    Ok(())
}
