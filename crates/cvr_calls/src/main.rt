//! Calls of the libraries that can answer out of memory and that no command of `cvr` makes, made
//! where tools/refuse refuses each allocation in turn. A script prints its name and reads a byte:
//! `c` in a copy of the program, which makes the calls, reads again (`m` where memory was refused),
//! prints what is wrong, and ends. At another byte, or none, it prints what the calls answer, and
//! the next script follows. After them histories of offices are played.
#![tactic(auto)]

mod events;
mod facts;
mod files;
mod histories;
mod offices;
mod records;
mod requests;
mod scripts;
mod trying;
mod volumes;

use files::Files;
use histories::print_histories;
use scripts::try_all;

fn main(rt: HostRuntime) -> anyhow::Result<()> {
    let files = Files::read(&rt)?;
    if try_all(&rt, &files) {
        print_histories(&rt)?;
    }
    Ok(())
}
