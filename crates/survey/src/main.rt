// Reads a stack from standard input, and prints its transform and the map undone from it.
#![tactic(auto)]

mod faults;
mod printing;
mod reading;

use faults::Fault;
use heights::Coefficients;
use std::io::Read;
use std::process::ExitCode;

fn read_input(rt: &HostRuntime) -> Result<Vec<u8>, Fault> {
    let mut bytes = Vec::new(rt.alloc());
    rt.stdin()
        .read_to_end(&mut bytes)
        .map_err(|_| Fault::Input)?;
    Ok(bytes)
}

fn survey(rt: &HostRuntime) -> Result<(), Fault> {
    let heap = rt.alloc();
    let bytes = read_input(rt)?;
    let frame = reading::stack(reading::text(&bytes)?, heap)?;
    let coefficients = Coefficients::of(&frame, heap)?;
    let page = printing::page(&coefficients, heap)?;
    rt.print(page).map_err(|_| Fault::Output)
}

fn main(rt: HostRuntime) -> ExitCode {
    match survey(&rt) {
        Ok(()) => ExitCode::SUCCESS,
        Err(fault) => {
            let _ = eprintln!(rt; "{fault}");
            ExitCode::FAILURE
        }
    }
}
