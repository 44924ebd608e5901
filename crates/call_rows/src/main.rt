//! Makes calls of the program over objects in memory, and prints what each of them does. The lines of
//! standard input are rows: what a call finds, and its words; the file `stdin` beside `src/` says how
//! they are written. Empty lines and lines that begin with `#` are passed over; a line that is not as
//! it must be is named, and ends the program with status 1.
#![tactic(auto)]

mod fault;
mod objects;
mod scene;
mod table;
mod words;

use crate::fault::Fault;
use crate::scene::Scene;
use crate::words::first_word;
use std::io;
use std::process::ExitCode;

// Does what a line says.
fn obey(rt: &impl Print, scene: &mut Scene, line: &str) -> Result<(), Fault> {
    match first_word(line) {
        ("row", name) => {
            println!(rt; "{name}")?;
            scene.begin()
        }
        ("call", words) => scene.call(rt, words),
        (word, rest) => scene.set_up(word, rest),
    }
}

// Obeys the lines of standard input, and gives the status of the process.
fn obey_lines(rt: &(impl Input + Print + AllocGlobal), scene: &mut Scene) -> io::Result<ExitCode> {
    for (index, line) in rt.lines(rt.alloc()).enumerate() {
        let line = line?;
        if line.is_empty() || line.starts_with('#') {
            continue;
        }
        if let Err(fault) = obey(rt, scene, &line) {
            println!(rt; "line {}: {fault:?}", index.saturating_add(1))?;
            return Ok(ExitCode::from(1));
        }
    }
    Ok(ExitCode::SUCCESS)
}

fn main(rt: HostRuntime) -> io::Result<ExitCode> {
    let mut scene = Scene::new(rt.alloc());
    let status = obey_lines(&rt, &mut scene);
    drop(scene);
    status
}
