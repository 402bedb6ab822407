//! The worked rows of towers, of what stands beside them, and of commands: each file of `data/` is a list of cases, and this
//! program writes each file again with what each line of it gives behind the line. `stdout` is the table that this is to be.
//! The lists are as those of the program `worked_rows`; docs/ROWS.md says how to add to them.
#![tactic(auto)]

mod alike_cases;
mod endo_cases;
mod log_cases;
mod run_cases;
mod tower_cases;
mod towers;

use crate::alike_cases::AlikeCases;
use crate::endo_cases::EndoCases;
use crate::log_cases::LogCases;
use crate::run_cases::RunCases;
use crate::tower_cases::TowerCases;
use anyhow::Result;
use case_lists::{folder, show_cases};

fn main(rt: HostRuntime) -> Result<()> {
    let folder = folder(&rt)?;
    show_cases::<EndoCases>(&rt, &folder, "endos")?;
    show_cases::<LogCases>(&rt, &folder, "logs")?;
    show_cases::<TowerCases>(&rt, &folder, "towers")?;
    show_cases::<AlikeCases>(&rt, &folder, "alike")?;
    show_cases::<RunCases>(&rt, &folder, "commands")
}
