//! The worked rows of certificates: each file of `data/` is a list of cases, and this program writes each file again with what each
//! line of it gives behind the line. `stdout` is the table that this is to be. The lists are as those of the program `worked_rows`;
//! docs/ROWS.md says how to add to them.
#![tactic(auto)]

mod certificate_cases;

use crate::certificate_cases::CertificateCases;
use anyhow::Result;
use case_lists::{folder, show_cases};

fn main(rt: HostRuntime) -> Result<()> {
    let folder = folder(&rt)?;
    show_cases::<CertificateCases>(&rt, &folder, "certificates")
}
