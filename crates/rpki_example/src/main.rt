//! Prints the serial number of the certificate in the file that the command line names.
#![tactic(auto)]

pub mod asking;
pub mod issuing;

use anyhow::Context;
use rpki::repository::cert::Cert;
use std::{env, fs};

fn main(rt: HostRuntime) -> anyhow::Result<()> {
    let name = env::args(&rt)?.nth(1).context("no file is named")?;
    let octets = fs::read(&rt, name)?;
    let cert = Cert::decode(rt.alloc(), &octets)?;
    let printed = println!(rt; "{}", cert.as_tbs().serial_number());
    drop(cert);
    Ok(printed?)
}
