//! A complete host of the shell: its own native (pricer.rt), its own output (ledger.rt), and a run with both.
//! docs/hosts/EMBEDDING.md explains it.
#![tactic(auto)]

ghost use Rattle.std.specs.Prelude.{◌≡◌, false};

mod ledger;
mod pricer;

use bb_shell::{Finish, InputFault, run_texts};
use ledger::Ledger;
use pricer::pricers;
use std::alloc::Global;
use std::io;
use std::io::Write;
use std::process::ExitCode;

const SCHEMA: &str = r#"{"classes":[{"name":"parcel",
    "slots":[{"name":"weight","kind":"int"},{"name":"price","kind":"int"}]}]}"#;

const UNITS: &str = r#"{"units":[{"name":"a","class":"parcel","slots":{"weight":4}},
    {"name":"b","class":"parcel","slots":{"weight":10}}]}"#;

const SOURCES: &str = "source pricer on parcel { when create parcel; rate 10; native; }
source till on parcel { when update parcel.price; rate 20; do { with p = it as parcel { say p.price; } } }
";

fn main(rt: HostRuntime) -> ExitCode {
    let mut out = Ledger::new(io::writer(&rt));
    let status = match run(rt.alloc(), &mut out) {
        Ok(Finish::Memory) | Err(InputFault::Memory) => 5,
        Ok(Finish::Write) => 6,
        Ok(_) => 0,
        Err(_) => 2,
    };
    let lines = out.lines();
    match println!(rt; "{lines} lines") {
        Ok(()) => ExitCode::from(status),
        Err(_) => ExitCode::from(6),
    }
}

// Runs the sources, one of which is this host's native, and writes the trace.
fn run<W: Write>(alloc: Global, out: &mut Ledger<W>) -> Result<Finish, InputFault>
    requires { out.old.pipe.failed ≡ false }
{
    let natives = pricers(alloc)?;
    run_texts(alloc, SCHEMA, UNITS, SOURCES, "", natives, 100, 0, out)
}
