//! Lists of what is to be done to an outlet.
ghost use Rattle.std.specs.Prelude.{◌≡◌, OnOk, OnErr};
ghost use Rattle.std.specs.List.{flat_map};
ghost use Rattle.lb_model.specs.Journal.{Adds, AddsPrefix};
ghost use Rattle.lb_model.specs.Causes.{HasCause};
ghost use Rattle.lb_run.specs.Writes.{entries_of};

use lb_base::{Bytes, Name};
use lb_files::{Failed, Outlet};

/// One thing that is to be done to an outlet.
#[derive(Drop)]
pub enum Write {
    Begin(Name),
    Append(Name, Bytes),
}

fn perform<O: Outlet>(outlet: &mut O, write: &Write) -> Result<(), Failed>
    ensures ok { OnOk result (Adds (O.journal outlet.old) (O.journal outlet.new) (entries_of write.now)) }
    ensures err { OnErr result (AddsPrefix (O.journal outlet.old) (O.journal outlet.new) (entries_of write.now)) }
    ensures cause { HasCause (O.faults outlet.old) (O.faults outlet.new) result }
{
    match write {
        Write::Begin(file) => outlet.begin(file),
        Write::Append(file, bytes) => outlet.append(file, bytes.as_slice()),
    }
}

/// Does all of it in order, up to what fails.
pub fn perform_all<O: Outlet>(outlet: &mut O, writes: &[Write]) -> Result<(), Failed>
    ensures ok { OnOk result (Adds (O.journal outlet.old) (O.journal outlet.new) (flat_map entries_of writes.now)) }
    ensures err { OnErr result (AddsPrefix (O.journal outlet.old) (O.journal outlet.new) (flat_map entries_of writes.now)) }
    ensures cause { HasCause (O.faults outlet.old) (O.faults outlet.new) result }
{
    for write in writes {
        perform(outlet, write)?;
    }
    Ok(())
}
