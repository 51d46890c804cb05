//! The call that does all that the program does.
ghost use Rattle.std.specs.Prelude.{◌≡◌, ◌≤◌, ◌↔◌, ℕ, None, Some, IfOk, IfSome, IsErrOf, map};
ghost use Rattle.std.specs.String.{string_bytes};
ghost use Rattle.lb_base.specs.declared.fault.Fault as faults;
ghost use Rattle.lb_files.specs.declared.loading.Size.{Size};
ghost use Rattle.lb_model.specs.Journal.{Adds, AddsPrefix};
ghost use Rattle.lb_model.specs.Causes.{Rose};
ghost use Rattle.lb_model.specs.Worlds.{world_of};
ghost use Rattle.lb_model_book.specs.declared.end.End.TheVariants as ends;
ghost use Rattle.lb_model_book.specs.Books.{journal, end_of};
ghost use Rattle.lb_run.specs.Words.{main_of};
ghost use Rattle.lb_run.specs.Runs.{ForWorld, WritesNothing, MayStopShort, IsMissing, IsAnswer, IsRun, IsWithoutMain, IsSettled, IsMetToday, not_yet};

use crate::book::{BookStop, write_book};
use crate::names::tex_file;
use crate::status::Status;
use crate::words::main_word;
use lb_base::{Fault, Kind, Moment, Name};
use lb_files::{Folder, LoadStop, Outlet, Said, load};
use lb_model::World;
use lb_plain::plain_names;
use std::alloc::Global;
use std::thread::Threads;

/// What a run of this main file at this moment can depend on.
fn load_world<F: Folder>(
    alloc: Global,
    main: &str,
    moment: Moment,
    folder: &mut F,
) -> Result<World, LoadStop>
    ensures world { IfOk result (λ world. IfSome (F.contents folder.old) (λ told. world ≡ world_of told main.now moment)) }
    ensures main { IfOk result (λ world. world.main ≡ main.now) }
    ensures same { F.contents folder.new ≡ F.contents folder.old }
    ensures later { F.faults folder.old ≤ F.faults folder.new }
    ensures read_fault { IsErrOf result LoadStop.ReadFault → Rose (F.faults folder.old) (F.faults folder.new) }
    ensures unlimited { (what : Size) (n : ℕ) → IsErrOf result (LoadStop.TooLarge what n) → ⊥ }
{
    let Ok(main) = Name::from_slice(alloc, main.as_bytes()) else {
        return Err(LoadStop::Memory);
    };
    let world = load(alloc, folder)?;
    Ok(World {
        main,
        moment,
        ..world
    })
}

/// Sets the book of a world: its status and what is written are those of the definitions.
fn set_world<O: Outlet>(alloc: Global, world: &World, outlet: &mut O) -> Status
    ensures answers { IsAnswer world.now result }
    ensures done { result ≡ Status.Done → Adds (O.journal outlet.old) (O.journal outlet.new) (journal world.now) }
    ensures part { MayStopShort result → AddsPrefix (O.journal outlet.old) (O.journal outlet.new) (journal world.now) }
    ensures nothing { WritesNothing result → O.journal outlet.new ≡ O.journal outlet.old }
    ensures later { O.faults outlet.old ≤ O.faults outlet.new }
    ensures write_fault { result ≡ Status.WriteFault → Rose (O.faults outlet.old) (O.faults outlet.new) }
{
    let Ok(file) = tex_file(alloc, &world.main) else {
        return Status::NoMemory;
    };
    if world.files.get(&file).is_none() {
        return Status::NoMain;
    }
    let Ok(names) = plain_names(alloc, world) else {
        return Status::NoMemory;
    };
    let Some(names) = names else {
        return Status::Fault(Fault {
            kind: Kind::NotYet,
            file,
            line: 0,
        });
    };
    match write_book(alloc, world, names.as_slice(), outlet) {
        Ok(()) => Status::Done,
        Err(BookStop::Memory) => Status::NoMemory,
        Err(BookStop::Failed) => Status::WriteFault,
    }
}

/// Sets the book of a main file.
fn set<F: Folder, O: Outlet>(
    alloc: Global,
    main: &str,
    moment: Moment,
    folder: &mut F,
    outlet: &mut O,
) -> Status
    ensures run { IsRun (F.contents folder.old) (Some main.now) moment (O.journal outlet.old) (O.journal outlet.new) result }
    ensures not_yet { (fault : faults.Fault) → result ≡ Status.Fault fault → fault ≡ not_yet main.now }
    ensures taken { result ≡ Status.Words → ⊥ }
    ensures same { F.contents folder.new ≡ F.contents folder.old }
    ensures read_fault { result ≡ Status.ReadFault → Rose (F.faults folder.old) (F.faults folder.new) }
    ensures write_fault { result ≡ Status.WriteFault → Rose (O.faults outlet.old) (O.faults outlet.new) }
    ensures quiet { IsMetToday result }
{
    match load_world(alloc, main, moment, folder) {
        Ok(world) => set_world(alloc, &world, outlet),
        Err(LoadStop::Memory) => Status::NoMemory,
        Err(LoadStop::ReadFault) => Status::ReadFault,
        Err(LoadStop::TooLarge(what, number)) => Status::TooLarge(what, number),
    }
}

/// Runs the typesetter: reads the words and the folder, and writes the files of the book to the
/// outlet. The words are `set` and the name of a main file, without its ending. The moment is the one
/// that the DVI file names. `rt` and `said` serve words to come.
///
/// Where folder and outlet tell what they hold, the status and all that was written are those of the
/// definitions: the journal of the outlet grew by exactly `journal` of the world, by some first part
/// of it, or by nothing, as the status says.
pub fn run<R: Threads + Sync, F: Folder, O: Outlet, S: Said>(
    rt: &R,
    alloc: Global,
    words: &[String],
    moment: Moment,
    folder: &mut F,
    outlet: &mut O,
    said: &mut S,
) -> Status
    // The headline: the book was set to its end, and all of its files were written.
    ensures done { result ≡ Status.Done → ForWorld (F.contents folder.old) (main_of (map string_bytes words.now)) moment (λ world. end_of world ≡ ends.Done) }
    ensures written { result ≡ Status.Done → ForWorld (F.contents folder.old) (main_of (map string_bytes words.now)) moment (λ world. Adds (O.journal outlet.old) (O.journal outlet.new) (journal world)) }

    // A fault is the one at which the book ends.
    ensures fault { (fault : faults.Fault) → result ≡ Status.Fault fault → ForWorld (F.contents folder.old) (main_of (map string_bytes words.now)) moment (λ world. end_of world ≡ ends.Fault fault) }
    ensures not_yet { (fault : faults.Fault) → result ≡ Status.Fault fault → IfSome (main_of (map string_bytes words.now)) (λ main. fault ≡ not_yet main) }

    ensures words { (result ≡ Status.Words) ↔ (main_of (map string_bytes words.now) ≡ None) }
    ensures read_fault { result ≡ Status.ReadFault → Rose (F.faults folder.old) (F.faults folder.new) }
    ensures write_fault { result ≡ Status.WriteFault → Rose (O.faults outlet.old) (O.faults outlet.new) }
    ensures no_main { result ≡ Status.NoMain → ForWorld (F.contents folder.old) (main_of (map string_bytes words.now)) moment IsMissing }
    ensures missing { ForWorld (F.contents folder.old) (main_of (map string_bytes words.now)) moment (λ world. IsMissing world → IsWithoutMain result) }
    ensures others { IsMetToday result }

    // What stands after a stop: a first part after a failed write and want of memory, else nothing.
    ensures part { MayStopShort result → ForWorld (F.contents folder.old) (main_of (map string_bytes words.now)) moment (λ world. AddsPrefix (O.journal outlet.old) (O.journal outlet.new) (journal world)) }
    ensures nothing { WritesNothing result → O.journal outlet.new ≡ O.journal outlet.old }

    // Where nothing outside failed and the main file is there, the status is that of the book, or want of memory.
    ensures complete { (Rose (F.faults folder.old) (F.faults folder.new) → ⊥) → (Rose (O.faults outlet.old) (O.faults outlet.new) → ⊥) → ForWorld (F.contents folder.old) (main_of (map string_bytes words.now)) moment (λ world. (IsMissing world → ⊥) → IsSettled result) }

    ensures folder { F.contents folder.new ≡ F.contents folder.old }
    ensures printer { S.bytes said.new ≡ S.bytes said.old }
    ensures printer_faults { S.faults said.new ≡ S.faults said.old }
{
    let Some(main) = main_word(words) else {
        return Status::Words;
    };
    set(alloc, main, moment, folder, outlet)
}
