//! What the log tells.
use lb_base::{Bytes, Fault, Name, TokList};

/// An event that the log has a line for. The lines are this project's own, but that a missing width stands as tex.web prints it.
#[derive(Drop)]
pub enum Event {
    /// The run of a main file begins.
    Start(Name),
    /// The options of the class.
    Options(Bytes),
    /// A file is read.
    File(Name),
    /// A page of this number is shipped.
    Page(i32),
    /// A line is too wide, by so many scaled points; its paragraph ends at this line of a file.
    Overfull { missing: i32, file: Name, line: u64 },
    /// A line stretches too far; its paragraph ends at this line of a file.
    Underfull { file: Name, line: u64 },
    /// A font has no character of this code.
    MissingCharacter(u8, Name),
    /// A reference to a key that has no label.
    UndefinedReference(Name),
    /// A key has another label.
    MultipleLabel(Name),
    /// A text of the author's.
    Typeout(TokList),
    /// What ends the run.
    Fault(Fault),
    /// The run ends, with a DVI file of so many pages and bytes.
    Output { main: Name, pages: u32, bytes: u64 },
}
