//! What old aux files say.
use lb_base::{Bytes, Listed, Name};
use lb_values::{CounterList, LabelPair};

/// What a line of an aux file says, or the lines of a checkpoint (source2e, files ltfiles, ltsect and ltxref).
#[derive(Drop)]
pub enum Line {
    /// What the label of a key stands for: `\newlabel`.
    Label(Name, LabelPair),
    /// The name of another aux file: `\@input`.
    Input(Name),
    /// A text for the file of an ending, as `toc`: `\@writefile`.
    Entry(Name, Bytes),
    /// The counters of a chapter's checkpoint: `\@setckpt`.
    Checkpoint(Name, CounterList),
}

/// What an aux file says, in the order of its lines. It has each label of a key; the last one of them counts.
pub type Aux = Listed<Line>;
