//! The lines of a paragraph as they come one by one.
ghost use Rattle.std.specs.Prelude.{◌≡◌, [], List, Ok, Result, OnOk, IfErr};
ghost use Rattle.lb_base.specs.Answers.{Answers};
ghost use Rattle.lb_base.specs.declared.fault.Kind.{Kind};
ghost use Rattle.lb_base.specs.declared.node.Node.{Node};
ghost use Rattle.lb_model_paper.specs.Lines.{joined, penalty_nodes};
ghost use Rattle.lb_lines.specs.Apart.{alone, joined_of};
ghost use Rattle.lb_lines.specs.Cuts.{IsAddStop, so_far};
ghost use Rattle.lb_lines.specs.Sets.{IsSet};

use crate::penalty::push_penalty;
use crate::setting::Set;
use lb_base::{Listed, NodeList, Stop};
use std::alloc::Global;

/// The lines so far, one list a line, and whether boxes stood too deep in one of them.
#[derive(Drop)]
pub struct Added {
    pub lines: Listed<NodeList>,
    pub too_deep: bool,
}

impl Added {
    pub fn nothing(alloc: Global) -> Added
        ensures { so_far result.too_deep result.lines ≡ Ok [] }
    {
        Added {
            lines: Listed::new(alloc),
            too_deep: false,
        }
    }

    /// Adds a line, with the penalty behind it. Stops where the line is too large, and for want of
    /// memory.
    pub fn add(&mut self, set: Set, penalty: i32) -> Result<(), Stop>
        ensures ok { OnOk result ((meant : Result (List Node) Kind) → IsSet meant set → so_far self.new.too_deep self.new.lines ≡ joined_of (so_far self.old.too_deep self.old.lines) (alone (joined meant (Ok (penalty_nodes penalty))))) }
        ensures err { (meant : Result (List Node) Kind) → IsSet meant set → IfErr result (IsAddStop meant) }
    {
        match set {
            Set::Line(mut nodes) => {
                push_penalty(&mut nodes, penalty)?;
                self.lines.push(nodes)?;
            }
            Set::TooDeep => self.too_deep = true,
            Set::TooLarge => return Err(Stop::Fault(lb_base::Kind::DimenTooLarge)),
        }
        Ok(())
    }

    /// All lines, or why there are none.
    pub fn finish(self) -> Result<Listed<NodeList>, Stop>
        ensures { Answers (so_far self.too_deep self.lines) result }
    {
        if self.too_deep {
            return Err(Stop::Fault(lb_base::Kind::DepthLimit));
        }
        Ok(self.lines)
    }
}
