//! Fonts at a size.
ghost use Rattle.std.specs.Prelude.{◌≡◌, IsTrue};
ghost use Rattle.lb_model_paper.specs.Fonts as fonts;

use crate::program::action;
use lb_base::font::Step;
use lb_base::{FontId, LigStep, Metrics, Name, Parameters, Side};
use std::alloc::AllocError;
use std::marker::Model;

/// A font at a size: the metrics of its characters, and what it does between two of them. Lengths
/// are in scaled points.
#[derive(Drop)]
pub struct Font {
    pub(crate) id: FontId,
    pub(crate) parameters: Parameters,
    /// By code.
    pub(crate) metrics: Vec<Option<Metrics>>,
    /// The steps of all programs.
    pub(crate) steps: Vec<Step>,
    /// Where the program of a code begins.
    pub(crate) starts: Vec<Option<u16>>,
    /// Where the program of the left edge begins.
    pub(crate) edge_start: Option<u16>,
    /// The code of the right edge.
    pub(crate) edge_code: Option<u8>,
}

impl Model for Font {
    ghost use Rattle.std.specs.Prelude.{◌≡◌, length, IsTrue};
    ghost use Rattle.lb_model_paper.specs.Fonts.{FontData, are_drawn};

    ghost Value = { FontData };

    ghost view = { λ f. record { id = f.id; parameters = f.parameters; metrics = f.metrics.items; steps = f.steps.items; starts = f.starts.items; edge_start = f.edge_start; edge_code = f.edge_code } };

    ghost invariant = { λ f. (length f.metrics.items ≡ 256) × (length f.starts.items ≡ 256) × IsTrue (are_drawn f.metrics.items f.steps.items) };
}

impl Font {
    /// The font's file and size. The name is empty until `named` gives one.
    pub fn id(&self) -> &FontId
        ensures { result.now ≡ self.now.id }
    {
        &self.id
    }

    pub fn parameters(&self) -> Parameters
        ensures { result ≡ self.now.parameters }
    {
        self.parameters
    }

    /// The metrics of a character, or none where the font lacks it. Takes no memory.
    pub fn metrics(&self, code: u8) -> Option<Metrics>
        ensures { result ≡ fonts.metrics_of self.now code }
    {
        self.metrics[usize::from(code)]
    }

    /// What the font does between two sides. A ligature is a character that the font has. Takes no
    /// memory, and goes through the program of the left side alone.
    pub fn step(&self, left: Side, right: Side) -> LigStep
        ensures value { result ≡ fonts.step_of self.now left right }
        ensures drawn { IsTrue (fonts.is_drawn self.now.metrics result) }
    {
        let Some(start) = self.start(left) else {
            return LigStep::Nothing;
        };
        let Some(code) = self.code(right) else {
            return LigStep::Nothing;
        };
        action(&self.steps, start, code)
    }

    /// The font under a name. Takes no memory.
    pub fn named(mut self, name: Name) -> Font
        ensures { result ≡ fonts.named self name }
    {
        self.id.name = name;
        self
    }

    fn start(&self, left: Side) -> Option<u16>
        ensures { result ≡ fonts.start_of self.now left }
    {
        match left {
            Side::Char(code) => self.starts[usize::from(code)],
            Side::Edge => self.edge_start,
        }
    }

    fn code(&self, right: Side) -> Option<u8>
        ensures { result ≡ fonts.code_of self.now right }
    {
        match right {
            Side::Char(code) => Some(code),
            Side::Edge => self.edge_code,
        }
    }
}

impl Clone for Font {
    ghost is_clone = { λ font copy. copy ≡ font };

    fn clone(&self) -> Result<Font, AllocError> {
        Ok(Font {
            id: self.id.clone()?,
            parameters: self.parameters,
            metrics: self.metrics.clone()?,
            steps: self.steps.clone()?,
            starts: self.starts.clone()?,
            edge_start: self.edge_start,
            edge_code: self.edge_code,
        })
    }
}
