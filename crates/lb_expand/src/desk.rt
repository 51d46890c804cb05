//! What a feeder keeps beside the cells.
ghost use Rattle.std.specs.Prelude.{◌≡◌, ◌≤◌, ◌<◌, ◌+◌, ◌-◌, ◌^◌, ◌∷◌, [], IfOk, Some, drop, length, take};
ghost use Rattle.lb_values.specs.Kept.{Kept};
ghost use Rattle.lb_values.specs.declared.value.Value.{Value};
ghost use Rattle.lb_model.specs.declared.place.Mode.TheVariants.{Vertical};
ghost use Rattle.lb_model.specs.declared.world.World.{World};
ghost use Rattle.lb_model.specs.Sources.{text_of};
ghost use Rattle.lb_model.specs.Sources.Item.{Text as AText};
ghost use Rattle.lb_model.specs.Stacked.{stacked};
ghost use Rattle.lb_expand.specs.Views.{config};

use crate::readings::Readings;
use lb_base::{Bytes, Name, NoMemory};
use lb_cond::CondState;
use lb_groups::Groups;
use lb_model::{Append, Mode, Place};
use lb_tokens::{Source, Text};
use lb_values::Shared;
use std::alloc::Global;

/// All that is under way while tokens are read, beside the cells: the open groups, what stands next, the place of the last token that was
/// taken from a text, the open conditionals and the open readings, the mode, what was added to the journal, and how many steps are left.
#[derive(Drop)]
pub struct Desk {
    pub alloc: Global,
    pub groups: Groups,
    pub source: Source,
    pub place: Option<Place>,
    pub conditionals: CondState,
    pub readings: Readings,
    pub mode: Mode,
    pub appends: Vec<Append>,
    pub left: u64,
}

impl Desk {
    /// Begins with the bytes from one place to another of a text, whose first line has this number, and with so many steps left: nothing is
    /// open, and the mode is vertical.
    pub fn over(
        alloc: Global,
        file: Name,
        line: u64,
        bytes: Shared<Bytes>,
        from: usize,
        to: usize,
        steps: u64,
    ) -> Result<Desk, NoMemory>
        requires order { from ≤ to }
        requires within { to ≤ length bytes }
        requires room { line + (to - from) < 2 ^ 64 }
        ensures { IfOk result (λ desk. (w : World) (kept : Kept Value) → config w kept desk ≡ record {
          world = w;
          cells = stacked [] kept;
          groups = [];
          source = AText (text_of file line (drop from (take to bytes))) ∷ [];
          place = Some (record { file = file; line = line });
          conditionals = [];
          readings = [];
          mode = Vertical;
          appends = [];
          left = steps;
        }) }
    {
        let place = Place {
            file: file.clone()?,
            line,
        };
        let text = Text::of(alloc, file, line, bytes, from, to)?;
        let mut source = Source::new(alloc);
        source.put_text(text)?;
        Ok(Desk {
            alloc,
            groups: Groups::new(alloc),
            source,
            place: Some(place),
            conditionals: CondState::new(alloc),
            readings: Readings::new(alloc),
            mode: Mode::Vertical,
            appends: Vec::new(alloc),
            left: steps,
        })
    }
}
