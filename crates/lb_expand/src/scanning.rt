//! Scans that are given tokens.
ghost use Rattle.std.specs.Prelude.{◌≡◌, ◌∷◌, ◌++◌, [], Some};
ghost use Rattle.lb_model_grammar.specs.Dimensions.{meant};
ghost use Rattle.lb_model_grammar.specs.Scans.{want_of};
ghost use Rattle.lb_model.specs.PresentFont.{looks_of_font};
ghost use Rattle.lb_model_expansion.specs.Expansion.{asked_of, font_size, present_font, scan_as, scan_quantity, scan_token};
ghost use Rattle.lb_model_expansion.specs.Steps.{looking};
ghost use Rattle.lb_expand.specs.Feeding.{ClosesOver};
ghost use Rattle.lb_expand.specs.Measures.{measured_as};

use crate::closing::Closed;
use crate::feeder::Feeder;
use crate::fonts::{Measured, measure};
use crate::readings::Opened;
use lb_base::{NoMemory, Stop};
use lb_model::{Cells, Purpose};
use lb_model_expansion::Went;
use lb_model_grammar::{Given, Want};
use lb_scan::Scan;
use lb_values::Meaning;
use std::alloc::AllocError;

impl<'a, C: Cells> Feeder<'a, C> {
    /// A scan is given a token of a meaning, or the end of the piece.
    pub(crate) fn give_scan(
        &mut self,
        scan: Scan,
        purpose: Purpose,
        given: Given,
        meaning: &Option<Meaning>,
    ) -> Result<Closed, NoMemory>
        ensures closes { ClosesOver C.Cells (scan_token meaning.now scan.kind purpose (scan.given ++ given ∷ [])) result self.new self.old }
        ensures same_cells { self.new.cells.ghost_name ≡ self.old.cells.ghost_name }
        ensures same_desk { self.new.desk.ghost_name ≡ self.old.desk.ghost_name }
    {
        let mut scan = scan;
        match scan.take(given) {
            Err(Stop::Fault(kind)) => Ok(Closed::Went(Went::Stopped(kind))),
            Err(_) => Err(AllocError),
            Ok(want) => self.follow_scan(scan, purpose, want, meaning),
        }
    }

    // A scan goes on where it was given a token, asks for what begins with it or for a size of the present font, or closes.
    fn follow_scan(
        &mut self,
        scan: Scan,
        purpose: Purpose,
        want: Want,
        meaning: &Option<Meaning>,
    ) -> Result<Closed, NoMemory>
        requires { want_of (meant scan.kind scan.given) ≡ Some want }
        ensures closes { ClosesOver C.Cells (scan_token meaning.now scan.kind purpose scan.given) result self.new self.old }
        ensures same_cells { self.new.cells.ghost_name ≡ self.old.cells.ghost_name }
        ensures same_desk { self.new.desk.ghost_name ≡ self.old.desk.ghost_name }
    {
        match want {
            Want::Expanded => {
                let went = self.keep_scan(scan, purpose)?;
                Ok(Closed::Went(went))
            }
            Want::Plain => {
                let went = self.keep_scan(scan, purpose)?;
                Ok(Closed::Went(went))
            }
            Want::Quantity => self.ask_of(Opened::Scan(scan, purpose), meaning),
            Want::Em => self.give_size(scan, purpose, Want::Em),
            Want::Ex => self.give_size(scan, purpose, Want::Ex),
            // A scan that wants nothing more has a value.
            Want::Done => match scan.value() {
                None => Err(AllocError),
                Some(found) => {
                    let after = scan.give_back();
                    self.close_scan(purpose, found, after)
                }
            },
        }
    }

    // A scan is given a size of the present font.
    fn give_size(&mut self, scan: Scan, purpose: Purpose, want: Want) -> Result<Closed, NoMemory>
        ensures closes { ClosesOver C.Cells (λ more c. looking (looks_of_font c) (font_size (present_font c) want scan.kind purpose scan.given more c)) result
            self.new self.old }
        ensures same_cells { self.new.cells.ghost_name ≡ self.old.cells.ghost_name }
        ensures same_desk { self.new.desk.ghost_name ≡ self.old.desk.ghost_name }
    {
        let measured = measure(self.desk.alloc, self.cells, want)?;
        self.give_measured(scan, purpose, measured)
    }

    fn give_measured(
        &mut self,
        scan: Scan,
        purpose: Purpose,
        measured: Measured,
    ) -> Result<Closed, NoMemory>
        ensures closes { ClosesOver C.Cells (measured_as measured scan.kind purpose scan.given) result self.new self.old }
        ensures same_cells { self.new.cells.ghost_name ≡ self.old.cells.ghost_name }
        ensures same_desk { self.new.desk.ghost_name ≡ self.old.desk.ghost_name }
    {
        match measured {
            Measured::Size(size) => self.scan_quantity(scan, purpose, size),
            Measured::Stops(went) => Ok(Closed::Went(went)),
        }
    }
}
