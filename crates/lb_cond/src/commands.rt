//! The commands that are expanded (TeXbook, chapter 20; tex.web, part 25).
ghost use Rattle.std.specs.Prelude.{◌≡◌};
ghost use Rattle.lb_model.specs.Expandables.{expandable};

use lb_model::{Compared, Expandable, Pairing, TestKind};
use lb_model_grammar::Stopper;
use lb_rows::Command;
use lb_values::Form;

/// What a command does where it is expanded; none where it is not.
pub fn expandable(command: Command) -> Option<Expandable>
    ensures { result ≡ expandable command }
{
    match command {
        Command::ExpandAfter => Some(Expandable::ExpandAfter),
        Command::NoExpand => Some(Expandable::NoExpand),
        Command::CsName => Some(Expandable::CsName),
        Command::String => Some(Expandable::String),
        Command::Number => Some(Expandable::Number),
        Command::RomanNumeral => Some(Expandable::RomanNumeral),
        Command::The => Some(Expandable::The),
        Command::JobName => Some(Expandable::JobName),
        Command::If => Some(Expandable::Test(TestKind::Codes(Pairing::Codes))),
        Command::IfCat => Some(Expandable::Test(TestKind::Codes(Pairing::Categories))),
        Command::IfX => Some(Expandable::Test(TestKind::Meanings)),
        Command::IfNum => Some(Expandable::Test(TestKind::Compare(Compared::Numbers))),
        Command::IfDim => Some(Expandable::Test(TestKind::Compare(Compared::Dimensions))),
        Command::IfOdd => Some(Expandable::Test(TestKind::Odd)),
        Command::IfCase => Some(Expandable::Test(TestKind::Case)),
        Command::IfVMode => Some(Expandable::Test(TestKind::Vertical)),
        Command::IfHMode => Some(Expandable::Test(TestKind::Horizontal)),
        Command::IfTrue => Some(Expandable::Test(TestKind::True)),
        Command::IfFalse => Some(Expandable::Test(TestKind::False)),
        Command::Or => Some(Expandable::Part(Stopper::Or)),
        Command::Else => Some(Expandable::Part(Stopper::Else)),
        Command::Fi => Some(Expandable::Part(Stopper::Fi)),
        Command::Input => Some(Expandable::Input),
        Command::EndInput => Some(Expandable::EndInput),
        Command::Arabic => Some(Expandable::Print(Form::Arabic)),
        Command::LowerRoman => Some(Expandable::Print(Form::LowerRoman)),
        Command::UpperRoman => Some(Expandable::Print(Form::UpperRoman)),
        Command::LowerAlph => Some(Expandable::Print(Form::LowerAlph)),
        Command::UpperAlph => Some(Expandable::Print(Form::UpperAlph)),
        Command::ThePage => Some(Expandable::ThePage),
        _ => None,
    }
}
