//! Lists of names.
ghost use Rattle.std.specs.Prelude.{◌≡◌, ◌++◌, ◌∷◌, [], IfOk, unwrap_or};

use lb_base::{Name, NameList, NoMemory};
use lb_values::Shared;
use std::alloc::Global;

// The same names.
fn copy_names(alloc: Global, names: &[Name]) -> Result<NameList, NoMemory>
    ensures { IfOk result (λ list. list ≡ names.now) }
{
    let mut list = NameList::new(alloc);
    for name in names {
        list.push(name.clone()?)?;
    }
    Ok(list)
}

fn copy_if_any(alloc: Global, names: Option<Shared<NameList>>) -> Result<NameList, NoMemory>
    ensures { IfOk result (λ list. list ≡ unwrap_or names []) }
{
    match names {
        None => Ok(NameList::new(alloc)),
        Some(names) => copy_names(alloc, names.get().as_slice()),
    }
}

/// A list of names, which may be missing, with one more at its end.
pub fn with_name(
    alloc: Global,
    names: Option<Shared<NameList>>,
    name: &Name,
) -> Result<Shared<NameList>, NoMemory>
    ensures { IfOk result (λ list. list ≡ unwrap_or names [] ++ name.now ∷ []) }
{
    let mut list = copy_if_any(alloc, names)?;
    list.push(name.clone()?)?;
    Shared::new(alloc, list)
}
