//! Members of an object, written straight into a text.

ghost use Rattle.std.specs.Prelude.{◌≡◌, [], ◌∷◌, ◌++◌, OnOk, codes, decimal};
ghost use Rattle.json.specs.Token as token;

use ent_json::JsonText;
use std::alloc::AllocError;

/// Writes the number of a module at its key.
pub(crate) fn write_module(out: &mut JsonText, number: usize) -> Result<(), AllocError>
    ensures { OnOk result (out.new ≡ out.old ++ token.key (codes "module") ∷ token.number (decimal number) ∷ []) }
{
    out.key("module")?;
    out.count(number as u64)
}

/// Begins a reply with a list.
pub(crate) fn begin_list(out: &mut JsonText, name: &str) -> Result<(), AllocError>
    ensures { OnOk result (out.new ≡ out.old ++ token.begin_object ∷ token.key name.now ∷ token.begin_array ∷ []) }
{
    out.begin_object()?;
    out.key(name)?;
    out.begin_array()
}

/// Ends a reply with a list.
pub(crate) fn end_list(out: &mut JsonText) -> Result<(), AllocError>
    ensures { OnOk result (out.new ≡ out.old ++ token.end_array ∷ token.end_object ∷ []) }
{
    out.end_array()?;
    out.end_object()
}
