//! Strings joined.

ghost use Rattle.std.specs.Prelude.{◌≡◌, false, [], ◌∷◌, ◌++◌, Ok, OnOk, string_bytes};
ghost use Rattle.ent_values.specs.declared.value.Value.TheVariants as values;
ghost use Rattle.ent_functions.specs.Arguments.{Applies, texts_of};
ghost use Rattle.ent_functions.specs.Texts.{joined};

use crate::arg::{Arg, Fault};
use ent_values::{Text, Value};
use std::alloc::{AllocError, Global};

/// The strings one after the other.
pub(crate) fn concatenation(alloc: Global, arguments: &[Arg]) -> Result<Arg, Fault>
    ensures { Applies false (Ok (Arg.One (values.Text (joined (texts_of arguments.now))))) result }
{
    let mut whole = String::new(alloc);
    for argument in arguments {
        push_text(&mut whole, argument)?;
    }
    Ok(Arg::One(Value::Text(Text::new(alloc, whole)?)))
}

// Puts the text of a string last.
fn push_text(whole: &mut String, argument: &Arg) -> Result<(), AllocError>
    ensures { OnOk result (string_bytes whole.new ≡ string_bytes whole.old ++ joined (texts_of (argument.now ∷ []))) }
{
    match argument {
        Arg::One(Value::Text(text)) => whole.push_str(text.as_str()),
        _ => Ok(()),
    }
}
