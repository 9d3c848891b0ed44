//! The file of declared attributes, read over the runtime that the program is started with.

use crate::checking::FILE_LIMIT;
use crate::declaring::{Declared, declared_in};
use crate::sentences::declared_sentence;
use cli_words::{Shown, Source, Unmet, read_source, tell};
use ent_values::Items;
use ent_wire::ServeFault;
use lint_declared::DeclaredAttribute;
use std::rt::Files;

/// Says on standard error where in a source what is wrong, if that can be said.
pub(crate) fn tell_place(rt: &impl Eprint, source: Source<'_>, told: &Option<String>) {
    if let Some(told) = told {
        let _ = eprintln!(rt; "{}: {told}", Shown(source.name()));
    }
}

/// The attributes that a source declares; where they can't be had, that is told on standard error.
pub(crate) fn read_declared<R: Files + Input + Eprint + AllocGlobal>(
    rt: &R,
    source: Source<'_>,
) -> Result<Items<DeclaredAttribute>, Unmet> {
    let bytes = read_source(rt, source, FILE_LIMIT as u64 + 1)?;
    match declared_in(rt.alloc(), bytes.as_slice()) {
        Ok(Declared::Attributes(attributes)) => Ok(attributes),
        Ok(Declared::Refused(fault, told)) => {
            let _ = rt.eprintln(declared_sentence(fault));
            tell_place(rt, source, &told);
            Err(Unmet::Refused)
        }
        Err(_) => Err(Unmet::Failed(tell(rt, ServeFault::Memory))),
    }
}
