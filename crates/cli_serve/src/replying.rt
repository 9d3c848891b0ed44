//! What a new service replies to lines.

ghost use Rattle.std.specs.Prelude.{◌≡◌, IfErr, IfOk};
ghost use Rattle.ent_wire.specs.declared.fault.ServeFault.TheVariants.{Memory};
ghost use Rattle.cli_words.specs.Options.{IsFew};
ghost use Rattle.cli_serve.specs.Replying.{AreRepliesTo, few};

use crate::limiting::bounded;
use crate::running::serve_from;
use cli_words::Modules;
use ent_table::Limits;
use ent_wire::ServeFault;
use std::alloc::Global;

/// How many modules of each sort a service has where nobody says another number.
pub const MODULES: usize = 2;

/// That number of modules, or two where it isn't from 1 to 4.
///
/// Its contract is an equation.
pub fn few(count: usize) -> usize
    ensures value { result ≡ few count }
    ensures few { IsFew result }
{
    if 1 <= count && count <= 4 { count } else { 2 }
}

/// What a new service within those limits, of that number of modules of each sort, replies to lines.
///
/// Its contract leaves open: when it answers want of memory.
#[tactic(auto, unfolding(crate::specs::Replying::AreRepliesTo))]
pub fn replies_to(
    alloc: Global,
    limits: Limits,
    modules: usize,
    lines: &[u8],
) -> Result<Vec<u8>, ServeFault>
    ensures replies { IfOk result (λ v. AreRepliesTo limits modules lines.now v.items) }
    ensures fault { IfErr result (λ e. e ≡ Memory) }
{
    let count = few(modules);
    let modules = Modules {
        attributes: count,
        policies: count,
    };
    let limits = bounded(limits);
    let mut unread = lines;
    let mut replies = Vec::new(alloc);
    match serve_from(alloc, modules, limits, &mut unread, &mut replies) {
        Ok(_) => Ok(replies),
        // A slice is read, and a list written, as long as there is memory.
        Err(_) => Err(ServeFault::Memory),
    }
}
