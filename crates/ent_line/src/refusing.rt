//! How the refusal of an edit is told.

ghost use Rattle.ent_line.specs.proofs_only.Refusing.{EditRefused};

use crate::reply::Reply;
use ent_table::EditFault;
use ent_wire::Refusal;
use std::alloc::AllocError;

/// The reply to an edit that is refused, or want of memory.
pub(crate) fn refused_edit(fault: EditFault) -> Result<Reply, AllocError>
    ensures { EditRefused fault result }
{
    let refusal = match fault {
        EditFault::NotThere => Refusal::NotThere,
        EditFault::AlreadyThere => Refusal::AlreadyThere,
        EditFault::Limit => Refusal::Limit,
        EditFault::Reserved => Refusal::Reserved,
        EditFault::BadValue => Refusal::BadValue,
        EditFault::UnknownModule => Refusal::UnknownModule,
        EditFault::Memory => return Err(AllocError),
    };
    Ok(Reply::Refused(refusal))
}
