//! What the service answers of the lines that make its state anew.

ghost use Rattle.std.specs.Prelude.{◌≡◌};
ghost use Rattle.ent_line.specs.Commands.{dump_told, format_told};
ghost use Rattle.ent_line.specs.Dumping.{can_tell, format_reply, is_moment, is_version};
ghost use Rattle.ent_line.specs.proofs_only.Replying.{Tells, TellsThat};
ghost use Rattle.ent_line.specs.proofs_only.Writing.{Spells};

use crate::reply::Reply;
use crate::service::Service;
use ent_dump::dump_text;
use ent_eval::{Environment, Evaluates};
use ent_wire::Refusal;
use itoa::Buffer;
use std::alloc::{AllocError, Global};

/// Whether lines have that version.
fn is_version(version: u64) -> bool
    ensures { result ≡ is_version version }
{
    version == 1 || version == 2
}

/// Whether a moment is known, and not only its day.
fn is_moment(environment: Environment) -> bool
    ensures { result ≡ is_moment environment }
{
    matches!(environment, Environment::Moment(_))
}

/// Whether lines of that version can tell what is known of the time.
fn can_tell(version: u64, environment: Environment) -> bool
    ensures { result ≡ can_tell version environment }
{
    version == 2 || version == 1 && !is_moment(environment)
}

/// The text of the reply to `format`: the version.
#[tactic(auto, unfolding(crate::specs::Dumping::format_reply))]
fn format_text(alloc: Global, version: u64) -> Result<String, AllocError>
    ensures { Spells (format_reply version) result }
{
    let mut number = Buffer::new();
    let mut text = String::from_str(alloc, "{\"format\":")?;
    text.push_str(number.format(version))?;
    text.push_str("}")?;
    Ok(text)
}

impl<E: Evaluates> Service<E> {
    /// `format`.
    #[tactic(auto, unfolding(crate::specs::Commands::format_told))]
    pub(crate) fn format(&self, version: Option<u64>) -> Result<Reply, AllocError>
        ensures { TellsThat (format_told version) result }
    {
        let Some(version) = version else {
            return Ok(Reply::Refused(Refusal::BadValue));
        };
        if !is_version(version) {
            return Ok(Reply::Refused(Refusal::BadValue));
        }
        let text = format_text(self.alloc, version)?;
        Ok(Reply::Text(text))
    }

    /// `dump`.
    #[tactic(auto, unfolding(crate::specs::Commands::dump_told, ent_dump::specs::Dumped::dump_text))]
    pub(crate) fn dump(&self, version: Option<u64>) -> Result<Reply, AllocError>
        ensures { Tells (λ w. dump_told version w.state) self.now result }
    {
        let Some(version) = version else {
            return Ok(Reply::Refused(Refusal::BadValue));
        };
        let review = self.desk.review();
        if !can_tell(version, review.pdp().environment()) {
            return Ok(Reply::Refused(Refusal::BadValue));
        }
        let text = dump_text(self.alloc, review, version)?;
        Ok(Reply::Text(text))
    }
}
