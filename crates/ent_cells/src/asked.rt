//! The keys that look at a row, or at documents of a kind and an id.

ghost use Rattle.std.specs.Prelude.{◌≡◌, ◌++◌, IfOk, OnOk, filter_map, true};
ghost use Rattle.ent_request.specs.declared.key.ReadKey.{ReadKey as Key};
ghost use Rattle.ent_request.specs.declared.key.ReadKey.TheVariants.{Ref};
ghost use Rattle.ent_request.specs.Noted.{has_key};
ghost use Rattle.ent_request.specs.QuestionOf.{question_of};
ghost use Rattle.ent_request.specs.Questions.{is_asked};
ghost use Rattle.ent_index.specs.Asked.{asks_policy, asks_row};
ghost use Rattle.ent_cells.specs.proofs_only.Asked.{asked_keys, key_of_row, reference_of};

use ent_eval::{Asked, Question, Questions, ReadKey};
use ent_finder::RowKey;
use ent_policy::{Kind, Reference};
use ent_values::{Items, Text};
use std::alloc::{AllocError, Global};

/// Adds the key of values that the issuer gives of what a row is of, or without an issuer of those that anyone gives,
/// if its question has a number.
fn add_asked(
    alloc: Global,
    questions: &Questions,
    row: &RowKey,
    issuer: Option<Text>,
    keys: &mut Items<ReadKey>,
) -> Result<(), AllocError>
    ensures { OnOk result (keys.new ≡ keys.old ++ asked_keys questions.now (key_of_row row.now issuer)) }
{
    let question = Question::Of(Asked {
        category: row.category.copy(alloc)?,
        attribute: row.attribute.copy(alloc)?,
        datatype: row.datatype,
        issuer,
    });
    match (questions.number_of(&question), question) {
        (Some(_), Question::Of(asked)) => {
            keys.push(ReadKey::Attr(asked.key(alloc, &row.entity)?))
        }
        _ => Ok(()),
    }
}

/// The keys whose values a row may change, those without an issuer and those with the row's, if their questions have a
/// number.
pub(crate) fn keys_of_row(
    alloc: Global,
    questions: &Questions,
    row: &RowKey,
) -> Result<Items<ReadKey>, AllocError>
    ensures { IfOk result (λ keys. (k : Key) → asks_row row.now k ≡ true
        → is_asked questions.now (question_of k) ≡ true → has_key keys k ≡ true) }
{
    let mut keys = Items::new(alloc);
    add_asked(alloc, questions, row, None, &mut keys)?;
    let Some(issuer) = &row.issuer else {
        return Ok(keys);
    };
    let issuer = issuer.copy(alloc)?;
    add_asked(alloc, questions, row, Some(issuer), &mut keys)?;
    Ok(keys)
}

/// Whether a reference is one of a kind and an id.
fn is_of(reference: &Reference, kind: Kind, id: &str) -> bool
    ensures { result ≡ asks_policy kind id.now (Ref reference.now) }
{
    kind == reference.kind && id == reference.id.as_str()
}

/// The key that is looked up for a question, if that is a reference of a kind and an id.
fn reference_of(
    alloc: Global,
    question: &Question,
    kind: Kind,
    id: &str,
) -> Result<Option<ReadKey>, AllocError>
    ensures { IfOk result (λ k. k ≡ reference_of kind id.now question.now) }
{
    match question {
        Question::Ref(reference) => {
            if is_of(reference, kind, id) {
                Ok(Some(ReadKey::Ref(reference.copy(alloc)?)))
            } else {
                Ok(None)
            }
        }
        _ => Ok(None),
    }
}

/// The keys that are looked up for some questions, and that are references of a kind and an id.
pub(crate) fn references(
    alloc: Global,
    questions: &[Question],
    kind: Kind,
    id: &str,
) -> Result<Items<ReadKey>, AllocError>
    ensures { IfOk result (λ keys. keys ≡ filter_map (reference_of kind id.now) questions.now) }
{
    let mut keys = Items::new(alloc);
    for question in questions {
        if let Some(key) = reference_of(alloc, question, kind, id)? {
            keys.push(key)?;
        }
    }
    Ok(keys)
}
