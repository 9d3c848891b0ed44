//! Edits of values of attributes.

ghost use Rattle.std.specs.Prelude.{◌≡◌, ◌<◌, false, OnOk, length};
ghost use Rattle.std.specs.List.{list_all};
ghost use Rattle.std.specs.Option.{option_map_or};
ghost use Rattle.ent_values.specs.Bags.{AllOfType};
ghost use Rattle.ent_values.specs.Same.{same_type};
ghost use Rattle.ent_values.specs.Types.{datatype_of};
ghost use Rattle.ent_policy.specs.Names.{is_bad_name};
ghost use Rattle.ent_table.specs.proofs_only.Change.{Counted, Keeps, Makes, Tries};
ghost use Rattle.ent_table.specs.Fresh.{IsFresh, state_of};
ghost use Rattle.ent_table.specs.Step.{attribute_set, is_bad_row, is_reserved, is_source};

use crate::edit::{Accepted, EditFault};
use crate::review_parts::ReviewParts;
use ent_eval::{Evaluates, Exchange, id_attribute};
use ent_finder::{Attributes, RowKey};
use ent_policy::is_bad_name;
use ent_values::{DataType, Items, Text, Value};

/// The most values of a row.
pub const MOST_VALUES: usize = 256;

/// Whether the attribute is the id of what its category is about: no module holds its values (appendix B.4 to B.6).
///
/// Its contract is an equation.
pub fn is_reserved(category: &str, attribute: &str) -> bool
    ensures { result ≡ is_reserved category.now attribute.now }
{
    match id_attribute(category) {
        None => false,
        Some(id) => attribute == id,
    }
}

/// Whether an issuer can't be a name.
fn is_bad_issuer(issuer: &Option<Text>) -> bool
    ensures { result ≡ option_map_or is_bad_name issuer.now false }
{
    match issuer {
        None => false,
        Some(issuer) => is_bad_name(issuer.as_str()),
    }
}

/// Whether all values have that type.
fn are_of(datatype: DataType, values: &[Value]) -> bool
    ensures { result ≡ list_all (λ v. same_type (datatype_of v) datatype) values.now }
{
    values.iter().all(|value| value.datatype() == datatype)
}

/// Whether entity, attribute or issuer can't be a name, or a value isn't of the key's type.
fn is_bad_row(key: &RowKey, values: &[Value]) -> bool
    ensures { result ≡ is_bad_row key.now values.now }
{
    is_bad_name(key.entity.as_str())
        || is_bad_name(key.attribute.as_str())
        || is_bad_issuer(&key.issuer)
        || !are_of(key.datatype, values)
}

impl<E: Evaluates> ReviewParts<E> {
    pub(crate) fn set_attribute(
        &mut self,
        number: usize,
        key: RowKey,
        values: Items<Value>,
    ) -> Result<Accepted, EditFault>
        requires { IsFresh self.old }
        ensures fresh { IsFresh self.new }
        ensures step { Makes (λ s. attribute_set s number key values) self.old self.new result }
        ensures counted { Counted (λ s. attribute_set s number key values) self.old self.new result }
        ensures tables { Keeps self.old self.new }
    {
        self.row_fault(number, &key, values.as_slice())?;
        let documents = self.documents;
        self.make(Exchange::Row(number, key, values), documents)
    }

    /// Why values can't be set in the row of a key, if they can't.
    fn row_fault(&self, number: usize, key: &RowKey, values: &[Value]) -> Result<(), EditFault>
        ensures tested { Tries (λ s. attribute_set s number key.now values.now) self.now result }
        ensures number { OnOk result (number < length (state_of self.now).held.sources) }
        ensures types { OnOk result (AllOfType key.now.datatype values.now) }
    {
        if self.is_last() || values.len() > MOST_VALUES {
            return Err(EditFault::Limit);
        }
        if is_reserved(key.category.as_str(), key.attribute.as_str()) {
            return Err(EditFault::Reserved);
        }
        if is_bad_row(key, values) {
            return Err(EditFault::BadValue);
        }
        if !self.is_source(number, key.category.as_str()) {
            return Err(EditFault::UnknownModule);
        }
        Ok(())
    }

    /// Whether there is a module of attributes of that number that supports the category.
    fn is_source(&self, number: usize, category: &str) -> bool
        ensures { result ≡ is_source (state_of self.now) number category.now }
    {
        let attributes = self.pdp().attributes();
        number < attributes.len() && attributes.supports(number, category)
    }
}
