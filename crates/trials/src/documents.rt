//! The JSON of documents: what is written of it as a value, which no line asks for.

use ent_polform::{read_document, write_document, write_value};
use ent_policy::Document;
use ent_values::Value;
use serde_json::Value as Json;
use std::alloc::Global;
use std::test::Fail;

/// The JSON that the text spells.
pub(crate) fn json_of(alloc: Global, text: &str) -> Result<Json, Fail> {
    Ok(Json::from_str(alloc, text)?)
}

/// The document that the text spells.
fn document(alloc: Global, text: &str) -> Result<Document, Fail> {
    let json = json_of(alloc, text)?;
    Ok(read_document(alloc, &json)?)
}

/// Documents, and what they are written as.
const WRITTEN: &[(&str, &str)] = &[
    // Every part that a policy can have.
    (
        r#"{"Policy":{"PolicyId":"p1","Version":"1.0",
           "RuleCombiningAlgId":"urn:oasis:names:tc:xacml:3.0:rule-combining-algorithm:deny-overrides",
           "Description":"who may read","Target":{"AnyOf":[{"AllOf":[{"Match":[{
           "MatchId":"urn:oasis:names:tc:xacml:1.0:function:string-equal","AttributeValue":{"DataType":"string",
           "Value":"read"},"AttributeDesignator":{"Category":"urn:oasis:names:tc:xacml:3.0:attribute-category:action",
           "AttributeId":"urn:oasis:names:tc:xacml:1.0:action:action-id","DataType":"string","Issuer":"desk",
           "MustBePresent":true}}]}]}]},"VariableDefinition":[{"VariableId":"cleared",
           "Expression":{"Apply":{"FunctionId":"urn:oasis:names:tc:xacml:1.0:function:boolean-one-and-only",
           "Arguments":[{"AttributeDesignator":{
           "Category":"urn:oasis:names:tc:xacml:1.0:subject-category:access-subject","AttributeId":"cleared",
           "DataType":"boolean"}}]}}}],"Rule":[{"RuleId":"r1","Effect":"Permit","Target":{},
           "Condition":{"Apply":{"FunctionId":"urn:oasis:names:tc:xacml:3.0:function:any-of",
           "Arguments":[{"Function":{"FunctionId":"urn:oasis:names:tc:xacml:1.0:function:boolean-equal"}},
           {"VariableReference":{"VariableId":"cleared"}},{"Apply":{
           "FunctionId":"urn:oasis:names:tc:xacml:1.0:function:boolean-bag","Arguments":[{"AttributeValue":{
           "Value":true}}]}}]}}},{"RuleId":"r2","Effect":"Deny","Description":"",
           "Condition":{"Apply":{"FunctionId":"urn:oasis:names:tc:xacml:1.0:function:integer-equal",
           "Arguments":[{"AttributeValue":{"DataType":"integer","Value":-9223372036854775808}},
           {"AttributeValue":{"DataType":"integer","Value":"9223372036854775807"}}]}}}]}}"#,
        r#"{"Policy":{"PolicyId":"p1","Rule":[{"Condition":{"Apply":{"Arguments":[{"Function":{
           "FunctionId":"urn:oasis:names:tc:xacml:1.0:function:boolean-equal"}},{"VariableReference":{
           "VariableId":"cleared"}},{"Apply":{"Arguments":[{"AttributeValue":{
           "DataType":"http://www.w3.org/2001/XMLSchema#boolean","Value":true}}],
           "FunctionId":"urn:oasis:names:tc:xacml:1.0:function:boolean-bag"}}],
           "FunctionId":"urn:oasis:names:tc:xacml:3.0:function:any-of"}},"Effect":"Permit","RuleId":"r1"},
           {"Condition":{"Apply":{"Arguments":[{"AttributeValue":{"DataType":"http://www.w3.org/2001/XMLSchema#integer",
           "Value":-9223372036854775808}},{"AttributeValue":{"DataType":"http://www.w3.org/2001/XMLSchema#integer",
           "Value":9223372036854775807}}],"FunctionId":"urn:oasis:names:tc:xacml:1.0:function:integer-equal"}},
           "Effect":"Deny","RuleId":"r2"}],
           "RuleCombiningAlgId":"urn:oasis:names:tc:xacml:3.0:rule-combining-algorithm:deny-overrides",
           "Target":{"AnyOf":[{"AllOf":[{"Match":[{"AttributeDesignator":{
           "AttributeId":"urn:oasis:names:tc:xacml:1.0:action:action-id",
           "Category":"urn:oasis:names:tc:xacml:3.0:attribute-category:action",
           "DataType":"http://www.w3.org/2001/XMLSchema#string","Issuer":"desk","MustBePresent":true},
           "AttributeValue":{"DataType":"http://www.w3.org/2001/XMLSchema#string","Value":"read"},
           "MatchId":"urn:oasis:names:tc:xacml:1.0:function:string-equal"}]}]}]},
           "VariableDefinition":[{"Expression":{"Apply":{"Arguments":[{"AttributeDesignator":{"AttributeId":"cleared",
           "Category":"urn:oasis:names:tc:xacml:1.0:subject-category:access-subject",
           "DataType":"http://www.w3.org/2001/XMLSchema#boolean","MustBePresent":false}}],
           "FunctionId":"urn:oasis:names:tc:xacml:1.0:function:boolean-one-and-only"}},"VariableId":"cleared"}],
           "Version":"1.0"}}"#,
    ),
    // A policy and a set in a set.
    (
        r#"{"PolicySet":{"PolicySetId":"s1","Version":"2",
           "PolicyCombiningAlgId":"urn:oasis:names:tc:xacml:3.0:policy-combining-algorithm:permit-overrides",
           "Description":"both","Target":{"AnyOf":[]},"Children":[{"Policy":{"Version":"1","PolicyId":"p3",
           "Description":"","RuleCombiningAlgId":"urn:oasis:names:tc:xacml:3.0:rule-combining-algorithm:deny-overrides",
           "Target":{},"Rule":[{"RuleId":"ok","Effect":"Permit"}]}},{"PolicySet":{"PolicySetId":"s2","Version":"03",
           "PolicyCombiningAlgId":"urn:oasis:names:tc:xacml:3.0:policy-combining-algorithm:deny-unless-permit",
           "Children":[]}}]}}"#,
        r#"{"PolicySet":{"Children":[{"Policy":{"PolicyId":"p3","Rule":[{"Effect":"Permit","RuleId":"ok"}],
           "RuleCombiningAlgId":"urn:oasis:names:tc:xacml:3.0:rule-combining-algorithm:deny-overrides","Version":"1"}},
           {"PolicySet":{
           "PolicyCombiningAlgId":"urn:oasis:names:tc:xacml:3.0:policy-combining-algorithm:deny-unless-permit",
           "PolicySetId":"s2","Version":"3"}}],
           "PolicyCombiningAlgId":"urn:oasis:names:tc:xacml:3.0:policy-combining-algorithm:permit-overrides",
           "PolicySetId":"s1","Version":"2"}}"#,
    ),
    // References with and without constraints, as they are written.
    (REFERRING, REFERRING),
    // The document of `docs/POLICIES.md` that isn't in written form, and what the page says that it is written as.
    (
        r#"{"Policy":{"Version":"01.2","PolicyId":"written","Description":"a note",
           "RuleCombiningAlgId":"urn:oasis:names:tc:xacml:3.0:rule-combining-algorithm:deny-overrides",
           "Target":{"AnyOf":[]},"VariableDefinition":[{"VariableId":"number","Expression":{"AttributeValue":{
           "DataType":"integer","Value":"+007"}}},{"VariableId":"flag","Expression":{"AttributeValue":{
           "DataType":"boolean","Value":"1"}}},
           {"VariableId":"day","Expression":{"AttributeValue":{"DataType":"date","Value":"2025-02-28Z"}}},
           {"VariableId":"term","Expression":{"AttributeValue":{"DataType":"yearMonthDuration","Value":"P14M"}}},
           {"VariableId":"names","Expression":{"AttributeDesignator":{"Category":"c","AttributeId":"a",
           "DataType":"string"}}}],"Rule":[{"RuleId":"ok","Effect":"Permit","Target":{},
           "Condition":{"Apply":{"FunctionId":"urn:oasis:names:tc:xacml:1.0:function:and","Arguments":[]}}}]}}"#,
        r#"{"Policy":{"PolicyId":"written","Rule":[{"Condition":{"Apply":{
           "FunctionId":"urn:oasis:names:tc:xacml:1.0:function:and"}},"Effect":"Permit","RuleId":"ok"}],
           "RuleCombiningAlgId":"urn:oasis:names:tc:xacml:3.0:rule-combining-algorithm:deny-overrides",
           "VariableDefinition":[{"Expression":{"AttributeValue":{"DataType":"http://www.w3.org/2001/XMLSchema#integer",
           "Value":7}},"VariableId":"number"},{"Expression":{"AttributeValue":{
           "DataType":"http://www.w3.org/2001/XMLSchema#boolean","Value":true}},"VariableId":"flag"},
           {"Expression":{"AttributeValue":{"DataType":"http://www.w3.org/2001/XMLSchema#date","Value":"2025-02-28"}},
           "VariableId":"day"},{"Expression":{"AttributeValue":{
           "DataType":"http://www.w3.org/2001/XMLSchema#yearMonthDuration","Value":"P1Y2M"}},"VariableId":"term"},
           {"Expression":{"AttributeDesignator":{"AttributeId":"a","Category":"c",
           "DataType":"http://www.w3.org/2001/XMLSchema#string","MustBePresent":false}},"VariableId":"names"}],
           "Version":"1.2"}}"#,
    ),
];

/// A set of references.
const REFERRING: &str =
    r#"{"PolicySet":{"Children":[{"PolicyIdReference":{"EarliestVersion":"1.*","Id":"p",
       "LatestVersion":"2.+","Version":"1.2.*"}},{"PolicySetIdReference":{"Id":"s"}}],
       "PolicyCombiningAlgId":"urn:oasis:names:tc:xacml:3.0:policy-combining-algorithm:deny-overrides",
       "PolicySetId":"s","Version":"1"}}"#;

/// What the document that the text spells is written as.
fn written(alloc: Global, text: &str) -> Result<Json, Fail> {
    let document = document(alloc, text)?;
    Ok(write_document(alloc, &document)?)
}

/// Whether it is this JSON.
fn is_written_as(alloc: Global, text: &str, want: &str) -> Result<bool, Fail> {
    let json = written(alloc, text)?;
    Ok(json_of(alloc, want)? == json)
}

#[test]
fn documents_are_written(rt: HostRuntime) -> Result<(), Fail> {
    for &(text, written) in WRITTEN {
        assert!(rt; is_written_as(rt.alloc(), text, written)?, "{text}");
    }
    Ok(())
}

#[test]
fn an_integer_is_written_as_a_number(rt: HostRuntime) -> Result<(), Fail> {
    let written = write_value(rt.alloc(), &Value::Integer(7))?;
    assert!(rt; written.as_number().is_some());
    Ok(())
}
