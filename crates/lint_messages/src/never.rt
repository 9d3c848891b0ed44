//! Obligations and advice for an effect that their rule or their policy never gives (section 7.18).

use crate::behind::MOST_WARNINGS;
use crate::position::{position_of, text_at};
use ent_combine::RuleAlg;
use ent_json::{JsonTree, list_at, text_at as id_at};
use std::alloc::{AllocError, Global};

/// How one of the two kinds is written: the key of its list, the key of the effect for which it is, and its word.
#[derive(Clone, Copy)]
struct Written {
    list: &'static str,
    effect: &'static str,
    word: &'static str,
}

/// Both kinds.
const KINDS: &[Written] = &[
    Written {
        list: "ObligationExpressions",
        effect: "FulfillOn",
        word: "obligation",
    },
    Written {
        list: "AdviceExpressions",
        effect: "AppliesTo",
        word: "advice",
    },
];

/// What has obligations and advice, and which effects it may give.
#[derive(Clone, Copy)]
struct Giver {
    word: &'static str,
    permits: bool,
    denies: bool,
}

impl Giver {
    /// A rule, which gives its own effect alone.
    fn rule<J: JsonTree>(rule: &J) -> Giver {
        let effect = id_at(rule, "Effect").unwrap_or("");
        Giver {
            word: "rule",
            permits: effect == "Permit",
            denies: effect == "Deny",
        }
    }

    /// A policy, which gives the effects of its rules, and what its algorithm gives where none decides.
    fn policy<J: JsonTree>(policy: &J) -> Giver {
        let algorithm = id_at(policy, "RuleCombiningAlgId").and_then(RuleAlg::from_id);
        let rules = list_at(policy, "Rule").unwrap_or(&[]);
        Giver {
            word: "policy",
            permits: algorithm == Some(RuleAlg::PermitUnlessDeny)
                || rules.iter().any(|rule| Giver::rule(rule).permits),
            denies: algorithm == Some(RuleAlg::DenyUnlessPermit)
                || rules.iter().any(|rule| Giver::rule(rule).denies),
        }
    }

    /// Whether it may give an effect.
    fn may_give(self, effect: &str) -> bool {
        match effect {
            "Permit" => self.permits,
            "Deny" => self.denies,
            _ => true,
        }
    }
}

/// Where a document is looked through, and what was told of it so far: JSON pointers and sentences.
#[derive(Drop)]
struct NeverNotes<'a> {
    alloc: Global,
    text: &'a [u8],
    told: &'a mut Vec<(String, String)>,
}

impl NeverNotes<'_> {
    /// Puts last what is told of one that stands at a pointer, and never comes.
    fn note(
        &mut self,
        pointer: String,
        word: &str,
        giver: Giver,
        effect: &str,
    ) -> Result<(), AllocError> {
        if self.told.len() >= MOST_WARNINGS {
            return Ok(());
        }
        let position = position_of(self.text, text_at(self.alloc, self.text, pointer.as_str())?);
        let (line, column, around) = (position.line, position.column, giver.word);
        let sentence = format!(in self.alloc;
            "line {line}, column {column}: the {around} never gives {effect}, so this {word} never comes"
        )?;
        self.told.push((pointer, sentence))?;
        Ok(())
    }

    /// Puts last what is told of those of each kind at a rule or a policy that stands at a pointer.
    fn note_all<J: JsonTree>(
        &mut self,
        pointer: &str,
        json: &J,
        giver: Giver,
    ) -> Result<(), AllocError> {
        for Written {
            list,
            effect: key,
            word,
        } in KINDS {
            for (number, one) in list_at(json, list).unwrap_or(&[]).iter().enumerate() {
                let effect = id_at(one, key).unwrap_or("");
                if !giver.may_give(effect) {
                    let inner = format!(in self.alloc; "{pointer}/{list}/{number}")?;
                    self.note(inner, word, giver, effect)?;
                }
            }
        }
        Ok(())
    }
}

/// Puts what is told of a policy last: its rules' obligations and advice and its own, for an effect that never comes.
pub(crate) fn note_never<J: JsonTree>(
    alloc: Global,
    text: &[u8],
    pointer: &str,
    policy: &J,
    told: &mut Vec<(String, String)>,
) -> Result<(), AllocError> {
    let mut notes = NeverNotes { alloc, text, told };
    for (number, rule) in list_at(policy, "Rule").unwrap_or(&[]).iter().enumerate() {
        let inner = format!(in alloc; "{pointer}/Rule/{number}")?;
        notes.note_all(inner.as_str(), rule, Giver::rule(rule))?;
    }
    notes.note_all(pointer, policy, Giver::policy(policy))
}
