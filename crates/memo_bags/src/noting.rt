//! What a request finds for several questions.

ghost use Rattle.std.specs.Prelude.{IfOk, OnOk};
ghost use Rattle.std.specs.List.{AllByRecursion};
ghost use Rattle.memo_bags.specs.Findings.{IsFinding};
ghost use Rattle.ent_request.specs.Questions.{AreNumbers};
ghost use Rattle.memo_bags.specs.proofs_only.Ready.{AreReady, FindsAll, KeepsReady, NotesFinding, TellsAll};
ghost use Rattle.memo_bags.specs.proofs_only.Ready.{TellsAttributes, in_scene, request_of};

use crate::finding::Finding;
use crate::findings::{Findings, place_of};
use crate::scene::Scene;
use ent_request::LookUps;
use ent_values::Items;
use std::alloc::{AllocError, Global};

/// What a request finds for those of some questions that are about its names.
///
/// Its contract leaves open: in which order findings stand, and whether one stands there twice; which numbers bags
/// have.
pub fn findings_of<L: LookUps>(
    scene: &Scene<'_, L>,
    findings: &mut Findings,
    asked: &[u32],
) -> Result<Items<Finding>, AllocError>
    requires ready { AreReady (L.looks scene.now.held.now) scene.now findings.old }
    requires within { AreNumbers scene.now.questions.now asked.now }
    ensures are { IfOk result (AllByRecursion (IsFinding scene.now.questions.now findings.new.bags)) }
    ensures found { IfOk result (in_scene L.looks scene.now FindsAll findings.new.bags (request_of scene.now)) }
    ensures tells { IfOk result
        (in_scene L.looks scene.now TellsAll findings.new.bags (request_of scene.now) asked.now) }
    ensures attributes { IfOk result
        (in_scene L.looks scene.now TellsAttributes findings.new.bags (request_of scene.now) asked.now) }
    ensures keeps { KeepsReady (L.looks scene.now.held.now) scene.now findings.old findings.new }
{
    let mut found = Items::new(scene.alloc);
    for number in asked {
        note_finding(scene, findings, *number, &mut found)?;
    }
    Ok(found)
}

// Notes what a request finds for a question, if it is about one of its names.
fn note_finding<L: LookUps>(
    scene: &Scene<'_, L>,
    findings: &mut Findings,
    number: u32,
    found: &mut Items<Finding>,
) -> Result<(), AllocError>
    requires ready { AreReady (L.looks scene.now.held.now) scene.now findings.old }
    ensures notes { OnOk result
        (in_scene L.looks scene.now NotesFinding findings.new.bags (request_of scene.now) number found.old found.new) }
    ensures keeps { KeepsReady (L.looks scene.now.held.now) scene.now findings.old findings.new }
{
    match place_of(scene.questions, number) {
        None => Ok(()),
        Some(place) => {
            let bag = findings.bag_of(scene, number, place)?;
            found.push(Finding {
                question: number,
                place,
                bag,
            })
        }
    }
}
