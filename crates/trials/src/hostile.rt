//! The service itself over a reader or a writer that fails, and under limits that no line can set.

ghost use Rattle.ent_table.specs.Limits.{IsWithinGreatest};

use crate::serving::{Narrow, Slow};
use ent_eval::Pdp;
use ent_evaluator::Evaluator;
use ent_finder::{
    AttributeFinder, AttributeFinderModule, Attributes, MapDocs, MapRows, Policies, PolicyFinder,
    PolicyFinderModule,
};
use ent_line::{Answering, Reply, ServeFault, Service, serve};
use ent_report::Desk;
use ent_table::{Limits, Review};
use ent_values::Items;
use std::alloc::{AllocError, Global};
use std::test::Fail;

/// Lines with what they are answered: a reader that fails behind them or ends, a writer that takes so many bytes, what
/// is written, the number of lines or the fault, and a line that is handled then, with the number of its refusal.
struct HostileCase {
    lines: &'static str,
    fails: bool,
    room: usize,
    written: &'static str,
    end: Result<u64, ServeFault>,
    then: &'static str,
    refusal: u8,
}

/// The number of a refusal, and 0 of another reply.
fn refusal(reply: &Reply) -> u8 {
    match reply {
        Reply::Refused(refusal) => refusal.code(),
        _ => 0,
    }
}

/// Whether a service answers a case as it says.
fn answers<S: Answering>(alloc: Global, service: &mut S, case: &HostileCase) -> bool
    requires { S.is_ready service.old }
{
    let mut reader = Slow::new(case.lines.as_bytes(), 9, case.fails);
    let mut writer = Narrow {
        taken: Vec::new(alloc),
        room: case.room,
        flushes: true,
    };
    let end = serve(alloc, service, &mut reader, &mut writer);
    let then = refusal(&service.handle(case.then.as_bytes()));
    let is_written = writer.taken.as_slice() == case.written.as_bytes();
    is_written & (end == case.end) & (then == case.refusal)
}

/// Whether a new service over what holds values and documents, within those limits, answers a case as it says.
fn is_answered_over<A: Attributes, P: Policies>(
    alloc: Global,
    attributes: A,
    policies: P,
    limits: Limits,
    case: &HostileCase,
) -> bool
    requires { IsWithinGreatest limits }
{
    let pdp = Pdp::new(alloc, attributes, policies);
    let review: Review<Evaluator<A, P>> = Review::new(alloc, pdp, limits);
    let mut service = Service::new(alloc, Desk::new(alloc, review));
    answers(alloc, &mut service, case)
}

/// Whether a new service within those limits answers a case as it says.
fn is_answered(alloc: Global, limits: Limits, case: &HostileCase) -> Result<bool, AllocError>
    requires { IsWithinGreatest limits }
{
    let mut modules: Vec<Box<dyn PolicyFinderModule>> = Vec::new(alloc);
    modules.push(Box::new(alloc, MapDocs::new(alloc))?)?;
    let mut attributes: Vec<Box<dyn AttributeFinderModule>> = Vec::new(alloc);
    attributes.push(Box::new(alloc, MapRows::new(alloc, Items::new(alloc)))?)?;
    let attributes = AttributeFinder::new(attributes);
    let policies = PolicyFinder::new(modules);
    Ok(is_answered_over(alloc, attributes, policies, limits, case))
}

/// Faults of a reader in the middle of a line, and of a writer behind the first reply.
const FAULTS: &[HostileCase] = &[
    HostileCase {
        lines: "{\"do\":\"table\"}\n{\"do\":\"ta",
        fails: true,
        room: 1000,
        written: "{\"table\":[]}\n",
        end: Err(ServeFault::Read),
        then: "{\"do\":\"table\"}",
        refusal: 0,
    },
    HostileCase {
        lines: "{\"do\":\"person.add\",\"name\":\"ann\"}\n{\"do\":\"person.add\",\"name\":\"bob\"}\n",
        fails: false,
        room: 25,
        written: "{\"changes\":0,\"serial\":1}\n",
        end: Err(ServeFault::Write),
        then: "{\"do\":\"person.add\",\"name\":\"bob\"}",
        refusal: 8,
    },
];

#[test]
fn goes_on_after_a_fault(rt: HostRuntime) -> Result<(), Fail> {
    for case in FAULTS {
        assert!(rt;
            is_answered(rt.alloc(), Limits::standard(), case)?,
            "{}",
            case.lines
        );
    }
    Ok(())
}

/// Limits of two people, two actions, two resources, four cells and one document.
fn small() -> Limits
    ensures { IsWithinGreatest result }
{
    Limits {
        people: 2,
        actions: 2,
        resources: 2,
        cells: 4,
        documents: 1,
    }
}

/// As many names as make four cells; then a resource too many, and a person without a name. And one document; then one
/// more, for a module that isn't there. That there is no room is told before everything else.
const FULL: &[HostileCase] = &[
    HostileCase {
        lines: "{\"do\":\"person.add\",\"name\":\"ann\"}\n{\"do\":\"person.add\",\"name\":\"bob\"}\n\
                {\"do\":\"action.add\",\"name\":\"read\"}\n{\"do\":\"action.add\",\"name\":\"write\"}\n\
                {\"do\":\"resource.add\",\"name\":\"plan\"}\n{\"do\":\"resource.add\",\"name\":\"map\"}\n",
        fails: false,
        room: 1000,
        written: "{\"changes\":0,\"serial\":1}\n{\"changes\":0,\"serial\":2}\n{\"changes\":0,\"serial\":3}\n\
                  {\"changes\":0,\"serial\":4}\n{\"changes\":4,\"serial\":5}\n{\"refused\":9}\n",
        end: Ok(6),
        then: "{\"do\":\"person.add\",\"name\":\"\"}",
        refusal: 9,
    },
    HostileCase {
        lines: "{\"do\":\"policy.add\",\"document\":{\"Policy\":{\"PolicyId\":\"p\",\
                \"RuleCombiningAlgId\":\"urn:oasis:names:tc:xacml:3.0:rule-combining-algorithm:permit-unless-deny\",\
                \"Version\":\"1\"}}}\n",
        fails: false,
        room: 1000,
        written: "{\"changes\":0,\"serial\":1}\n",
        end: Ok(1),
        then: "{\"do\":\"policy.add\",\"module\":7,\"document\":{\"Policy\":{\"PolicyId\":\"q\",\
               \"RuleCombiningAlgId\":\"urn:oasis:names:tc:xacml:3.0:rule-combining-algorithm:permit-unless-deny\",\
               \"Version\":\"1\"}}}",
        refusal: 9,
    },
];

#[test]
fn full_tables(rt: HostRuntime) -> Result<(), Fail> {
    for case in FULL {
        assert!(rt; is_answered(rt.alloc(), small(), case)?, "{}", case.lines);
    }
    Ok(())
}
