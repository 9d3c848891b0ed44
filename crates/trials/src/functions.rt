//! What the faults of functions are called.

use ent_functions::Fault;
use std::test::Fail;

/// Faults with what each is called.
const NAMES: &[(Fault, &str)] = &[
    (Fault::DivideByZero, "division by zero"),
    (Fault::Overflow, "integer outside 64 bits"),
    (Fault::NotSingle, "the bag has not exactly one value"),
    (Fault::DateRange, "date outside the years 1 to 9999"),
    (Fault::Memory, "out of memory"),
];

#[test]
fn printed_faults(rt: HostRuntime) -> Result<(), Fail> {
    for &(fault, name) in NAMES {
        let printed = format!(in rt.alloc(); "{fault}")?;
        assert_eq!(rt; printed.as_str(), name);
    }
    Ok(())
}
