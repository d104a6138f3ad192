//! What was found of rot, as text: a line for each finding.

ghost use Rattle.std.specs.Prelude.{◌≡◌, ◌++◌, OnOk, IfOk, flat_map};
ghost use Rattle.std.specs.List.{list_any};
ghost use Rattle.console_text.specs.Ends.{printout_of};
ghost use Rattle.store_console.specs.Findings.{is_broken};
ghost use Rattle.store_console.specs.Printed.{finding_text, of_two, with_findings};

use crate::findings::Finding;
use crate::found_text::push_named;
use console_text::{Output, push_named_number, push_text};
use std::alloc::AllocError;

/// A line for each finding behind what is printed without them.
pub fn with_findings(printout: Output, findings: &[Finding]) -> Result<Output, AllocError>
    ensures { IfOk result (λ verified. printout_of verified ≡ with_findings findings.now (printout_of printout)) }
{
    let Output { mut text, good } = printout;
    for finding in findings {
        push_finding(&mut text, *finding)?;
    }
    let good = good && !has_broken(findings);
    Ok(Output { text, good })
}

/// Whether one of these is what no crash leaves.
fn has_broken(findings: &[Finding]) -> bool
    ensures { result ≡ list_any is_broken findings.now }
{
    for finding in findings {
        if is_broken(*finding) {
            return true;
        }
    }
    false
}

/// Whether no crash leaves it.
fn is_broken(finding: Finding) -> bool
    ensures { result ≡ is_broken finding }
{
    match finding {
        Finding::CounterSlots(_, _) | Finding::AreaSlots(_, _) | Finding::SealedBehind(_) => true,
        Finding::CounterUnsealed(_) | Finding::OtherAreaNextId(_, _) | Finding::JobDiffers(_) =>
            false,
    }
}

fn push_finding(text: &mut Vec<u8>, finding: Finding) -> Result<(), AllocError>
    ensures { OnOk result (text.new.items ≡ text.old.items ++ finding_text finding) }
{
    match finding {
        Finding::CounterSlots(a, b) => push_two(text, "broken counter_slots", a, b),
        Finding::AreaSlots(a, b) => push_two(text, "broken area_slots", a, b),
        Finding::CounterUnsealed(number) => push_named(text, "hint counter_unsealed", number),
        Finding::SealedBehind(sector) => push_named(text, "broken sealed_behind", sector),
        Finding::OtherAreaNextId(other, here) => {
            push_two(text, "hint other_area_next_id", other, here)
        }
        Finding::JobDiffers(id) => push_named(text, "hint job_differs", id),
    }
}

/// Adds a line of a name and two numbers.
fn push_two(text: &mut Vec<u8>, name: &str, a: u64, b: u64) -> Result<(), AllocError>
    ensures { OnOk result (text.new.items ≡ text.old.items ++ of_two name.now a b) }
{
    push_text(text, name)?;
    push_named_number(text, " ", a)?;
    push_named_number(text, " ", b)?;
    push_text(text, "\n")
}
