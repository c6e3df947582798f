//! Faults that no row over the program meets: those of later edits than the first, and of no words at all.
use keep_args::{ChoiceFault, chosen_of};
use keep_commands::fault::RunFault;
use keep_edit::{EditFault, Why};
use std::alloc::Global;
use std::test::Fail;

// Fails unless a fault ends a run with this text and status 1.
fn ends_with(alloc: Global, fault: &RunFault, wanted: &str) -> Result<(), Fail> {
    let text = fault.to_string(alloc)?;
    if text.as_str() == wanted && fault.status() == 1 {
        return Ok(());
    }
    Err(Fail::new(format_args!("{text} with {}", fault.status())))
}

#[test]
fn a_refused_edit_is_reported_with_its_number(rt: HostRuntime) -> Result<(), Fail> {
    const CASES: &[(usize, EditFault, &str)] = &[
        (1, EditFault::NotValue, "edit 1: NotValue"),
        (2, EditFault::TooDeep, "edit 2: TooDeep"),
        (
            10,
            EditFault::Conflict {
                why: Why::DefinedTwice,
            },
            "edit 10: Conflict DefinedTwice",
        ),
    ];
    for &(index, fault, wanted) in CASES {
        ends_with(rt.alloc(), &RunFault::Edit { index, fault }, wanted)?;
    }
    Ok(())
}

#[test]
fn no_words_at_all_are_refused_by_clap(rt: HostRuntime) {
    let words: Vec<String> = Vec::new(rt.alloc());
    let fault = chosen_of(rt.alloc(), words.as_slice());
    assert!(rt; matches!(&fault, Err(ChoiceFault::Words(_))));
}
