//! The printed forms of refusals and faults, which no clause says.

use cpg_cred::{By, Refusal};
use cpg_text::Fault;
use std::alloc::Global;
use std::test::Fail;

/// Whether the refusal is printed so.
fn prints(alloc: Global, refusal: Refusal, text: &str) -> Result<bool, Fail> {
    Ok(format!(in alloc; "{refusal}")?.as_str() == text)
}

#[test]
fn refusals_are_printed_with_number_and_name(rt: HostRuntime) -> Result<(), Fail> {
    let rows = [
        (Refusal::Access, "2 Access"),
        (Refusal::Behind(7), "19 Behind 7"),
        (Refusal::Denied(By::Rule(3)), "21 Denied rule 3"),
        (Refusal::BadValue(2), "35 BadValue 2"),
    ];
    for (refusal, text) in rows {
        assert!(rt; prints(rt.alloc(), refusal, text)?);
    }
    Ok(())
}

#[test]
fn faults_are_shown(rt: HostRuntime) -> Result<(), Fail> {
    let whole = Fault::from(Refusal::BadCommand(2));
    let of_part = Fault {
        part: Some(2),
        refusal: Refusal::BadValue(2),
    };
    let shown = format!(in rt.alloc(); "{whole}, {of_part}")?;
    assert!(rt; shown.as_str() == "41 BadCommand 2, part 2: 35 BadValue 2");
    Ok(())
}
