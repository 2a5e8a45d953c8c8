use crate::running::{USAGE, says_so};
use std::test::Fail;

const NO_FILES: (&str, &str) = ("", "");

const LINE_OF_40: &str =
    "family line\nn 40\natoms 40\nactions 1\ntags 41\nmerges 1\nfacts 3280\ncomplete\nsteps 39\nexpanded 40\ncheck yes\n";

const BOMBS_OF_20: &str =
    "family bombs\nn 20\natoms 22\nactions 41\ntags 41\nmerges 20\nfacts 1804\ncomplete\nsteps 38\nexpanded 58\ncheck yes\n";

const LINE_OF_2: &str =
    "family line\nn 2\natoms 2\nactions 1\ntags 3\nmerges 1\nfacts 12\ncomplete\nsteps 1\nexpanded 2\ncheck yes\n";

// Families by their size and what is said behind it, with the summary; or that there is no plan, or a spent budget.
#[test]
fn generated_problems(rt: HostRuntime) -> Result<(), Fail> {
    let alloc = rt.alloc();
    let none = "no plan\nincomplete\n";
    let cases: [(&[&str], u8, &str); 6] = [
        (&["bench", "line", "40"], 0, LINE_OF_40),
        (&["bench", "bombs", "20"], 0, BOMBS_OF_20),
        (&["bench", "line", "2"], 0, LINE_OF_2),
        (&["bench", "line", "2", "--mode", "k0"], 1, none),
        (&["bench", "--mode=k0", "bombs", "2"], 1, none),
        (&["bench", "line", "3", "--budget", "1"], 4, "spent 1\n"),
    ];
    for (said, number, printed) in cases {
        assert!(rt; says_so(alloc, NO_FILES, said, number, printed)?);
    }
    Ok(())
}

// Words behind `bench` that are no command.
#[test]
fn no_generated_problem(rt: HostRuntime) -> Result<(), Fail> {
    let alloc = rt.alloc();
    let cases: [&[&str]; 4] = [
        &["bench", "line"],
        &["bench", "line", "1"],
        &["bench", "line", "101"],
        &["bench", "ring", "3"],
    ];
    for said in cases {
        assert!(rt; says_so(alloc, NO_FILES, said, 2, USAGE)?);
    }
    Ok(())
}
