use crate::running::{is_so, is_usage_of_bytes, strips_so};

// Plans of the written files, with what they come to.
#[test]
fn plans_are_stripped(rt: HostRuntime) {
    let alloc = rt.alloc();
    let cases = [
        ("", ""),
        ("(do_-go__to_-a__1)(merge_-0)", "(go_to a_1)\n"),
        (
            "(do_-go__to_-a__1 )(merge_-0 )\n; cost = 2 (unit cost)",
            "(go_to a_1)\n",
        ),
        ("(do_-left)\n(DO_-LEFT)\n(merge_-0)\n", "(left)\n(left)\n"),
    ];
    for (plan, printed) in cases {
        assert!(rt; is_so(strips_so(alloc, plan, 0, printed)));
    }
}

// Texts that are no plans of the written files, with where they are refused.
#[test]
fn other_plans_are_refused(rt: HostRuntime) {
    let alloc = rt.alloc();
    let cases = [
        ("(go_to)", "refused 19 PlanSyntax\nat plan line 1 byte 1\n"),
        (
            "(do_-a b)",
            "refused 19 PlanSyntax\nat plan line 1 byte 1\n",
        ),
        (
            "(do_-a)\n(merge_-01)",
            "refused 19 PlanSyntax\nat plan line 2 byte 9\n",
        ),
        (
            "(do_-a)(do_-a_)",
            "refused 19 PlanSyntax\nat plan line 1 byte 8\n",
        ),
        ("(do_-a", "refused 19 PlanSyntax\nat plan line 1 byte 6\n"),
        ("do_-a", "refused 19 PlanSyntax\nat plan line 1 byte 0\n"),
        ("(go_to) ?", "refused 2 BadToken\nat plan line 1 byte 8\n"),
    ];
    for (plan, printed) in cases {
        assert!(rt; is_so(strips_so(alloc, plan, 3, printed)));
    }
}

// Words that are no text.
#[test]
fn bytes_that_are_no_text(rt: HostRuntime) {
    assert!(rt; is_so(is_usage_of_bytes(rt.alloc())));
}
