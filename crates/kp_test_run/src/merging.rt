use crate::running::{CELLS, ONE_IS_FULL, is_so, merges_so};

// Files of merges for three cells, with what is printed of their translation.
#[test]
fn merges_are_translated(rt: HostRuntime) {
    let alloc = rt.alloc();
    let cases = [
        (
            "(merge (x1) ((x1)) ((x2)) ((x3)))",
            "atoms 3\nactions 1\ntags 4\nmerges 1\nfacts 24\ncomplete\n",
        ),
        (
            "; in upper case\n(MERGE (X1)\n((X1)) ((X2)) ((X3)))\n",
            "atoms 3\nactions 1\ntags 4\nmerges 1\nfacts 24\ncomplete\n",
        ),
        (
            "",
            "atoms 3\nactions 1\ntags 1\nmerges 0\nfacts 6\nincomplete\nuncovered (x1)\n",
        ),
        (
            "(merge (x2) ((x1)) ((not (x1))))",
            "atoms 3\nactions 1\ntags 3\nmerges 1\nfacts 18\nincomplete\nuncovered (x1)\n",
        ),
    ];
    for (merges, printed) in cases {
        assert!(rt; is_so(merges_so(alloc, (CELLS, ONE_IS_FULL), merges, 0, printed)));
    }
}

// Files of merges for three cells that are refused.
#[test]
fn merges_are_refused(rt: HostRuntime) {
    let alloc = rt.alloc();
    let cases = [
        (
            "(merge (x1) ((x1)) ((x2)))",
            "refused 16 MergeInvalid\nmerge 0\nstate (x3)\n",
        ),
        (
            "(merge (x1) ((x1) (x2)))",
            "refused 15 TagInconsistent\nmerge 0 tag 0\n",
        ),
        (
            "(merge (x9))",
            "refused 14 MergeSyntax\nat merges line 1 byte 8\n",
        ),
        (
            "(merge (x1))",
            "refused 16 MergeInvalid\nmerge 0\nstate (x3)\n",
        ),
        (
            "(merge (x1) ((x1)) ((x2)) ((x3))) x",
            "refused 14 MergeSyntax\nat merges line 1 byte 34\n",
        ),
        (
            "(merge (x1) ((x1)) ((x2)) ((x3)) ?",
            "refused 2 BadToken\nat merges line 1 byte 33\n",
        ),
    ];
    for (merges, printed) in cases {
        assert!(rt; is_so(merges_so(alloc, (CELLS, ONE_IS_FULL), merges, 3, printed)));
    }
}
