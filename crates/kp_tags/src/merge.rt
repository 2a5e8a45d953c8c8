ghost use Rattle.std.specs.Prelude.{◌≡◌};
ghost use Rattle.std.specs.List.{list_all};
ghost use Rattle.kp_tags.specs.MergeTables.{has_tags_of_atoms};

use kp_primes::are_of_atoms;
use kp_tags_files::FileMerge;

/// Whether the tags of merges are of atoms below this number alone, as `accept_merges` asks.
pub fn tags_are_of_atoms(merges: &[FileMerge], atoms: u32) -> bool
    ensures { result ≡ list_all (has_tags_of_atoms atoms) merges.now }
{
    merges
        .iter()
        .all(|merge| are_of_atoms(merge.tags.slice(), atoms))
}
