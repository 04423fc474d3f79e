//! A script of tlx is a system file of the judge, and describes the same system.
ghost use Rattle.check_scripts.specs.Instance.{DescribesTheSame, NamesTheSame};

/// Such a script is read without a fault on the way to its parts. These are its slaves, each a memory of one range that is
/// wholly known, and its masters with their counts of sources, all on buses of eight bytes.
pub fn a_script_names_the_same_parts()
    ensures { NamesTheSame }
{}

/// The system that such a script describes has the script's slaves and ranges, and its masters have the script's owners.
pub fn a_script_describes_the_same_system()
    ensures { DescribesTheSame }
{}
