//! Laws of all findings: each is the contract of a function that does nothing.

ghost use Rattle.mt_findings.specs.Laws.{BeginsAsPlain, EachBlockingOption, FirstIsNamed, NoneIfStable};

/// The first finding is the one that a plain check names.
pub fn first_is_named()
    ensures { FirstIsNamed }
{}

/// An option is among those by which an agent blocks exactly if the agent wants it more and it would be taken. None is
/// there twice.
pub fn each_blocking_option()
    ensures { EachBlockingOption }
{}

/// There is no finding exactly if the match is stable and no record has other counts.
pub fn none_if_stable()
    ensures { NoneIfStable }
{}

/// The answer with all findings begins with the line of the plain answer.
pub fn begins_as_plain()
    ensures { BeginsAsPlain }
{}
