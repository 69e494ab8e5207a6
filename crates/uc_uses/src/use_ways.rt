//! Laws: the graph of the uses of a tree leads on as the uses and calls of the design do.

ghost use Rattle.uc_uses.specs.Numbers.{GraphsFollowUses};

/// A law of the definitions: each define, procedure and bound input below a root has a number of its own, and from there ways in the graph of
/// uses are as long as ways of uses, and lead back where these do.
pub fn graphs_follow_uses()
    ensures { GraphsFollowUses }
{}
