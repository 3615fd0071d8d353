// Document 01's examples in one table, proved as one fact.
#![tactic(auto)]

ghost use Rattle.worked_examples.specs.Table.{Answered};

pub fn one_fact()
    ensures { Answered }
{}
