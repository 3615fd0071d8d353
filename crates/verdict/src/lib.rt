// The bounded check of a term with supplied groups, as a definition on trees, and what it promises. No code: the check of a
// file is proved equal to it. Each function's contract is a promise of specs/Claims.antt or specs/Examples.antt.
#![tactic(auto)]

ghost use Rattle.verdict.specs.Claims.{Passing, Stopping, Running, Turning, FormerRuns, LaterRuns, Grounds, OnlyLimits};
ghost use Rattle.verdict.specs.Examples.{Examples};

pub fn what_passes()
    ensures { Passing }
{}

pub fn what_stops()
    ensures { Stopping }
{}

pub fn how_it_runs()
    ensures { Running }
{}

pub fn turn_by_turn()
    ensures { Turning }
{}

pub fn former_runs()
    ensures { FormerRuns }
{}

pub fn later_runs()
    ensures { LaterRuns }
{}

pub fn what_stopped()
    ensures { Grounds }
{}

pub fn what_limits()
    ensures { OnlyLimits }
{}

pub fn worked_examples()
    ensures { Examples }
{}
