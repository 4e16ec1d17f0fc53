// No program code: lists of calls of the online cache, histories of requests and the bounds on their cost are in specs/.
#![tactic(auto)]
