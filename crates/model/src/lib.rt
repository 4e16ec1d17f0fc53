// No program code: the model of schedules and plans, and its theorems, are in specs/.
#![tactic(auto)]
