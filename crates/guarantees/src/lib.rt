// No program code: what the project guarantees is stated in specs/.
#![tactic(auto)]
