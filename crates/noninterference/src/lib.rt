// No code: theorems on the definitions together. A view tells its reader nothing of what is hidden from its label.
#![tactic(auto)]
