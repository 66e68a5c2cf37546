// No code: theorems on the definition of a day. Its views tell their reader nothing of what is hidden from the reader's label.
#![tactic(auto)]
