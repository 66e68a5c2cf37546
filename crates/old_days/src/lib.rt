// No code: days of six principals load with eight, and their jobs run alike; the views of either show the same.
#![tactic(auto)]
