// No code: files of six principals load with eight and run alike, and a view of either shows the same.
#![tactic(auto)]
