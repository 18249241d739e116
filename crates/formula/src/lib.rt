// Definitions and laws only: the published formula, the nodes of a table and how many they are. No code stands here.

#![tactic(auto)]
