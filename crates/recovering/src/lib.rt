// Laws only: the table given back lists what a node array answers, says it, and is the only one that lists it. No code stands here.

#![tactic(auto)]
