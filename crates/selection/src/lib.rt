// Laws only: the nodes of a table answer every situation as the matching row says, else the default. No code stands here.

#![tactic(auto)]
