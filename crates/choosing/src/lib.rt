// Laws only: what a policy may say is exactly what it says under some choice for its comparisons on absent facts. No code stands here.

#![tactic(auto)]
