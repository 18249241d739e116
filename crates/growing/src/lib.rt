// Laws of the growth check: no failing step is the law over all mergers. No code stands here.

#![tactic(auto)]
