// Laws only: counts that add up; which batches are accepted, and why others are refused; batches cut in two, and read in windows. No code
// stands here.

#![tactic(auto)]
