// Laws alone: arithmetic on a carrier, finite fields, sums and the count of points. No function stands here.
#![tactic(auto)]
